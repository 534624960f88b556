//! Why a run stops early.

ghost use Rattle.std.specs.Prelude.{◌≡◌, ◌<◌};
ghost use Rattle.drm_links.specs.Sink.{WritesWhole};

use drm_bits::NoMemory;
use drm_links::{Sink, Status, WriteFault, write_all};
use text_output::{Piece, write_pieces};

/// A fault of a run. Each has a status and a line.
#[derive(Clone, Copy, Debug, PartialEq, Eq)]
pub enum PathsFault {
    NoMemory,
    /// The words are no command line.
    Words,
    /// A write to `out` failed.
    Write,
    /// A link couldn't be opened, or failed.
    Link,
    /// What the journal has of a path and what the path took differ, at this place first. Paths are numbered from 0.
    Differs { path: u8, at: u64 },
}

impl From<NoMemory> for PathsFault {
    ghost use Rattle.std.specs.Prelude.{◌≡◌};
    ghost use Rattle.cmd_paths.specs.declared.fault.PathsFault.TheVariants as faults;

    ghost from_gives = { λ _ fault. fault ≡ faults.NoMemory };

    fn from(_: NoMemory) -> Self {
        PathsFault::NoMemory
    }
}

impl From<WriteFault> for PathsFault {
    ghost use Rattle.std.specs.Prelude.{◌≡◌};
    ghost use Rattle.cmd_paths.specs.declared.fault.PathsFault.TheVariants.{Write};

    ghost from_gives = { λ _ fault. fault ≡ Write };

    fn from(_: WriteFault) -> Self {
        PathsFault::Write
    }
}

impl PathsFault {
    ghost use Rattle.cmd_faults.specs.Fault.{WritesLine};
    ghost use Rattle.cmd_paths.specs.Faults.{fault_status, fault_line};

    /// Writes the line of the fault, and answers its status. A failure of `err` changes nothing.
    pub fn report<E: Sink>(self, err: &mut E) -> Status
        ensures status { result.code ≡ fault_status self }
        ensures line { WritesLine (fault_line self) E.known err.old err.new }
    {
        let _ = self.write(err);
        self.status()
    }

    fn status(self) -> Status
        ensures { result.code ≡ fault_status self }
    {
        let code = match self {
            PathsFault::NoMemory => 1,
            PathsFault::Words => 2,
            PathsFault::Write => 5,
            PathsFault::Link => 6,
            PathsFault::Differs { .. } => 8,
        };
        Status { code }
    }

    fn write<E: Sink>(self, err: &mut E) -> Result<(), WriteFault>
        ensures { WritesWhole result (E.known err.old) (E.known err.new) (fault_line self) }
    {
        match self {
            PathsFault::NoMemory => write_words(err, "drmpaths: no memory\n"),
            PathsFault::Words => write_words(err, "drmpaths: words\n"),
            PathsFault::Write => write_words(err, "drmpaths: write fault\n"),
            PathsFault::Link => write_words(err, "drmpaths: link fault\n"),
            PathsFault::Differs { path, at } => write_pieces(
                err,
                &[
                    Piece::Words("drmpaths: path "),
                    Piece::Number(u64::from(path) + 1),
                    Piece::Words(" entry "),
                    Piece::Number(at),
                    Piece::Words(" differs\n"),
                ],
            ),
        }
    }
}

fn write_words<E: Sink>(err: &mut E, line: &str) -> Result<(), WriteFault>
    ensures { WritesWhole result (E.known err.old) (E.known err.new) line.now }
{
    write_all(err, line.as_bytes())
}
