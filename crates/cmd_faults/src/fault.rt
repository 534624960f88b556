//! Why a run stops early.

ghost use Rattle.std.specs.Prelude.{◌≡◌};
ghost use Rattle.drm_links.specs.Sink.{WritesWhole};
ghost use Rattle.text_output.specs.Text.{text_of};
ghost use Rattle.cmd_faults.specs.CrcLine.{crc_line};

use crate::capture::capture_pieces;
use crate::reason::{schedule_pieces, script_pieces};
use crate::units::{UnitsFault, units_pieces};
use capture_reader::{CaptureFault, CaptureStop};
use drm_bits::NoMemory;
use drm_fac::FacFault;
use drm_links::{LinkFault, Sink, Status, WriteFault, write_all};
use drm_schedule::Reason;
use text_output::{Piece, write_pieces};

/// A fault of a run. Each has a status and a line.
#[derive(Clone, Copy, Debug, PartialEq, Eq)]
pub enum Fault {
    NoMemory,
    Words,
    FacLength(usize),
    FacOver,
    FacCrc { stands: u8, computed: u8 },
    Schedule { line: u32, reason: Reason },
    Script { line: u32, reason: Reason },
    Capture(CaptureFault),
    /// A capture goes on behind the most bytes that are read.
    CaptureTooLong,
    /// The packet with this number is too large for the carry.
    PacketSize(u64),
    Units(UnitsFault),
    Read,
    Write,
    Link,
}

impl From<WriteFault> for Fault {
    ghost use Rattle.std.specs.Prelude.{◌≡◌};
    ghost use Rattle.cmd_faults.specs.declared.fault.Fault.TheVariants.{Write};

    ghost from_gives = { λ _ fault. fault ≡ Write };

    fn from(_: WriteFault) -> Self {
        Fault::Write
    }
}

impl From<LinkFault> for Fault {
    ghost use Rattle.std.specs.Prelude.{◌≡◌};
    ghost use Rattle.cmd_faults.specs.declared.fault.Fault.TheVariants.{Link};

    ghost from_gives = { λ _ fault. fault ≡ Link };

    fn from(_: LinkFault) -> Self {
        Fault::Link
    }
}

impl From<FacFault> for Fault {
    ghost use Rattle.std.specs.Prelude.{◌≡◌};
    ghost use Rattle.cmd_faults.specs.FacFaults.{fault_of};

    ghost from_gives = { λ refused fault. fault ≡ fault_of refused };

    fn from(refused: FacFault) -> Self {
        let FacFault::Crc { stands, computed } = refused;
        Fault::FacCrc { stands, computed }
    }
}

impl From<CaptureStop> for Fault {
    ghost use Rattle.std.specs.Prelude.{◌≡◌};
    ghost use Rattle.cmd_faults.specs.Captures.{stop_fault};

    ghost from_gives = { λ stop fault. fault ≡ stop_fault stop };

    fn from(stop: CaptureStop) -> Self {
        match stop {
            CaptureStop::Read => Fault::Read,
            CaptureStop::Capture(fault) => Fault::Capture(fault),
            CaptureStop::TooLong => Fault::CaptureTooLong,
        }
    }
}

impl From<NoMemory> for Fault {
    ghost use Rattle.std.specs.Prelude.{◌≡◌};
    ghost use Rattle.cmd_faults.specs.declared.fault.Fault.TheVariants as faults;

    ghost from_gives = { λ _ fault. fault ≡ faults.NoMemory };

    fn from(_: NoMemory) -> Self {
        Fault::NoMemory
    }
}

impl Fault {
    ghost use Rattle.std.specs.Prelude.{true, false};
    ghost use Rattle.cmd_faults.specs.Lines.{fault_line};
    ghost use Rattle.cmd_faults.specs.Fault.{fault_status, WritesLine};

    /// Writes the line of the fault, and answers its status. A failure of `err` changes nothing.
    pub fn report<E: Sink>(self, err: &mut E) -> Status
        ensures status { result.code ≡ fault_status self }
        ensures line { WritesLine (fault_line self) E.known err.old err.new }
    {
        let _ = self.write(err);
        self.status()
    }

    /// The same where `err_ok` holds; else nothing is written.
    pub fn report_if<E: Sink>(self, err_ok: bool, err: &mut E) -> Status
        ensures status { result.code ≡ fault_status self }
        ensures line { err_ok ≡ true → WritesLine (fault_line self) E.known err.old err.new }
        ensures still { err_ok ≡ false → err.new ≡ err.old }
    {
        if err_ok {
            self.report(err)
        } else {
            self.status()
        }
    }

    fn status(self) -> Status
        ensures { result.code ≡ fault_status self }
    {
        let code = match self {
            Fault::NoMemory => 1,
            Fault::Words => 2,
            Fault::FacLength(_) | Fault::FacOver | Fault::FacCrc { .. } => 3,
            Fault::Schedule { .. } | Fault::Script { .. } => 3,
            Fault::Capture(_) | Fault::CaptureTooLong | Fault::PacketSize(_) => 3,
            Fault::Units(_) => 3,
            Fault::Read => 4,
            Fault::Write => 5,
            Fault::Link => 6,
        };
        Status { code }
    }

    fn write<E: Sink>(self, err: &mut E) -> Result<(), WriteFault>
        ensures { WritesWhole result (E.known err.old) (E.known err.new) (fault_line self) }
    {
        match self {
            Fault::NoMemory => write_words(err, "drmcast: no memory\n"),
            Fault::Words => write_words(err, "drmcast: words\n"),
            Fault::FacLength(bytes) => write_pieces(
                err,
                &[
                    Piece::Words("drmcast: fac length "),
                    Piece::Number(bytes as u64),
                    Piece::Words("\n"),
                ],
            ),
            Fault::FacOver => write_words(err, "drmcast: fac length over 9\n"),
            Fault::FacCrc { stands, computed } => {
                let values = [stands, computed];
                write_pieces(err, &crc_pieces(&values[..1], &values[1..]))
            }
            Fault::Schedule { line, reason } => write_pieces(err, &schedule_pieces(line, reason)),
            Fault::Script { line, reason } => write_pieces(err, &script_pieces(line, reason)),
            Fault::Capture(fault) => write_pieces(err, &capture_pieces(fault)),
            Fault::CaptureTooLong => {
                write_words(err, "drmcast: capture byte 4294967295: too-long\n")
            }
            Fault::PacketSize(packet) => write_pieces(
                err,
                &[
                    Piece::Words("drmcast: packet "),
                    Piece::Number(packet),
                    Piece::Words(": packet-size\n"),
                ],
            ),
            Fault::Units(fault) => write_pieces(err, &units_pieces(fault)),
            Fault::Read => write_words(err, "drmcast: read fault\n"),
            Fault::Write => write_words(err, "drmcast: write fault\n"),
            Fault::Link => write_words(err, "drmcast: link fault\n"),
        }
    }
}

fn write_words<E: Sink>(err: &mut E, line: &str) -> Result<(), WriteFault>
    ensures { WritesWhole result (E.known err.old) (E.known err.new) line.now }
{
    write_all(err, line.as_bytes())
}

fn crc_pieces<'a>(stands: &'a [u8], computed: &'a [u8]) -> [Piece<'a>; 5]
    ensures { text_of result ≡ crc_line stands.now computed.now }
{
    [
        Piece::Words("drmcast: fac crc stands "),
        Piece::Hex(stands),
        Piece::Words(" computed "),
        Piece::Hex(computed),
        Piece::Words("\n"),
    ]
}
