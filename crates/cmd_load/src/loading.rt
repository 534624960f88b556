//! Files of a schedule, from a shelf.

ghost use Rattle.std.specs.Prelude.{◌≡◌, ◌≤◌, IfOk, length};
ghost use Rattle.drm_links.specs.Known.{HasCause};
ghost use Rattle.cmd_load.specs.Loading.{load_for, ReadBy};

use cmd_faults::Fault;
use drm_bits::Octets;
use drm_links::{Loaded, Shelf};
use drm_schedule::Reason;
use std::alloc::Global;

/// Why no schedule comes from a shelf.
#[derive(Clone, Copy, Debug, PartialEq, Eq)]
pub enum ScheduleFault {
    NoMemory,
    /// A line of the text, from 1; 0 where the text is too long.
    Line { line: u32, reason: Reason },
    /// A load failed.
    Read,
}

impl From<ScheduleFault> for Fault {
    ghost use Rattle.std.specs.Prelude.{◌≡◌};
    ghost use Rattle.cmd_load.specs.Faults.{fault_of_schedule};

    ghost from_gives = { λ refused fault. fault ≡ fault_of_schedule refused };

    fn from(refused: ScheduleFault) -> Self {
        match refused {
            ScheduleFault::NoMemory => Fault::NoMemory,
            ScheduleFault::Line { line, reason } => Fault::Schedule { line, reason },
            ScheduleFault::Read => Fault::Read,
        }
    }
}

/// The file of this name, at most `limit` bytes, which this line of a schedule asks for.
pub fn load<S: Shelf>(
    alloc: Global,
    shelf: &mut S,
    line: u32,
    name: &str,
    limit: usize,
) -> Result<Octets, ScheduleFault>
    ensures reads { ReadBy (load_for line name.now limit) result
        (S.known shelf.old) (S.known shelf.new) }
    ensures within { IfOk result (λ bytes. length bytes ≤ limit) }
    ensures cause { HasCause (S.known shelf.old) (S.known shelf.new)
        (result ≡ Err ScheduleFault.Read) }
{
    match shelf.load(alloc, name, limit) {
        Loaded::Bytes(bytes) => Ok(bytes),
        Loaded::TooLong => Err(ScheduleFault::Line {
            line,
            reason: Reason::TooLong,
        }),
        Loaded::Failed => Err(ScheduleFault::Read),
        Loaded::NoMemory => Err(ScheduleFault::NoMemory),
    }
}
