//! Why a text gives no script.

ghost use Rattle.std.specs.Prelude.{◌≡◌};
ghost use Rattle.plan_script.specs.declared.fault.ScriptFault.TheVariants as faults;

use drm_bits::NoMemory;
use drm_schedule::Reason;
use std::alloc::AllocError;

/// Why a text gives no script: its first fault, or want of memory.
#[derive(Clone, Copy, Debug, PartialEq, Eq)]
pub enum ScriptFault {
    /// The line, from 1; 0 for a text that is longer than its limit, and one past the last line for a text without a feed.
    Line { line: u32, reason: Reason },
    NoMemory,
}

impl From<NoMemory> for ScriptFault {
    ghost from_gives = { λ fault made. made ≡ faults.NoMemory };

    fn from(_: NoMemory) -> ScriptFault {
        ScriptFault::NoMemory
    }
}

impl From<AllocError> for ScriptFault {
    ghost from_gives = { λ fault made. made ≡ faults.NoMemory };

    fn from(_: AllocError) -> ScriptFault {
        ScriptFault::NoMemory
    }
}

pub fn fault_at_line(line: u32, reason: Reason) -> ScriptFault
    ensures { result ≡ ScriptFault.Line line reason }
{
    ScriptFault::Line { line, reason }
}
