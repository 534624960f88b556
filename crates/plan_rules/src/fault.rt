//! Why a text gives no schedule.

ghost use Rattle.std.specs.Prelude.{◌≡◌};
ghost use Rattle.plan_rules.specs.declared.fault.PlanFault.TheVariants as faults;

use drm_bits::NoMemory;
use drm_schedule::Reason;
use std::alloc::AllocError;

/// Why a text gives no schedule: its first fault, or want of memory.
#[derive(Clone, Copy, Debug, PartialEq, Eq)]
pub enum PlanFault {
    /// The line, from 1; 0 for a text that is longer than its limit, and one past the last line for what is missing at
    /// the end.
    Line { line: u32, reason: Reason },
    NoMemory,
}

impl From<NoMemory> for PlanFault {
    ghost from_gives = { λ fault made. made ≡ faults.NoMemory };

    fn from(_: NoMemory) -> PlanFault {
        PlanFault::NoMemory
    }
}

impl From<AllocError> for PlanFault {
    ghost from_gives = { λ fault made. made ≡ faults.NoMemory };

    fn from(_: AllocError) -> PlanFault {
        PlanFault::NoMemory
    }
}

pub fn fault_at_line(line: u32, reason: Reason) -> PlanFault
    ensures { result ≡ PlanFault.Line line reason }
{
    PlanFault::Line { line, reason }
}
