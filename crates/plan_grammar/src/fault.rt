//! Why a line isn't read.

ghost use Rattle.std.specs.Prelude.{◌≡◌};
ghost use Rattle.plan_grammar.specs.declared.fault.LineFault.TheVariants as faults;

use drm_bits::NoMemory;
use drm_schedule::Reason;
use std::alloc::AllocError;

/// Why a line isn't read.
#[derive(Clone, Copy, Debug, PartialEq, Eq)]
pub enum LineFault {
    /// Memory ran out.
    NoMemory,
    /// The line is wrong by itself: `Word`, `Number` or `Range`.
    Broken(Reason),
}

impl From<Reason> for LineFault {
    ghost from_gives = { λ reason made. made ≡ faults.Broken reason };

    fn from(reason: Reason) -> LineFault {
        LineFault::Broken(reason)
    }
}

impl From<NoMemory> for LineFault {
    ghost from_gives = { λ fault made. made ≡ faults.NoMemory };

    fn from(_: NoMemory) -> LineFault {
        LineFault::NoMemory
    }
}

impl From<AllocError> for LineFault {
    ghost from_gives = { λ fault made. made ≡ faults.NoMemory };

    fn from(_: AllocError) -> LineFault {
        LineFault::NoMemory
    }
}
