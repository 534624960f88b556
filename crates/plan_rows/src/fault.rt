//! Why a line isn't read.

ghost use Rattle.std.specs.Prelude.{◌≡◌};
ghost use Rattle.plan_rows.specs.declared.fault.RowFault.TheVariants as faults;

use drm_bits::NoMemory;
use std::alloc::AllocError;

/// What is wrong with the words of a line.
#[derive(Clone, Copy, Debug, PartialEq, Eq)]
pub enum Wrong {
    /// These aren't the words of such a line.
    Word,
    /// One isn't spelled as it has to be.
    Number,
    /// One is out of its range.
    Range,
}

/// Why a line isn't read.
#[derive(Clone, Copy, Debug, PartialEq, Eq)]
pub enum RowFault {
    /// Memory ran out.
    NoMemory,
    Broken(Wrong),
}

impl From<Wrong> for RowFault {
    ghost from_gives = { λ wrong made. made ≡ faults.Broken wrong };

    fn from(wrong: Wrong) -> RowFault {
        RowFault::Broken(wrong)
    }
}

impl From<NoMemory> for RowFault {
    ghost from_gives = { λ fault made. made ≡ faults.NoMemory };

    fn from(_: NoMemory) -> RowFault {
        RowFault::NoMemory
    }
}

impl From<AllocError> for RowFault {
    ghost from_gives = { λ fault made. made ≡ faults.NoMemory };

    fn from(_: AllocError) -> RowFault {
        RowFault::NoMemory
    }
}
