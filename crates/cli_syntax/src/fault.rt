//! Why there is no request.

ghost use Rattle.std.specs.Prelude.{◌≡◌};
ghost use Rattle.cli_syntax.specs.declared.fault.WordsFault.TheVariants as faults;

use drm_bits::NoMemory;
use std::alloc::{AllocError, AllocFailed};

/// Why there is no request.
#[derive(Clone, Copy, Debug, PartialEq, Eq)]
pub enum WordsFault {
    /// The words are no command line.
    Words,
    /// Memory ran out.
    NoMemory,
}

impl From<NoMemory> for WordsFault {
    ghost from_gives = { λ fault made. made ≡ faults.NoMemory };

    fn from(_: NoMemory) -> Self {
        WordsFault::NoMemory
    }
}

impl From<AllocError> for WordsFault {
    ghost from_gives = { λ fault made. made ≡ faults.NoMemory };

    fn from(_: AllocError) -> Self {
        WordsFault::NoMemory
    }
}

impl<T: Drop> From<AllocFailed<T>> for WordsFault {
    ghost from_gives = { λ fault made. made ≡ faults.NoMemory };

    fn from(_: AllocFailed<T>) -> Self {
        WordsFault::NoMemory
    }
}
