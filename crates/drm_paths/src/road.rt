//! What all paths of a run have in common.

ghost use Rattle.std.specs.Prelude.{ℕ, Option};

use std::marker::Brand;
use std::sync::ledger::Ledger;

/// The ledger of a run, and by what the run's report is made. Nothing is known of a value under a lock but what its type says,
/// so the type says it.
pub trait Road: Ledger {
    ghost window: { ℕ };

    ghost reach: { ℕ };

    ghost first: { Option ℕ };

    ghost frames: { Option ℕ };
}

impl Road for Brand {
    ghost use Rattle.std.specs.Prelude.{None};

    ghost window = { 0 };

    ghost reach = { 0 };

    ghost first = { None };

    ghost frames = { None };
}
