//! The laws of two runs of the program, each on a function that does nothing.

ghost use Rattle.law_agreement_runs.specs.Runs.{RunsHaveModulators, TwoRuns};

use law_agreement::{any_two_modulators_agree, receivers_are_modulators};

/// The headline holds of each modulator of a run of which the headline holds.
pub fn runs_have_modulators()
    ensures { RunsHaveModulators }
{
    // For its clause alone: a receiver is a modulator.
    receivers_are_modulators();
}

/// Each modulator of a run agrees with each modulator of another run, or of the same one.
pub fn any_two_runs_agree()
    ensures { TwoRuns }
{
    // For their clauses alone: the law above, and any two modulators agree.
    any_two_modulators_agree();
    runs_have_modulators();
}
