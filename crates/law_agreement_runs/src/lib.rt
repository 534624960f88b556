//! From the headline of two runs of the program to what their reports have alike: each receiver of a
//! run of `receive`, and each feed of a run of `air`, agrees with each one of another run, or of the
//! same one (`any_two_runs_agree`). Each function of `src/laws.rt` only calls other laws: its clause
//! is the law, and nothing runs.
//!
//! What it is to agree is defined in `law_agreement`; the headline of a run is the clause `headline`
//! of `run`, in `drm_top`. No crate stands on this one.
//!
//! Runs of `drmpaths` aren't here: for its report see `law_agreement_links`.
//!
//! Begin with `OfEachModulator` in `specs/Runs.antt`.
#![tactic(auto)]

mod laws;

pub use laws::{any_two_runs_agree, runs_have_modulators};
