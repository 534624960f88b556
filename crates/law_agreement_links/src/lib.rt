//! Laws of any two modulators of one schedule with something between them and the server: behind
//! gateways, each of which sends the schedule on under a carry of its own
//! (`any_two_behind_gateways_agree`), and over several paths, whose report is that of one modulator
//! which received all that arrived (`several_paths_agree_with_any_modulator`). Each function of
//! `src/laws.rt` only calls other laws: its clause is the law, and nothing runs.
//!
//! What it is to agree is defined in `law_agreement`; gateways are those of `law_gate`, paths those
//! of `law_paths`. No crate stands on this one.
//!
//! One behind a gateway and one at the server agree as well: by
//! `a_schedule_reaches_behind_a_gateway` and the law of any two modulators.
//!
//! Begin with `ComesByGateway` in `specs/Gateways.antt`, then `PathsAgree` in `specs/Paths.antt`.
#![tactic(auto)]

mod laws;

pub use laws::{
    a_schedule_reaches_behind_a_gateway, any_two_behind_gateways_agree,
    several_paths_agree_with_any_modulator, several_paths_are_a_modulator,
};
