//! Laws of any two modulators of one schedule, each of which receives it in its own way: with its
//! own losses, repetitions and order, window, reach and first number, and under its own carry. Of
//! each frame that both give, the printed lines differ in their own numbers alone; a modulator
//! reports a reconfiguration before the first frame of the new configuration if and only if it gives
//! a frame of the countdown and has an item of that frame, so two that can report it do so before
//! the same frame; and two that miss no frame report the same (`any_two_modulators_agree`,
//! `any_two_receivers_agree`). Each function of `src/laws.rt` has an empty body or only calls other
//! laws: its clause is the law, and nothing runs.
//!
//! What one receiver reports of a delivery is the headline, in `recv_report`; deliveries are those
//! of `law_delivery`. `law_agreement_links` has gateways and several paths between, and
//! `law_agreement_runs` ties the laws to runs of the program.
//!
//! What is sent to several links isn't said here: see `drm_server`. Nothing is said of time.
//!
//! Begin with `CanReport` in `specs/Reconfigurations.antt`, then `AreAlike` in
//! `specs/Agreement.antt` and `ModulatorsAgree` in `specs/Modulators.antt`.
#![tactic(auto)]

mod laws;

pub use laws::{
    any_two_modulators_agree, any_two_receivers_agree, countdowns_are_the_schedules,
    receivers_are_modulators,
};
