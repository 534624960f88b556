//! Laws of a gateway: what it sends of a delivery of packets is a delivery of the same packets
//! under its own carry (`deliveries_are_passed_on`), and of a schedule the same
//! (`schedules_are_passed_on`); so behind one gateway or two each frame that a receiver gives is
//! the server's, and is printed as that (`frames_behind_a_gateway_are_served`,
//! `frames_behind_two_gateways_are_served`). Each function of `src/laws.rt` only calls other laws:
//! its clause is the law, and nothing runs.
//!
//! The gateway is that of `drm_gate`; the laws rest on `law_collect`, `law_delivery` and
//! `law_frame_lines`. No crate stands on this one.
//!
//! What a gateway does in a run, whatever came, is the contract of `pass_over_group` in `drm_gate`; how
//! the command ends is in `cmd_gate`.
//!
//! Begin with `PassesSchedules` and `ServedBehindOne` in `specs/Laws.antt`.
#![tactic(auto)]

mod laws;

pub use laws::{
    deliveries_are_passed_on, frames_behind_a_gateway_are_served,
    frames_behind_two_gateways_are_served, schedules_are_passed_on, what_is_passed_on_comes_again,
};
