//! Laws from what a server sends of a schedule to what a modulator gives (FAC, SDC and streams,
//! frame by frame): of any delivery of the datagrams, with losses, repetitions and foreign
//! datagrams among them, each frame that is given is the server's, and each other one is missing
//! (`modulators_give`). Others say which frames are given (`frames_in_time_are_given`), and where
//! reconfigurations are reported (`switches_are_reported_at_starts`). Each function of
//! `src/laws.rt` has an empty body or only calls other laws: its clause is the law, and nothing
//! runs.
//!
//! The datagrams are those of `drm_server`, the frames those of `drm_timeline`; packets come by
//! `law_collect`, items by `mod_feed`. `recv_report` cites the laws in its headline.
//!
//! No printed line is here: see `law_frame_lines` and `recv_report`.
//!
//! Begin with `IsDeliveryOf` and `IsInTime` in `specs/Sent.antt`, then `AreGiven` in
//! `specs/Given.antt`.
#![tactic(auto)]

mod laws;

pub use laws::{
    a_stretch_is_delivered, all_frames_are_given, all_frames_are_given_at_once,
    all_switches_are_reported, foreign_are_refused, frames_in_time_are_given, modulators_give,
    modulators_give_early, switches_are_reported_at_starts, two_ways_are_one_delivery,
};
