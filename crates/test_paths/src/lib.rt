//! Tests of receiving over several paths, of what no case can say: what a datagram that comes over
//! two paths is answered, that each path counts its own datagrams, and that paths work side by
//! side.
//!
//! It stands on `report_journal`, `drm_paths` and `cmd_paths`, with the links of
//! `test_gated_links`, of which all but the last bring nothing before that one was asked.
//!
//! Whole runs of `drmpaths` whose report doesn't depend on the order between paths are cases in
//! `test_cases`. That the report is that of the server's frames is proved in `law_paths`.
//!
//! Run it with `rt test` in the folder. Begin with `event_tests.rt`.
#![tactic(auto)]

#[cfg(test)]
mod event_tests;
#[cfg(test)]
mod side_by_side_tests;
