//! Tests of what no case of the commands can say: receivers that work side by side, schedules over
//! UDP sockets of the loopback, a receiver whose link or sink fails in the middle, lines that no
//! command prints yet, a server that is asked for frames out of turn, and the order of live reads
//! and sends.
//!
//! It stands on `drm_top`, and for single calls on `drm_server`, `report_text` and `mod_feed`; its
//! links are those of `test_gated_links` and `drm_adapt`, its schedules those of `test_support`.
//!
//! Whole runs of the commands are the cases of `test_cases`; paths are tested in `test_paths`,
//! single sockets in `test_links`.
//!
//! Run it with `rt test` in the folder. Begin with `receiver_tests.rt`; `small.rt` runs command
//! lines beside a small schedule.
#![tactic(auto)]

#[cfg(test)]
mod gate_tests;
#[cfg(test)]
mod memory_tests;
#[cfg(test)]
mod receiver_tests;
#[cfg(test)]
mod report_tests;
#[cfg(test)]
mod server_tests;
#[cfg(test)]
mod side_by_side_tests;
#[cfg(test)]
mod small;
#[cfg(test)]
mod socket_tests;
#[cfg(test)]
mod turn_tests;
#[cfg(test)]
mod wrong;
