//! Tests of reassembly (`dcp_collect`) and of the frames that come of it (`mod_feed`): datagrams in
//! any order, lost, repeated, damaged or hostile, call by call, and which packets are given or
//! named as lost. A run is a row of a table: what is taken, what is answered, what is given.
//!
//! It stands on these two crates, and writes its datagrams with `dcp_af` and `dcp_pft`; packets
//! with frames in them are those of `tools/standards.py`, after TS 102 820 and TS 102 821.
//!
//! Fragments by themselves are tested in `test_code`, frames by themselves in `test_formats`; whole
//! receivers by the cases of `test_cases`, and in `test_top`.
//!
//! Run it with `rt test` in the folder. Begin with `order.rt`; `runs.rt` says what a row is.
#![tactic(auto)]

#[cfg(test)]
mod datagrams;
#[cfg(test)]
mod feeds;
#[cfg(test)]
mod hostile;
#[cfg(test)]
mod losses;
#[cfg(test)]
mod order;
#[cfg(test)]
mod runs;
#[cfg(test)]
mod small_chunks;
#[cfg(test)]
mod without_code;
