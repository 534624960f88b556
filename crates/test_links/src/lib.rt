//! Tests of the outside: the forms in memory of `drm_links` through their traits (sources, sinks,
//! shelves, links, docks), with each call that can be made to fail; and of `drm_adapt`, which has
//! the files, streams and UDP sockets of the system under the same traits. What the forms in memory
//! have to answer follows by hand from what they were made with; sockets are tested over the
//! loopback.
//!
//! It stands on these two crates. `calls.rt` has what the others share.
//!
//! Whole commands over sockets are tested in `test_top`, and by `tools/edge.py` over the built
//! programs.
//!
//! Run it with `rt test` in the folder. Begin with `links.rt`, then `sockets.rt`.
#![tactic(auto)]

#[cfg(test)]
mod calls;
#[cfg(test)]
mod docks;
#[cfg(test)]
mod files;
#[cfg(test)]
mod forms;
#[cfg(test)]
mod groups;
#[cfg(test)]
mod links;
#[cfg(test)]
mod sockets;
#[cfg(test)]
mod streams;
