//! Tests of the formats: numbers and check values in bytes (`drm_bits`), the FAC, the SDC and the
//! multiplex description of ES 201 980 (`drm_fac`, `drm_sdc`, `drm_mux`), TAG items and AF packets
//! of TS 102 821 (`dcp_tag`, `dcp_af`), and frames of TS 102 820 (`mdi_items`). Each is read and
//! written, with each of its faults, and at its greatest size. Expected bytes were packed by
//! `tools/standards.py` after the standards, and `tools/expected.py` compares them.
//!
//! It stands on the public calls of these crates.
//!
//! Fragments and Reed-Solomon are tested in `test_code`, data and text messages in `test_data`. How
//! values are printed is tested by the cases of `test_cases`.
//!
//! Run it with `rt test` in the folder. Begin with `fast_access.rt`, then `frames.rt`.
#![tactic(auto)]

#[cfg(test)]
mod blocks_read;
#[cfg(test)]
mod blocks_written;
#[cfg(test)]
mod check_values;
#[cfg(test)]
mod descriptions;
#[cfg(test)]
mod entities;
#[cfg(test)]
mod fast_access;
#[cfg(test)]
mod frames;
#[cfg(test)]
mod greatest_blocks;
#[cfg(test)]
mod numbers;
#[cfg(test)]
mod octets;
#[cfg(test)]
mod packets;
#[cfg(test)]
mod said;
#[cfg(test)]
mod tag_items;
#[cfg(test)]
mod wrong;
