//! Tests of Reed-Solomon and of the fragments of DCP (TS 102 821): products and inverses of the
//! field (`gf_field`), parity and erased places of code words (`rs_erase`), how packets are cut,
//! and fragments written and read with each of their faults (`dcp_pft`). Expected values come from
//! libfec, and from `tools/standards.py` after the standard. `random_words.rt` compares the crates
//! with plain bodies by the definitions, over many words.
//!
//! It stands on the public calls of these three crates. A crate that others stand on has no tests
//! inside, since it would be proved twice.
//!
//! Reassembly is tested in `test_collector`; packets in a capture by the cases of `test_cases`.
//!
//! Run it with `rt test` in the folder. Begin with `words.rt`.
#![tactic(auto)]

#[cfg(test)]
mod elements;
#[cfg(test)]
mod fragments_read;
#[cfg(test)]
mod fragments_written;
#[cfg(test)]
mod places;
#[cfg(test)]
mod plain;
#[cfg(test)]
mod random_words;
#[cfg(test)]
mod shapes;
#[cfg(test)]
mod words;
#[cfg(test)]
mod wrong;
