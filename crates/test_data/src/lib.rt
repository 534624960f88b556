//! Tests of packets of data (`drm_data`) and of text messages (`drm_text`): packets read, with each
//! fault, and written; units made into packets, and packets with gaps joined; messages cut into
//! pieces of four bytes, and pieces joined. Expected bytes are those of
//! `tools/standards.py`.
//!
//! It stands on the public calls of these two crates alone.
//!
//! The commands `pack`, `unpack` and `texts` are tested by the cases of `test_cases`. That a joiner
//! gives exactly what is in a reading is proved in `law_data` and `law_text`.
//!
//! Run it with `rt test` in the folder. Begin with `packets.rt`, then `joining.rt`.
#![tactic(auto)]

#[cfg(test)]
mod joining;
#[cfg(test)]
mod packets;
#[cfg(test)]
mod texts;
#[cfg(test)]
mod wrong;
