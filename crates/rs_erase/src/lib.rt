//! The Reed-Solomon code of DCP (TS 102 821): code words of 255 bytes, of which the last 48 are
//! parity. `encode` makes the parity of a chunk of at most 207 bytes; `solve` fills up to 48 erased
//! places of a word, if a code word agrees with it at all others. A
//! `SpacedPattern` is erased places that are prepared for many words.
//!
//! It stands on `gf_field`, for the field. `dcp_pft` takes the parity of a packet's chunks from it,
//! `rs_patterns` fills their erased bytes with it.
//!
//! Only erasures are filled: no wrong byte at an unknown place is corrected. Packets, chunks and
//! fragments aren't here but in `dcp_pft` and `rs_patterns`.
//!
//! Begin with `encode` in `src/parity.rt` and `solve` in `src/places.rt`; `IsCodeWord` in
//! `specs/Code.antt` is the definition. The functions of `src/laws.rt` have empty bodies: their
//! clauses are laws of the code, and nothing runs.
#![tactic(auto)]

mod equations;
mod fault;
mod first_remainders;
mod laws;
mod multiples;
mod multiples_51;
mod multiples_55;
mod multiples_59;
mod multiples_63;
mod parity;
mod places;
mod root_powers;
mod roots;
mod row;
mod runs;
mod short_chunks;
mod spaced;
mod spacing;
mod zech_logarithms;
mod zech_sums;

pub use fault::SolveFault;
pub use laws::{code_word_or_none, code_words_have_the_roots, one_code_word, one_parity};
pub use parity::encode;
pub use places::solve;
pub use roots::syndromes;
pub use short_chunks::find_chunk;
pub use spaced::{SpacedPattern, solve_spaced};
pub use spacing::Spacing;
