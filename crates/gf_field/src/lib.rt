//! The field of 256 elements over which the Reed-Solomon code of DCP is made (TS 102 821): an
//! element is a polynomial over bits of degree below 8, and products are taken modulo x^8 + x^4 +
//! x^3 + x^2 + 1. One element is a `Gf`; `scaled` and `mul_lanes` multiply sixteen at once in a
//! vector.
//!
//! It stands on no other crate. `rs_erase` makes the code of it.
//!
//! No code word, parity or erasure is here: of one code word they are in `rs_erase`, of the chunks
//! of a packet in `dcp_pft`.
//!
//! Begin with `Gf` in `src/element.rt`. `specs/Field.antt` says what a product is (`IsProduct`,
//! `times`). The functions of `src/laws.rt` have empty bodies: their clauses state that this is a
//! field (`specs/Laws.antt`) and what its tables hold, and nothing runs.
#![tactic(auto)]

mod element;
mod inverses;
mod lanes;
mod laws;
mod logarithms;
mod nibbles;
mod quotients;
mod tables;

pub use element::Gf;
pub use lanes::{mul_lanes, scaled};
pub use laws::{field_laws, logarithm_table, power_laws, power_table, product_is_remainder};
pub use logarithms::{LOGS, POWERS};
