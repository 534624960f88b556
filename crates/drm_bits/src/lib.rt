//! Bits and bytes under all formats: numbers of up to 64 bits taken from and put into byte lists,
//! the greatest bit first; the check values of ES 201 980 and TS 102 821; the multiplex
//! description, which the SDC and MDI share; byte lists with an owner.
//!
//! It builds on no other crate, and all formats build on it: `drm_fac`, `drm_sdc`, `drm_mux`,
//! `dcp_tag`, `dcp_af`, `dcp_pft`.
//!
//! The multiplex description is a value and its bits here, an SDC entity in `drm_sdc`, and the
//! value of an `sdci` item in `drm_mux`, where the multiplex frame is too. Lists of other values
//! than bytes are in `drm_lists`, the arithmetic of Reed-Solomon in `gf_field`.
//!
//! Begin with `Bits` (`src/bits.rt`), `BitSink` (`src/bit_sink.rt`) and `crc16` (`src/crc.rt`).
//! `AreFields` (`specs/Fields.antt`) is what a table of fields means, in which the formats are
//! defined; `IsCheck` (`specs/Crc.antt`) is a check value, by polynomials. `digits_and_numbers`
//! does nothing: its clause is a law.
#![tactic(auto)]

mod bit_sink;
mod bits;
mod bytes;
mod compared;
mod crc;
mod crc_run;
mod description;
mod fields;
mod laws;
mod octets;
mod remainders;

pub use bit_sink::BitSink;
pub use bits::{Bits, Short};
pub use bytes::{put_at, zeros};
pub use compared::{WrongCheck, compare_crc16};
pub use crc::{crc8, crc16};
pub use crc_run::CrcRun;
pub use description::{MuxDesc, Part};
pub use laws::digits_and_numbers;
pub use octets::{NoMemory, Octets};
