//! The words of a command line, each for itself: which words are plain and which are options, and
//! what a number, an IPv4 address with its port, a list of addresses or of stream numbers, or a
//! carry (`plain`, `pft:M:MTU`: how packets are sent) is.
//!
//! It builds on `drm_links` (`Address`), `drm_schedule` (`Carry`, `Live`) and `dcp_pft` (the ranges
//! of M and MTU). It is used by `drm_words` and `cli_paths`.
//!
//! `drm_words` (for `drmcast`) and `cli_paths` (for `drmpaths`) define which options a command has,
//! with their ranges and defaults. `plan_lines` reads the lines of a schedule. Host names and IPv6
//! addresses are read nowhere.
//!
//! Begin with `read_arguments` (`src/arguments.rt`), then `within` (`src/numbers.rt`) and `address`
//! (`src/addresses.rt`). `WordsSpell` (`specs/Spelling.antt`) says how words spell plain words and
//! options, `IsAddress` (`specs/Addresses.antt`) what an address is.
#![tactic(auto)]

mod addresses;
mod arguments;
mod carries;
mod cuts;
mod fault;
mod live;
mod numbers;
mod word;

pub use addresses::{address, read_addresses};
pub use arguments::{Arguments, read_arguments};
pub use carries::carry;
pub use fault::WordsFault;
pub use live::read_live;
pub use numbers::within;
pub use word::Named;
