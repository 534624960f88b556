//! The command `pack`: units (files, messages), each written as its length in four bytes and its
//! bytes, are read from standard input and become packets of data: a file that a stream of a
//! schedule can take its bytes from. Both formats are this project's own profile.
//!
//! It builds on `drm_data` (`Packer`, which makes the packets), `cmd_input` (the input, read whole)
//! and `cmd_faults`. `drm_top` calls it.
//!
//! The packets are joined again by `cmd_unpack`, and their format is in `drm_data`. A schedule says
//! into which stream they go (`drm_schedule`).
//!
//! Begin with `pack` (`src/pack_command.rt`) and the reading of units (`src/units.rt`). `AreUnits`
//! (`specs/Units.antt`) says what an input of units is, `PackRun` (`specs/Pack.antt`) what a run
//! does.
#![tactic(auto)]

mod pack_command;
mod packing;
mod units;

pub use pack_command::pack;
