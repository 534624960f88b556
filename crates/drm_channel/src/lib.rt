//! What a channel carries (ES 201 980): the cells that a robustness mode with a spectrum occupancy
//! has for the Main Service Channel (MSC) and for a block of the Service Description Channel (SDC),
//! the code rates, how many cells part A takes, and how many bytes are left for part B and fit into
//! a block. What a configuration asks for and what there is for it are one value, `Usage`.
//!
//! It builds on `drm_fac` (the robustness mode). `cmd_capacity` prints what it says of the
//! configurations of a schedule.
//!
//! It knows of no schedule, and no byte of a stream: it is arithmetic over types of its own.
//! Hierarchical modulation isn't in it, nor mode E.
//!
//! Begin with `Setup` and `Usage` (`src/setup.rt`, `src/usage.rt`). `msc_cells` and `sdc_cells`
//! (`specs/Cells.antt`) are the table of cells, and `counted_msc` and `counted_sdc`
//! (`specs/Structure.antt`) count the cells of the signal's symbols and carriers; that they are the
//! same is `cells_are_counted`, which does nothing. `rates_of` (`specs/Rates.antt`) are the code
//! rates, and `usage_of` (`specs/Usage.antt`) is what a configuration uses.
#![tactic(auto)]

mod coding;
mod laws;
mod sdc;
mod setup;
mod signal;
mod usage;

pub use coding::{Constellation, MscCoding, Protection};
pub use laws::cells_are_counted;
pub use sdc::{SdcMode, sdc_bytes};
pub use setup::{PartSetup, Setup};
pub use signal::{Occupancy, Signal, WideOccupancy};
pub use usage::Usage;
