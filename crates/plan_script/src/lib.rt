//! Scripts, the texts that say for the command `air` which fragments of which packets of a schedule
//! reach which modulator (feed), and in which order; what no line names is lost. `read_script`
//! reads a text for one schedule, or names its first fault: a packet or fragment that the schedule
//! doesn't have is one.
//!
//! Which packets there are, and how long, is said by `drm_timeline`; how many fragments a packet
//! has by `dcp_pft`; lines and words are cut by `text_lines`, and read by a table of rows (`plan_rows`).
//! `cmd_load` reads scripts from files, `cmd_air` delivers by them, `cmd_exercise` makes one.
//!
//! No datagram is made here, only its number: the bytes are made by `drm_server`.
//!
//! Begin with `Script` in `src/script.rt`, `TABLE` in `src/table.rt` and `read_script` in
//! `src/reading.rt`; `delivered` in `specs/Script.antt` says what a line delivers, further below
//! which faults there are.
#![tactic(auto)]

mod delivery;
mod fault;
mod feeds;
mod line;
mod packet;
mod read_line;
mod reading;
mod rules;
mod script;
mod table;

pub use delivery::Delivery;
pub use fault::ScriptFault;
pub use reading::read_script;
pub use script::Script;
