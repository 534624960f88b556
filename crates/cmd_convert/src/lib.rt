//! The command `convert`: the packets of a capture are recovered from their datagrams, and written
//! as a capture with another protection, whole or in PFT fragments (TS 102 821). Each packet that
//! is missing or bad is named on standard error.
//!
//! It builds on `capture_reader` and `recv_reading` (the packets of the input, and when enough are
//! read), `dcp_collect` (recovery), `dcp_sender` (the new fragments) and `report_text` (the lines).
//! `drm_top` calls it; `law_convert` and `law_gate` state laws of it.
//!
//! It looks into no packet beyond its AF header and check value: frames are made by `mod_feed`, and
//! shown by `cmd_show` and `cmd_receive`. The same between links is done by `drm_gate`.
//!
//! Begin with `convert` (`src/command.rt`), then what becomes of one item (`src/item.rt`).
//! `ConvertsItem` (`specs/Converting.antt`) says that of an item, `ConvertRun` (`specs/Run.antt`)
//! of a whole run.
#![tactic(auto)]

mod command;
mod item;
mod naming;
mod reading;

pub use command::convert;
