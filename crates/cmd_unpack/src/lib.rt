//! The commands `unpack` and `texts`: of one stream of a capture's frames they print the units of
//! data, or the text messages, that it carries beside the audio, and count what was cut, bad or
//! missing. Both formats are this project's own profile.
//!
//! It builds on `recv_reading` and `mod_feed` (the frames of a capture), `drm_data` (`Joiner`) and
//! `drm_text` (`TextJoiner`). `drm_top` calls it; `law_unpack` states what is printed of a
//! delivery.
//!
//! The formats are in `drm_data` and `drm_text`. Packets of data are made by `cmd_pack`, text
//! messages by no command but by `tools/messages.py`. Audio isn't decoded anywhere.
//!
//! Begin with `unpack` and `texts` (`src/commands.rt`), then `Taker` (`src/taker.rt`). `IsPrinted`
//! (`specs/Printed.antt`) says what is printed of items, `DataRun` (`specs/Run.antt`) what a run
//! does.
#![tactic(auto)]

mod commands;
mod counts;
mod lines;
mod messages;
mod reading;
mod stream;
mod taker;
mod units;

pub use commands::{texts, unpack};
