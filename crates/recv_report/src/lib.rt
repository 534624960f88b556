//! Receivers, each of which stands for a modulator: it reads a link, or a capture, until it has
//! read enough, and writes the report of what came, a line for each frame. Several receivers of
//! links run side by side, in threads, and their reports are written one after another. The
//! contract of `receive_one` has the headline: of any delivery of a valid schedule the report has
//! the server's frames, and names each one that is missing.
//!
//! Datagrams are taken by `recv_reading`, items become frames by `mod_feed` and lines by
//! `report_text`; deliveries and their laws are those of `law_delivery`. `cmd_receive` and
//! `cmd_air` run receivers.
//!
//! No link is opened here (see `cmd_receive`), and no option is read (see `drm_words`). One report
//! over several links is made by `report_journal`.
//!
//! Begin with `receive_one` in `src/one_receiver.rt`, then `Headline` in `specs/Headline.antt`; the
//! loop is `read_all` in `src/reading.rt`.
#![tactic(auto)]

mod capture;
mod one_receiver;
mod reading;
mod reading_laws;
mod receiver;
mod report_laws;
mod settling;
mod stop;

pub use capture::{CaptureReportError, receive_capture};
pub use one_receiver::{Ended, Options, receive_one};
pub use reading_laws::{one_reading_of_a_link, one_report};
pub use receiver::{Receiver, Seat, receiver_for, run_all, run_live, seat_for, seated};
pub use report_laws::{in_time_is_unbroken, laws_of_deliveries, reports_follow};
pub use settling::settle;
pub use stop::ReceiveError;
