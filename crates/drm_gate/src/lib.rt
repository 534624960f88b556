//! A gateway: the packets of one link are recovered, and each is sent over other links under
//! another carry as soon as it is given. The next link starts with its full protection.
//!
//! It builds on `dcp_collect` (recovery), `recv_reading` (what is counted of a reading, and when it
//! ends), `dcp_sender` (the packets, sent) and `drm_links` (`Group`: links with one history; `Link`).
//! `cmd_gate` calls it; `law_gate` states what arrives behind one gateway, or two.
//!
//! It opens no links and prints nothing (`cmd_gate`), and looks into no packet beyond its AF header
//! and check value. The same for captures is `cmd_convert`.
//!
//! Begin with `Gate`, `pass_over_group` and `gate_one` (`src/gate.rt`), then what becomes of one item
//! (`src/item.rt`). `OutcomeOf` (`specs/Passing.antt`) says that, `RelaysPackets` (`specs/Relaying.antt`) what is
//! heard and sent, in one order, `GateRun` (`specs/Run.antt`) how a run ends, `LinksTell` (`specs/Apart.antt`) what
//! links tell that are lent apart, `Tally` (`src/tally.rt`) what is counted, and `each_link` (`src/laws.rt`)
//! what each link gets.
#![tactic(auto)]

mod apart;
mod gate;
mod item;
mod laws;
mod reading;
mod relay;
mod tally;

pub use gate::{Gate, GateEnded, GateOptions, gate_one, pass_over_group};
pub use laws::each_link;
pub use tally::Tally;
