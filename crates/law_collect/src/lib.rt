//! Laws of reassembly (TS 102 821): what a collector gives is what the delivery of its datagrams
//! calls for, whatever was lost, repeated or overtaken. A delivery is any datagrams of sent
//! packets, in any order; it calls for each packet of which enough fragments came before it was
//! closed, and has each other one as lost. Each function of `src/laws.rt` has an empty body: its
//! clause is the law, and nothing runs. `collecting` is the main law, `in_time` says which packets
//! are given.
//!
//! The collector and its runs are those of `dcp_collect`. `law_delivery` and the laws above it call
//! these; `recv_reading`, `report_journal` and `drm_gate` use the definitions.
//!
//! Frames and schedules aren't here but in `law_delivery`, the collector itself is in
//! `dcp_collect`.
//!
//! Begin with `items` in `specs/Delivery.antt`, then `Collecting` in `specs/Laws.antt`.
#![tactic(auto)]

mod laws;

pub use laws::{
    collecting, few_at_once, giving_ends, in_time, one_giving, one_nearest, one_reading, one_run,
    reaching_all, refusing, steps_count, steps_join, steps_part,
};
