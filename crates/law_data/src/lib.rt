//! Laws of packets of data (a profile of this project's own): of any packets and gaps a joiner
//! gives exactly the units (files, messages) that are in them (`joins_units`), and of the packets
//! of units with losses exactly those units that came whole (`gives_what_is_whole`). Each function
//! of `src/laws.rt` has an empty body: its clause is the law, and nothing runs.
//!
//! Packets and the joiner are those of `drm_data`. `cmd_pack`, `cmd_unpack` and `law_unpack` use
//! the definitions.
//!
//! What `unpack` prints isn't here: its text is in `cmd_unpack`, its laws are in `law_unpack`. Text
//! messages have `law_text`.
//!
//! Begin with `EndsUnit` in `specs/Readings.antt`, which says what a unit in a reading is without
//! any joiner, then `JoinsUnits` and `GivesWhatIsWhole` in `specs/Laws.antt`.
#![tactic(auto)]

mod laws;

pub use laws::{
    answers_each, gives_what_is_whole, joins_units, knows_open, one_event, some_event,
    tells_each_once, written_is_read,
};
