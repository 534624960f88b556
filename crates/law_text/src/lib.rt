//! Laws of text messages (a profile of this project's own): of any pieces and gaps a joiner gives
//! exactly the messages that are in them (`joins_messages`), and of the pieces of messages with
//! losses exactly the messages that came whole (`gives_what_is_whole`). Each function of
//! `src/laws.rt` has an empty body: its clause is the law, and nothing runs.
//!
//! Pieces, segments and the joiner are those of `drm_text`. `cmd_unpack` uses the definitions, and
//! `law_unpack` calls the laws for what `texts` prints of a delivery.
//!
//! No bytes of a stream are here: which four bytes of a frame are a piece is said in `cmd_unpack`.
//! Packets of data have `law_data`.
//!
//! Begin with `EndsMessage` in `specs/Readings.antt`, which says what a message in a reading is
//! without any joiner, then `JoinsMessages` in `specs/Laws.antt`.
#![tactic(auto)]

mod laws;

pub use laws::{answers_each, gives_what_is_whole, joins_messages, one_list, runs_by_calls};
