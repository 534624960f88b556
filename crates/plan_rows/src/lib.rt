//! Lines of a text as rows of a table. A table is a list of fields; a row of it has the keyword that begins the line, the versions of
//! the text in which it stands, and for each word behind the keyword what that word may be (`LineField`).
//! Reading the words of a line into values, each refusal of a line, and writing values as a line
//! are one function each over any table; that what is written is read again is one law.
//!
//! Words are cut by `text_lines`. The table of a schedule's lines, and what the values of a line say
//! (a service, an entity), are in `plan_grammar`, those of a script in `plan_script`; nothing of it is
//! known here but the keywords of both.
//!
//! Begin with `LineField` in `src/field.rt`. `specs/Fields.antt` says what a field asks of its word, what
//! the word spells, and how a value is written; `specs/Tables.antt` which row of a table is meant. A
//! new kind of field is a case in each definition of `specs/Fields.antt` and of `specs/Law.antt`.
#![tactic(auto)]

mod choice;
mod fault;
mod field;
mod frequencies;
mod keyword;
mod laws;
mod read;
mod read_field;
mod rows;
mod value;
mod write;
mod write_field;

pub use choice::Choice;
pub use fault::{RowFault, Wrong};
pub use field::LineField;
pub use keyword::Keyword;
pub use laws::{lines_are_read_again, lines_give_rows};
pub use read::read_line;
pub use rows::keyword_in;
pub use value::{
    LineValue, byte_at, bytes_at, flag_at, frequencies_at, number_at, optional_byte_at, short_at,
};
pub use write::write_line;
