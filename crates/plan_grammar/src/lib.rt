//! The grammar of a schedule's text: a table of its lines (`TABLE`), a row for each form of a line,
//! and what the values of a line say (`Line`).
//!
//! What a word of a row may be, and how rows are read and written, is in `plan_rows`. The values that
//! a line gives (carry, service, stream, SDC entity) are those of `drm_schedule`. `plan_lines` reads
//! lines by this grammar, `plan_writer` writes them, `plan_rules` says which may stand together.
//!
//! No line is read here: that is `read_line` of `plan_lines`. Where a line may stand is said by
//! `plan_rules`. Scripts have a table of their own, in `plan_script`.
//!
//! Begin with `TABLE` in `src/table.rt` and `Line` in `src/line.rt`; `specs/Says.antt` has what the
//! values of a line say (`says`) and the values of what is said (`values_of`), and `lines_are_said_again`
//! in `src/laws.rt` is the law that both agree.
#![tactic(auto)]

mod fault;
mod laws;
mod line;
mod table;
mod version;

pub use fault::LineFault;
pub use laws::lines_are_said_again;
pub use line::Line;
pub use plan_rows::Keyword;
pub use table::TABLE;
pub use version::Version;
