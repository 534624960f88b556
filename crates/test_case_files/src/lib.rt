//! The reader of files of cases. A case is one run of `drmcast` or `drmpaths` as data: what is
//! handed in (words, files, input, links, and which of their calls fail), and all that has to come
//! out of it: the status, the output, and what is sent. `docs/CASES.md` has the lines of such a
//! file.
//!
//! Calls that fail are numbered as those of the forms in memory of `drm_links`. `test_cases` runs
//! what is read here; `tools/edge.py` reads the same files on its own.
//!
//! Nothing is run or compared here: see `test_cases`, which also has the files, in `data`. It has
//! no tests of its own.
//!
//! Begin with `Case` in `src/case.rt` and `Reader` in `src/reader.rt`.
#![tactic(auto)]

mod case;
mod keyword;
mod pieces;
mod reader;
mod words;

pub use case::{Case, InputCase, LinkCase, NamedFile, OutputCase, SentCase};
pub use reader::Reader;
