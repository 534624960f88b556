//! The words of a program's command line: all arguments of the process but the first, which is the
//! program's name. If one of them isn't UTF-8 there are no words, and an empty list of words is no
//! command line.
//!
//! It is used by `drmcast` and `drmpaths`, in `main`. Of the other crates it needs `NoMemory` of
//! `drm_bits` alone.
//!
//! What the words ask for is decided by `drm_words` and `cli_paths`, how a single word is spelled
//! by `cli_syntax`.
//!
//! All of it is `given_words` (`src/words.rt`); there is no `specs/`.
#![tactic(auto)]

mod words;

pub use words::given_words;
