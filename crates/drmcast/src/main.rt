//! The program `drmcast`: carries a Digital Radio Mondiale multiplex (ES 201 980) from a content
//! server to its modulators, as MDI (TS 102 820) in DCP (TS 102 821), over UDP or in captures. This
//! is its `main`: it runs the command of its words over the standard streams, the files of the
//! system, and UDP.
//!
//! It builds on `drm_top` (`run`, the contract of all commands), `drm_adapt` (the system's files,
//! streams and sockets), `cli_notices` (what is said of them on standard error), `cli_program` (the
//! words) and `cli_mistakes` (what is wrong with words that are refused).
//!
//! What a command does is in the crates `cmd_`, how its words are read in `drm_words`. Several
//! networks received as one are another program, `drmpaths`.
//!
//! Begin with `run` of `drm_top` (`src/command.rt` there); then `docs/ARCHITECTURE.md`. The files
//! `args`, `stdin` and `stdout` are an example run.

#![tactic(auto)]

use cli_mistakes::words_mistake;
use cli_notices::Edge;
use cli_program::given_words;
use drm_adapt::{FileShelf, StreamSink, StreamSource, UdpDock};
use drm_links::{Dock, Link, Shelf, Sink, Source};
use drm_top::{no_memory, run};
use std::alloc::Global;
use std::env;
use std::io::Eprint;
use std::process::ExitCode;
use std::thread::Threads;

/// The status where the words are no command line.
const WORDS: u8 = 2;

fn main(rt: HostRuntime) -> ExitCode {
    let alloc = rt.alloc();
    let edge = Edge::new(&rt, alloc, "drmcast");
    let mut input = StreamSource::new(&rt, rt.stdin());
    let mut out = StreamSink::new(&rt, rt.stdout());
    let mut err = StreamSink::new(&rt, rt.stderr());
    let words = given_words(alloc, env::args(&rt));
    let mut shelf = FileShelf::new(&edge);
    let mut dock = UdpDock::new(&edge);
    let code = match &words {
        Ok(words) => status_of(
            &rt, alloc, words, &mut shelf, &mut input, &mut out, &mut err, &mut dock,
        ),
        Err(_) => no_memory(&mut err).code,
    };
    if let Ok(words) = &words {
        say_mistake(&edge, alloc, words, code);
    }
    dock.say_faults();
    shelf.say_fault();
    edge.say_fault("standard input", input.fault());
    edge.say_fault("standard output", out.fault());
    ExitCode::from(code)
}

// The status of a run. What is said afterwards rests on nothing that `run` promises, so its clauses end here.
fn status_of<R: Threads + Sync, S: Shelf, I: Source, O: Sink, E: Sink, D: Dock>(
    rt: &R,
    alloc: Global,
    words: &[String],
    shelf: &mut S,
    input: &mut I,
    out: &mut O,
    err: &mut E,
    dock: &mut D,
) -> u8
where
    D::L: Link + Send,
{
    run(rt, alloc, words, shelf, input, out, err, dock).code
}

// Which word is wrong, and what could stand there.
fn say_mistake<R: Eprint>(edge: &Edge<'_, R>, alloc: Global, words: &[String], code: u8) {
    if code != WORDS {
        return;
    }
    if let Some(mistake) = words_mistake(alloc, words) {
        edge.say_about(mistake.word.unwrap_or("no words"), mistake.expected);
    }
}
