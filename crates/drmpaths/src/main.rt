//! The program `drmpaths`: receives one schedule at two to four addresses, over different networks,
//! and prints one report of all that arrived, so that a frame which one network loses may come over
//! another. This is its `main`: it runs the paths of its words over UDP and the standard streams.
//!
//! It builds on `cmd_paths` (`run_paths`, the contract of the whole run), `drm_adapt` (the system's
//! streams and sockets) and `cli_program` (the words).
//!
//! How paths hand datagrams to one book is in `drm_paths`, the report of the book in
//! `report_journal`, the options in `cli_paths`. All other commands are those of `drmcast`.
//!
//! Begin with `run_paths` of `cmd_paths` (`src/command.rt` there). The files `args`, `stdin` and
//! `stdout` are an example run.

#![tactic(auto)]

use cli_mistakes::paths_mistake;
use cli_notices::Edge;
use cli_program::given_words;
use cmd_paths::{no_memory, run_paths};
use drm_adapt::{StreamSink, UdpDock};
use drm_links::{Dock, Link, Sink};
use std::alloc::Global;
use std::env;
use std::io::Eprint;
use std::process::ExitCode;
use std::sync::Wait;
use std::thread::Threads;

/// The status where the words are no command line.
const WORDS: u8 = 2;

fn main(rt: HostRuntime) -> ExitCode {
    let alloc = rt.alloc();
    let edge = Edge::new(&rt, alloc, "drmpaths");
    let mut out = StreamSink::new(&rt, rt.stdout());
    let mut err = StreamSink::new(&rt, rt.stderr());
    let words = given_words(alloc, env::args(&rt));
    let mut dock = UdpDock::new(&edge);
    let code = match &words {
        Ok(words) => status_of(&rt, alloc, words, &mut out, &mut err, &mut dock),
        Err(_) => no_memory(&mut err).code,
    };
    if let Ok(words) = &words {
        say_mistake(&edge, alloc, words, code);
    }
    dock.say_faults();
    edge.say_fault("standard output", out.fault());
    ExitCode::from(code)
}

// The status of a run. What is said afterwards rests on nothing that `run_paths` promises, so its clauses end here.
fn status_of<R: Threads + Wait + Sync, O: Sink, E: Sink, D: Dock>(
    rt: &R,
    alloc: Global,
    words: &[String],
    out: &mut O,
    err: &mut E,
    dock: &mut D,
) -> u8
where
    D::L: Link + Send,
{
    run_paths(rt, alloc, words, out, err, dock).code
}

// Which word is wrong, and what could stand there.
fn say_mistake<R: Eprint>(edge: &Edge<'_, R>, alloc: Global, words: &[String], code: u8) {
    if code != WORDS {
        return;
    }
    if let Some(mistake) = paths_mistake(alloc, words) {
        edge.say_about(mistake.word.unwrap_or("no words"), mistake.expected);
    }
}
