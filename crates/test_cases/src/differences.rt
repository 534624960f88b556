//! Runs a case, and compares.

use crate::forms::MemOutside;
use cmd_paths::run_paths;
use drm_bits::NoMemory;
use drm_links::{MemDock, MemLink};
use drm_top::run;
use std::alloc::{AllocError, Global};
use std::fmt::Display;
use std::sync::Wait;
use std::thread::Threads;
use test_case_files::{Case, SentCase};

/// The program whose run a case is of.
#[derive(Clone, Copy)]
pub enum Program {
    Drmcast,
    Drmpaths,
}

/// What of a run differs from what the case says: nothing, or texts with commas between.
pub fn differences<R: Threads + Wait + Sync + AllocGlobal>(
    rt: &R,
    program: Program,
    case: &Case,
) -> Result<String, NoMemory> {
    let alloc = rt.alloc();
    let mut outside = MemOutside::make(alloc, case)?;
    let code = match program {
        Program::Drmcast => run_drmcast(rt, alloc, &case.words, &mut outside),
        Program::Drmpaths => run_drmpaths(rt, alloc, &case.words, &mut outside),
    };
    let mut found = String::new(alloc);
    compare_output(&mut found, case, code, &outside)?;
    compare_links(&mut found, &outside.dock, case, receives(program, case))?;
    Ok(found)
}

// What is compared says nothing of the run: so these calls have no clauses, and hand on only the status.
fn run_drmcast<R: Threads + Sync>(
    rt: &R,
    alloc: Global,
    words: &[String],
    outside: &mut MemOutside,
) -> u8 {
    run(
        rt,
        alloc,
        words,
        &mut outside.shelf,
        &mut outside.input,
        &mut outside.out,
        &mut outside.err,
        &mut outside.dock,
    )
    .code
}

fn run_drmpaths<R: Threads + Wait + Sync>(
    rt: &R,
    alloc: Global,
    words: &[String],
    outside: &mut MemOutside,
) -> u8 {
    run_paths(
        rt,
        alloc,
        words,
        &mut outside.out,
        &mut outside.err,
        &mut outside.dock,
    )
    .code
}

fn compare_output(
    found: &mut String,
    case: &Case,
    code: u8,
    outside: &MemOutside,
) -> Result<(), AllocError> {
    let (out, err) = (outside.out.bytes(), outside.err.bytes());
    if case.status != Some(code) {
        note(found, format_args!("status {code}"))?;
    }
    if !(case.is_prefix && case.out.wanted.starts_with(out)) {
        compare(found, "out", out, &case.out.wanted)?;
    }
    compare(found, "err", err, &case.err.wanted)
}

fn note(found: &mut String, what: impl Display + Drop) -> Result<(), AllocError> {
    if !found.is_empty() {
        found.push_str(", ")?;
    }
    write!(found, "{what}")
}

fn compare(found: &mut String, name: &str, got: &[u8], wanted: &[u8]) -> Result<(), AllocError> {
    if got == wanted {
        return Ok(());
    }
    let same = got.iter().zip(wanted).take_while(|(a, b)| a == b).count();
    note(found, format_args!("{name} from byte {same}"))
}

// Whether the links of this case are there to be read.
fn receives(program: Program, case: &Case) -> bool {
    match program {
        Program::Drmcast => case.words.first().is_some_and(|word| word.as_str() == "receive"
            || word.as_str() == "count"),
        Program::Drmpaths => true,
    }
}

// A link that the case doesn't name as one that has sent isn't to be closed. Those that are read may be, with nothing sent.
fn compare_links(
    found: &mut String,
    dock: &MemDock,
    case: &Case,
    are_read: bool,
) -> Result<(), AllocError> {
    for sent in &case.sent {
        compare_sent(found, dock, sent)?;
    }
    for link in &case.links {
        if let Some(closed) = dock.closed(link.at)
            && case.sent.iter().all(|sent| sent.at != link.at)
            && !(are_read && closed.sent(0).is_none())
        {
            note(found, "a link was closed")?;
        }
    }
    Ok(())
}

fn compare_sent(found: &mut String, dock: &MemDock, sent: &SentCase) -> Result<(), AllocError> {
    let Some(link) = dock.closed(sent.at) else {
        return note(found, "no link was closed");
    };
    for (k, datagram) in sent.datagrams.iter().enumerate() {
        if !has_sent(link, k, datagram) {
            return note(found, format_args!("sent from datagram {k}"));
        }
    }
    let count = sent.datagrams.len();
    if link.sent(count).is_some() {
        return note(found, format_args!("sent more than {count}"));
    }
    Ok(())
}

fn has_sent(link: &MemLink, k: usize, datagram: &[u8]) -> bool {
    match link.sent(k) {
        Some(sent) => sent == datagram,
        None => false,
    }
}
