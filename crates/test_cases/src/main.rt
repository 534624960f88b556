//! A program that runs cases in memory, and prints each one whose run isn't as the case says. Its
//! words are files of cases; those behind the word `--paths` are of `drmpaths`, all others of
//! `drmcast`. The files are in `data`: all commands, each fault, each limit.
//!
//! Cases are read by `test_case_files`; a case of `drmcast` is a call of `run` of `drm_top`, one of
//! `drmpaths` a call of `run_paths` of `cmd_paths`, over the forms in memory of `drm_links`.
//!
//! Files and sockets of the system aren't used here: `tools/edge.py` runs the built programs over
//! the same cases. What no case can say is tested in `test_top` and `test_paths`.
//!
//! Run it with `rt run -- $PWD/data/fac.cases` in the folder; `rt ci` runs it over all files that
//! `args` names. Begin with `differences` in `src/differences.rt`.
#![tactic(auto)]

mod differences;
mod forms;

use anyhow::{Context, Result, bail};
use differences::{Program, differences};
use std::process::ExitCode;
use std::rt::Files;
use std::sync::Wait;
use std::thread::Threads;
use std::{env, fs};
use test_case_files::{Case, Reader};

/// How many cases were run, and how many of them differ.
#[derive(Drop)]
struct CaseCounts {
    cases: u64,
    differ: u64,
}

impl CaseCounts {
    fn add<R: Print>(&mut self, rt: &R, path: &str, case: &Case, found: &str) -> Result<()> {
        self.cases = self.cases.saturating_add(1);
        if found == case.differences.as_str() {
            return Ok(());
        }
        self.differ = self.differ.saturating_add(1);
        let found = if found.is_empty() {
            "no difference"
        } else {
            found
        };
        let (line, name) = (case.line, case.name.as_str());
        println!(rt; "{path}:{line}: {name}: {found}")?;
        Ok(())
    }
}

fn main(rt: HostRuntime) -> Result<ExitCode> {
    let mut tally = CaseCounts {
        cases: 0,
        differ: 0,
    };
    let mut program = Program::Drmcast;
    for word in env::args(&rt)?.skip(1) {
        if word.as_str() == "--paths" {
            program = Program::Drmpaths;
        } else {
            try_file(&rt, program, &word, &mut tally)?;
        }
    }
    println!(rt; "{} cases, {} differ", tally.cases, tally.differ)?;
    Ok(if tally.differ == 0 {
        ExitCode::SUCCESS
    } else {
        ExitCode::FAILURE
    })
}

fn try_file<R: Files + Print + Threads + Wait + Sync + AllocGlobal>(
    rt: &R,
    program: Program,
    path: &str,
    tally: &mut CaseCounts,
) -> Result<()> {
    let text = fs::read_to_string(rt, path).context(format_args!("{path}"))?;
    let mut reader = Reader::new(rt.alloc());
    try_lines(rt, program, path, &text, &mut reader, tally)?;
    let last = reader.end().context(format_args!("{path}: its last case"))?;
    try_ended(rt, program, path, last, tally)
}

// All that lives on from line to line is lent, so that no way out of the loop has anything to drop.
fn try_lines<R: Print + Threads + Wait + Sync + AllocGlobal>(
    rt: &R,
    program: Program,
    path: &str,
    text: &str,
    reader: &mut Reader,
    tally: &mut CaseCounts,
) -> Result<()> {
    for (number, line) in text.split_terminator('\n').enumerate() {
        let ended = read_line(reader, path, number.saturating_add(1), line)?;
        try_ended(rt, program, path, ended, tally)?;
    }
    Ok(())
}

fn read_line(reader: &mut Reader, path: &str, number: usize, line: &str) -> Result<Option<Case>> {
    reader
        .read(number, line)
        .context(format_args!("{path}:{number}"))
}

// Tries the case that has ended, if one has.
fn try_ended<R: Print + Threads + Wait + Sync + AllocGlobal>(
    rt: &R,
    program: Program,
    path: &str,
    ended: Option<Case>,
    tally: &mut CaseCounts,
) -> Result<()> {
    let Some(case) = ended else {
        return Ok(());
    };
    match differences(rt, program, &case) {
        Ok(found) => tally.add(rt, path, &case, &found),
        Err(_) => bail!("{path}:{}: no memory", case.line),
    }
}
