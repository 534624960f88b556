//! Schedules for tests, read from texts: `SMALL` has one super frame, `SWITCHING` nine with a
//! reconfiguration at the sixth. `schedule` reads such a text with some of its lines changed, so a
//! test states only the lines that it is about.
//!
//! Texts are read by `drm_plan`. `test_schedule` and `test_top` use it.
//!
//! It has no tests of its own, and files of streams have no bytes here. Schedules of cases stand in
//! `crates/test_cases/data`, those to look at in `examples`.
//!
//! Begin with `SMALL` and `schedule`, both in this file.
#![tactic(auto)]

use drm_plan::{PlanFault, Schedule, read_plan};
use std::alloc::{AllocError, Global};

/// One super frame: an audio service in a stream of four bytes, which are filled with 55.
pub const SMALL: &str = "\
    drmplan 1\n\
    carry pft 2 1400\n\
    first 0 0\n\
    length 1\n\
    config 0 0\n\
    mode B\n\
    occupancy 3\n\
    depth long\n\
    msc 0\n\
    sdc 0\n\
    protection 0 1\n\
    room 9\n\
    service 123456 0 0 5 audio 3 0\n\
    stream 0 4 fill 55\n\
    audio 0 0 0 1 0 3 0 0 0\n";

/// Nine super frames, of which the last two before the sixth announce what begins there: the other depth, and a stream
/// that is filled with 66.
pub const SWITCHING: &str = "\
    drmplan 1\n\
    carry pft 2 1400\n\
    first 0 0\n\
    length 9\n\
    config 0 0\n\
    mode B\n\
    occupancy 3\n\
    depth long\n\
    msc 0\n\
    sdc 0\n\
    protection 0 1\n\
    room 24\n\
    service 123456 0 0 5 audio 3 0\n\
    stream 0 4 fill 55\n\
    audio 0 0 0 1 0 3 0 0 0\n\
    config 5 2\n\
    mode B\n\
    occupancy 3\n\
    depth short\n\
    msc 0\n\
    sdc 0\n\
    protection 0 1\n\
    room 24\n\
    service 123456 0 0 5 audio 3 0\n\
    stream 0 4 fill 66\n\
    audio 0 0 0 1 0 3 0 0 0\n";

/// What stands for a line, from 1: other lines, or nothing.
pub type Edit<'a> = (usize, &'a str);

fn edit_of<'a>(number: usize, edits: &[Edit<'a>]) -> Option<&'a str> {
    for (at, other) in edits {
        if *at == number {
            return Some(other);
        }
    }
    None
}

// Writes lines behind the others, unless they are empty.
fn push_lines(text: &mut String, lines: &str) -> Result<(), AllocError> {
    if !lines.is_empty() {
        text.push_str(lines)?;
        text.push('\n')?;
    }
    Ok(())
}

/// The text with these edits.
pub fn edited(alloc: Global, text: &str, edits: &[Edit<'_>]) -> Result<String, AllocError> {
    let mut edited = String::new(alloc);
    for (k, line) in text.split('\n').enumerate() {
        match edit_of(k.saturating_add(1), edits) {
            Some(lines) => push_lines(&mut edited, lines)?,
            None => push_lines(&mut edited, line)?,
        }
    }
    Ok(edited)
}

/// The schedule of the text with these edits, whose files have no bytes.
pub fn schedule(alloc: Global, text: &str, edits: &[Edit<'_>]) -> Result<Schedule, PlanFault> {
    let text = edited(alloc, text, edits)?;
    read_plan(alloc, text.as_bytes())?.valid()
}
