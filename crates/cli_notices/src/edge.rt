//! What a program says to a person, beside what `run` writes.

use crate::names::readable;
use crate::sends::Acceptance;
use jiff_core::civil::DateTime;
use jiff_core::{Offset, Timestamp};
use std::alloc::Global;
use std::fmt::Display;
use std::io::{self, Eprint};
use std::net::SocketAddr;
use std::sync::atomic::{AtomicU64, Ordering};
use std::time::SystemTime;

/// What std puts between the system's words for a fault and its number.
const BEFORE_NUMBER: &str = " (os error ";

/// The system under the links and files of a program, and the program's name, with which its lines on standard error begin.
/// Nothing of these lines is in a contract. A line for which memory is lacking, or that standard error doesn't take, is lost.
#[derive(Drop)]
pub struct Edge<'a, R> {
    system: &'a R,
    alloc: Global,
    program: &'a str,
    /// How many addresses were reached, for each link to see.
    reached: AtomicU64,
}

impl<'a, R> Edge<'a, R> {
    /// The edge of the program with this name.
    pub fn new(system: &'a R, alloc: Global, program: &'a str) -> Self {
        Edge {
            system,
            alloc,
            program,
            reached: AtomicU64::new(0),
        }
    }

    /// The system under the links and files.
    pub fn system(&self) -> &'a R {
        self.system
    }

    pub fn alloc(&self) -> Global {
        self.alloc
    }

    /// Takes note that a link to one more address is opened.
    pub fn reaches_one_more(&self) {
        self.reached.fetch_add(1, Ordering::SeqCst);
    }

    /// Whether links to several addresses were opened, which aren't to wait for one another.
    pub fn has_several(&self) -> bool {
        self.reached.load(Ordering::SeqCst) > 1
    }
}

impl<R: Eprint> Edge<'_, R> {
    /// Writes a line about a file or a word, whose control characters are written so that they can be read.
    pub fn say_about<T: Display + Drop>(&self, name: &str, text: T) {
        if let Ok(name) = readable(self.alloc, name) {
            self.say(name, text);
        }
    }

    /// Writes why a call failed that had to do with a file.
    pub fn say_fault_of(&self, name: &str, fault: io::Error) {
        if let Ok(reason) = self.reason(fault) {
            self.say_about(name, reason);
        }
    }

    // Writes a line about an address, a file or a stream.
    fn say<S: Display + Drop, T: Display + Drop>(&self, subject: S, text: T) {
        let program = self.program;
        let _ = self
            .system
            .eprintln(format_args!("{program}: {subject}: {text}"));
    }

    /// Writes why a call failed, if it did: the system's words, and its number where it has one.
    pub fn say_fault<S: Display + Drop>(&self, subject: S, fault: Option<io::Error>) {
        if let Some(fault) = fault
            && let Ok(reason) = self.reason(fault)
        {
            self.say(subject, reason);
        }
    }

    /// Writes how the sends to an address stand, of which so many datagrams are lost.
    pub fn say_acceptance(&self, dest: SocketAddr, acceptance: Acceptance, lost: u64) {
        match acceptance {
            Acceptance::Accepted => {
                self.say(dest, format_args!("accepted again, {lost} datagrams lost"));
            }
            Acceptance::Refused { since, reason } => {
                if let Ok(reason) = self.reason(reason) {
                    self.say_refused(dest, since, &reason);
                }
            }
        }
    }

    fn say_refused(&self, dest: SocketAddr, since: Option<SystemTime>, reason: &str) {
        let Some(DateTime { date, time }) = since.and_then(in_utc) else {
            self.say(dest, format_args!("refused: {reason}"));
            return;
        };
        let (year, month, day) = (date.year, date.month, date.day);
        let (hour, minute, second) = (time.hour, time.minute, time.second);
        self.say(
            dest,
            format_args!(
                "refused since {year:04}-{month:02}-{day:02}T{hour:02}:{minute:02}:{second:02}Z: {reason}"
            ),
        );
    }

    // The system's words for a fault, and its number where it has one.
    fn reason(&self, fault: io::Error) -> io::Result<String> {
        let text = format!(in self.alloc; "{fault}")?;
        match fault.raw_os_error() {
            Some(number) => {
                let words = before_number(&text);
                Ok(format!(in self.alloc; "{words} ({number})")?)
            }
            None => Ok(text),
        }
    }
}

// A moment from 1970 on, in UTC.
fn in_utc(moment: SystemTime) -> Option<DateTime> {
    let passed = moment.duration_since(SystemTime::UNIX_EPOCH).ok()?;
    let nanoseconds = i128::from(passed.as_secs()) * 1_000_000_000;
    let instant = Timestamp::from_nanosecond(nanoseconds).ok()?;
    Some(Offset::UTC.to_datetime(instant))
}

fn before_number(text: &str) -> &str {
    match text.split_once(BEFORE_NUMBER) {
        Some((words, _)) => words,
        None => text,
    }
}
