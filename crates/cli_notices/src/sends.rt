//! Which refusals of the system are lost datagrams and which are faults, and when a person is told of them.

use std::io::{self, ErrorKind};
use std::time::{Clock, Duration, Instant, SystemTime};

/// Linux: the datagram is longer than the socket can send.
const TOO_LONG: i32 = 90;

/// A line about a link comes so long behind the one before it, or later.
const SECONDS_BETWEEN_LINES: u64 = 10;

/// How the sends of a link stand.
#[derive(Clone, Copy, Drop)]
pub enum Acceptance {
    /// The last one was taken, or none was made.
    Accepted,
    /// The last one wasn't.
    Refused {
        /// When the first one of these wasn't; None if the clock couldn't be read.
        since: Option<SystemTime>,
        reason: io::Error,
    },
}

/// How the sends of a link have gone, and what a person was told.
#[derive(Clone, Copy, Drop)]
pub struct Sends {
    acceptance: Acceptance,
    /// Whether one has succeeded.
    has_succeeded: bool,
    /// Datagrams that were refused since the last line that said that they are accepted.
    lost: u64,
    /// Whether it stands otherwise than the last line said, or did so since.
    is_news: bool,
    /// When the last line was written.
    told: Option<Instant>,
}

impl Sends {
    pub fn new() -> Self {
        Sends {
            acceptance: Acceptance::Accepted,
            has_succeeded: false,
            lost: 0,
            is_news: false,
            told: None,
        }
    }

    pub fn is_refused(&self) -> bool {
        matches!(self.acceptance, Acceptance::Refused { .. })
    }

    /// Datagrams that were refused since the last line that said that they are accepted.
    pub fn lost(&self) -> u64 {
        self.lost
    }

    /// Takes note of the answer to a send; an error is a fault of the link. Any other refusal is most likely a while without a
    /// route, an address, an interface or a buffer: its datagram is lost, as on any network. But a link that is alone and has
    /// sent nothing yet has a wrong address.
    pub fn note<R: Clock>(
        &mut self,
        clock: &R,
        answer: io::Result<usize>,
        is_alone: bool,
    ) -> io::Result<()> {
        match answer {
            Ok(_) => self.accepts(),
            // That nobody listens is no fault: whoever listens may come later.
            Err(fault) if fault.kind() == ErrorKind::ConnectionRefused => self.accepts(),
            Err(fault) if fault.raw_os_error() == Some(TOO_LONG) => return Err(fault),
            Err(fault) if is_alone && !self.has_succeeded => return Err(fault),
            Err(fault) => self.refuses(clock, fault),
        }
        Ok(())
    }

    fn accepts(&mut self) {
        self.has_succeeded = true;
        if self.is_refused() {
            self.acceptance = Acceptance::Accepted;
            self.is_news = true;
        }
    }

    fn refuses<R: Clock>(&mut self, clock: &R, reason: io::Error) {
        self.lost = self.lost.saturating_add(1);
        if !self.is_refused() {
            let since = SystemTime::now(clock).ok();
            self.acceptance = Acceptance::Refused { since, reason };
            self.is_news = true;
        }
    }

    /// What a person is to be told now, if anything.
    pub fn news<R: Clock>(&self, clock: &R) -> Option<Acceptance> {
        if self.is_news && self.is_due(clock) {
            Some(self.acceptance)
        } else {
            None
        }
    }

    /// What a person hasn't been told yet, however short ago the last line was.
    pub fn last_news(&self) -> Option<Acceptance> {
        if self.is_news {
            Some(self.acceptance)
        } else {
            None
        }
    }

    // So long behind the line before it, if there is one and the clock can tell.
    fn is_due<R: Clock>(&self, clock: &R) -> bool {
        let Some(told) = self.told else {
            return true;
        };
        match told.elapsed(clock) {
            Ok(passed) => passed >= Duration::from_secs(SECONDS_BETWEEN_LINES),
            Err(_) => false,
        }
    }

    /// Takes note that a person was told how it stands.
    pub fn are_told<R: Clock>(&mut self, clock: &R) {
        self.told = Instant::now(clock).ok();
        self.is_news = false;
        if !self.is_refused() {
            self.lost = 0;
        }
    }
}
