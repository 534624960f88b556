//! When the rests of a link end.

use std::io::{self, ErrorKind};
use std::time::{Clock, Duration, Instant};

/// A frame that is late goes out no sooner than this part of a rest behind the one before it: four times as fast as the pace.
const LATE_PART: u64 = 4;

/// The moments from which the rests of a link are counted.
#[derive(Clone, Copy, Drop)]
pub(crate) struct Pace {
    /// The moment at which the last rest was due to end, or else when the first datagram was sent.
    due: Option<Instant>,
    /// When the first datagram since the last rest was sent.
    begun: Option<Instant>,
}

impl Pace {
    pub(crate) fn new() -> Self {
        Pace {
            due: None,
            begun: None,
        }
    }

    /// Notes that a datagram is sent now.
    pub(crate) fn sends<R: Clock>(&mut self, clock: &R) {
        if self.begun.is_none() {
            self.begun = Instant::now(clock).ok();
            self.due = self.due.or(self.begun);
        }
    }

    /// Counts one rest more, and gives the moment at which it ends. It is due so long after the one before it was, and the first one so long
    /// after the first datagram, so that being late never adds up. Whoever is late catches up frame by frame, so that
    /// a halt isn't followed by a burst that no receiver has room for.
    pub(crate) fn end_of_rest<R: Clock>(&mut self, clock: &R, millis: u32) -> io::Result<Instant> {
        let from = match self.due {
            Some(moment) => moment,
            None => Instant::now(clock)?,
        };
        let due = later(from, Duration::from_millis(u64::from(millis)))?;
        self.due = Some(due);
        match self.begun.take() {
            Some(begun) => {
                let least = Duration::from_micros(u64::from(millis) * 1000 / LATE_PART);
                Ok(due.max(later(begun, least)?))
            }
            None => Ok(due),
        }
    }
}

fn later(moment: Instant, span: Duration) -> io::Result<Instant> {
    moment
        .checked_add(span)
        .ok_or(ErrorKind::InvalidInput.into())
}
