//! The reconfigurations that a receiver sees.

ghost use Rattle.std.specs.Prelude.{◌≡◌, ◌<◌, ◌^◌};
ghost use Rattle.std.specs.Option.{ForSome};
ghost use Rattle.drm_reconfiguration.specs.Seen.{IsSeenInRange};
ghost use Rattle.drm_reconfiguration.specs.Tracker.{new_tracker, answered, stepped, is_named, TellsTheSwitches};

use crate::{Seen, Signature};
use std::marker::Model;

/// What stands before an item. Items are numbered from 0, and a frame has the number of its item.
#[derive(Clone, Copy, Debug, PartialEq, Eq)]
pub enum Before {
    /// This item, seen or missing, was named as the first frame of a new configuration.
    Switch(u64),
    /// This frame has another signature than the last one before it, and no switch stands between them.
    Resumed(u64),
}

/// Follows the logical frames of one receiver, one call for each item: a frame that was seen, or a missing one.
#[derive(Debug, Drop)]
pub struct Tracker {
    // How many calls there were: the number of the next item.
    calls: u64,
    // The frame that was named last, while it is ahead.
    named: Option<u64>,
    // The signature of the last frame.
    signature: Option<Signature>,
    // Whether a switch was answered since that frame.
    switched: bool,
}

impl Model for Tracker {
    ghost use Rattle.drm_reconfiguration.specs.Tracker.{TrackerState};

    ghost Value = { TrackerState };

    ghost view = { λ t. record { calls = t.calls; named = t.named; signature = t.signature; switched = t.switched } };
}

impl Tracker {
    /// A tracker of no item yet.
    pub fn new() -> Tracker
        ensures { result ≡ new_tracker }
    {
        Tracker {
            calls: 0,
            named: None,
            signature: None,
            switched: false,
        }
    }

    /// Takes the next item, `None` where its frame is missing, and answers what stands before it.
    pub fn step(&mut self, seen: Option<Seen>) -> Option<Before>
        requires range { ForSome seen IsSeenInRange }
        requires calls { self.old.calls < 2 ^ 62 }
        ensures answer { result ≡ answered self.old seen }
        ensures after { self.new ≡ stepped self.old seen }
    {
        let answer = self.answer(seen);
        *self = self.after(seen);
        answer
    }

    /// Whether the next item is the frame that was named last.
    fn is_named(&self) -> bool
        ensures { result ≡ is_named self.now }
    {
        self.named == Some(self.calls)
    }

    /// What stands before the next item.
    fn answer(&self, seen: Option<Seen>) -> Option<Before>
        ensures { result ≡ answered self.now seen }
    {
        if self.is_named() {
            return Some(Before::Switch(self.calls));
        }
        match (self.signature, seen) {
            (Some(last), Some(seen)) if !self.switched && last != seen.signature => {
                Some(Before::Resumed(self.calls))
            }
            _ => None,
        }
    }

    /// The tracker behind the next item.
    fn after(&self, seen: Option<Seen>) -> Tracker
        requires range { ForSome seen IsSeenInRange }
        requires calls { self.now.calls < 2 ^ 62 }
        ensures { result ≡ stepped self.now seen }
    {
        let calls = self.calls + 1;
        let is_named = self.is_named();
        let left = if is_named { None } else { self.named };
        match seen {
            Some(seen) => Tracker {
                calls,
                named: seen.names(self.calls).or(left),
                signature: Some(seen.signature),
                switched: false,
            },
            None => Tracker {
                calls,
                named: left,
                signature: self.signature,
                switched: self.switched || is_named,
            },
        }
    }
}

/// A law: for every list of calls, what a new tracker answers to each is what stands before that item in the list.
pub fn the_tracker_tells_the_switches()
    ensures { TellsTheSwitches }
{}
