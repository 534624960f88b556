//! Scripts.

ghost use Rattle.std.specs.Prelude.{◌≡◌, ◌<◌, ◌∷◌, [], length, slice_index_or, IfOk};

use crate::delivery::Delivery;
use drm_bits::NoMemory;
use drm_schedule::OwnedList;
use std::alloc::Global;
use std::marker::Model;

/// Which fragments of which packets of a schedule reach which feed, and in which order.
#[derive(Drop)]
pub struct Script {
    feeds: OwnedList<OwnedList<Delivery>>,
}

impl Model for Script {
    ghost use Rattle.std.specs.Prelude.{List};
    ghost use Rattle.plan_script.specs.declared.delivery.Delivery.{Delivery};

    ghost Value = { List (List Delivery) };

    ghost view = { λ s. s.feeds };
}

impl Script {
    pub(crate) fn new(feeds: OwnedList<OwnedList<Delivery>>) -> Script
        ensures { result ≡ feeds }
    {
        Script { feeds }
    }

    /// The script of one feed.
    pub fn of_feed(alloc: Global, feed: OwnedList<Delivery>) -> Result<Script, NoMemory>
        ensures { IfOk result (λ script. script ≡ feed ∷ []) }
    {
        let mut feeds = OwnedList::new(alloc);
        feeds.push(feed)?;
        Ok(Script { feeds })
    }

    /// How many feeds there are.
    pub fn feeds(&self) -> usize
        ensures { result ≡ length self.now }
    {
        self.feeds.len()
    }

    /// What reaches this feed, from 0, in the order of delivery.
    pub fn deliveries(&self, feed: usize) -> &[Delivery]
        requires { feed < length self.now }
        ensures { result.now ≡ slice_index_or self.now feed result.now }
    {
        self.feeds.get(feed).as_slice()
    }
}
