//! The laws of a feed, each on a function that does nothing.

ghost use Rattle.mod_feed.specs.Feeding.{IsOneItem, IsOneFeeding, FeedingJoins, FeedTellsTheSwitches};

/// What a collector gives has one item.
pub fn one_item()
    ensures { IsOneItem }
{}

/// A feed answers in one way.
pub fn one_feeding()
    ensures { IsOneFeeding }
{}

/// Steps one after another are steps.
pub fn feeding_joins()
    ensures { FeedingJoins }
{}

/// Whatever a new feed is given, what it gives before each item is what stands there in the list of all that was seen.
pub fn the_feed_tells_the_switches()
    ensures { FeedTellsTheSwitches }
{}
