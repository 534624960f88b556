//! Laws from what is sent to what is given, each on a function that does nothing.

ghost use Rattle.law_delivery.specs.Laws.{Delivering, DeliveringEarly, ForeignRefused, GivenInTime, SwitchesAtStarts, AllSwitches, AllFrames, AllAtOnce};
ghost use Rattle.law_delivery.specs.Ways.{TwoWays, AnyStretch};

use law_collect::{collecting, giving_ends, one_reading, refusing, steps_join};
use mod_feed::the_feed_tells_the_switches;

/// Whatever comes of a schedule's datagrams, a collector and a feed give what the delivery calls for.
pub fn modulators_give()
    ensures { Delivering }
{
    // For their clauses alone: what a collector gives, what a feed has before it, what is refused.
    collecting();
    the_feed_tells_the_switches();
    refusing();
}

/// What they have given of a front of a delivery is what the whole delivery calls for.
pub fn modulators_give_early()
    ensures { DeliveringEarly }
{
    // For their clauses alone: the same, and that the steps of a collector can be joined.
    collecting();
    the_feed_tells_the_switches();
    refusing();
    one_reading();
    steps_join();
    giving_ends();
}

/// Of a first part of a delivery, too, the foreign datagrams alone were refused.
pub fn foreign_are_refused()
    ensures { ForeignRefused }
{
    // For their clauses alone: the same.
    collecting();
    the_feed_tells_the_switches();
    refusing();
    one_reading();
    steps_join();
    giving_ends();
}

/// A frame that is in time is given.
pub fn frames_in_time_are_given()
    ensures { GivenInTime }
{}

/// A reconfiguration is reported only before the first frame of a later configuration.
pub fn switches_are_reported_at_starts()
    ensures { SwitchesAtStarts }
{}

/// Where no frame is missing, each of these has its switch, and nothing is resumed.
pub fn all_switches_are_reported()
    ensures { AllSwitches }
{}

/// Where each frame is in time, all frames of the schedule are given.
pub fn all_frames_are_given()
    ensures { AllFrames }
{}

/// And all of them were given with the last datagram.
pub fn all_frames_are_given_at_once()
    ensures { AllAtOnce }
{
    // For their clauses alone: what a collector gives of a delivery, and that this ends.
    collecting();
    giving_ends();
}

/// Two deliveries of a schedule, each in its own order, are one delivery of it, however they are mixed.
pub fn two_ways_are_one_delivery()
    ensures { TwoWays }
{}

/// Whatever comes of what is sent of any of a schedule's super frames is a delivery of the schedule, under the numbers of its frames.
pub fn a_stretch_is_delivered()
    ensures { AnyStretch }
{}
