//! The laws of a gateway, each on a function that does nothing.

ghost use Rattle.law_gate.specs.Laws.{PassesDeliveries, PassesSchedules, ComesAgain, ServedBehindOne, ServedBehindTwo};

use law_collect::{collecting, giving_ends, one_reading, one_run};
use law_delivery::modulators_give;
use law_frame_lines::served_frames_are_printed;

/// What becomes of a delivery of packets is a delivery of them under the new carry: all datagrams of exactly those that are given.
pub fn deliveries_are_passed_on()
    ensures { PassesDeliveries }
{
    // For their clauses alone: what a collector gives of a delivery, and how a datagram is read.
    collecting();
    one_reading();
}

/// What becomes of a delivery of a schedule is a delivery of it under the new carry: all datagrams of exactly the frames that are
/// given.
pub fn schedules_are_passed_on()
    ensures { PassesSchedules }
{
    // For their clauses alone: what a collector gives of a delivery, and in how many ways.
    collecting();
    giving_ends();
    one_reading();
    one_run();
}

/// Whatever of that comes over the next link, and with whatever foreign datagrams, is a delivery of the schedule again.
pub fn what_is_passed_on_comes_again()
    ensures { ComesAgain }
{
    // For its clause alone: the law above.
    schedules_are_passed_on();
}

/// A frame that a receiver behind a gateway gives is the server's, and is printed as that.
pub fn frames_behind_a_gateway_are_served()
    ensures { ServedBehindOne }
{
    // For their clauses alone: what is passed on, what a modulator gives, and its line.
    schedules_are_passed_on();
    modulators_give();
    served_frames_are_printed();
}

/// A frame that a receiver behind two gateways gives is the server's, and is printed as that.
pub fn frames_behind_two_gateways_are_served()
    ensures { ServedBehindTwo }
{
    // For their clauses alone: the laws above, and the line of a frame.
    what_is_passed_on_comes_again();
    frames_behind_a_gateway_are_served();
    served_frames_are_printed();
}
