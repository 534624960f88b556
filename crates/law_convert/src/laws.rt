//! The laws of the conversion, each on a function that does nothing.

ghost use Rattle.law_convert.specs.Laws.{Converting, ConvertingEarly, FirstIsKnown, FirstOfAll, NoneIsTooLarge, ConversionsAreCaptures, BrokenConversions, HaltedConversions, CapturesAreConverted};

use capture_reader::read_one_way;
use law_capture::packets_in_front;
use law_collect::{
    collecting, giving_ends, in_time, one_reading, one_run, refusing, steps_count, steps_part,
};
use law_delivery::all_frames_are_given_at_once;

/// Where each frame of a schedule is in time, what a collector gives becomes the schedule's capture under the other carry.
pub fn conversions_are_captures()
    ensures whole { Converting }
    ensures early { ConvertingEarly }
    ensures range { ConversionsAreCaptures }
    ensures broken { BrokenConversions }
    ensures halted { HaltedConversions }
{
    // For their clauses alone: what a collector gives of a delivery, and in how many ways.
    collecting();
    giving_ends();
    in_time();
    one_reading();
    one_run();
    refusing();
    steps_part();
    all_frames_are_given_at_once();
}

/// A collector counts from the sequence number of the schedule's first packet.
pub fn the_first_number_is_known()
    ensures given { FirstIsKnown }
    ensures first_of_all { FirstOfAll }
{
    // For their clauses alone: how a datagram is read and answered, and what a delivery gives.
    one_reading();
    refusing();
    one_run();
    all_frames_are_given_at_once();
}

/// No packet of a schedule is too large for a carry.
pub fn none_is_too_large()
    ensures { NoneIsTooLarge }
{
    // For their clauses alone: what a collector gives of a delivery, and under which numbers.
    collecting();
    giving_ends();
    steps_count();
}

/// A run of `convert` over a capture of a schedule in which each frame is in time writes the schedule's capture under its carry.
pub fn captures_are_converted()
    ensures { CapturesAreConverted }
{
    // For their clauses alone: how a capture is read, and the laws above.
    packets_in_front();
    read_one_way();
    conversions_are_captures();
    none_is_too_large();
}
