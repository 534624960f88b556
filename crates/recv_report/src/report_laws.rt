//! What the laws of deliveries say of reports.

ghost use Rattle.law_delivery.specs.Laws.{Delivering, DeliveringEarly, ForeignRefused, GivenInTime, SwitchesAtStarts, AllSwitches, AllFrames};
ghost use Rattle.law_frame_lines.specs.Laws.{ServedLines};
ghost use Rattle.recv_report.specs.Following.{HeadlinesFollow, CompletesFollow, NoneBreaksOff};

use law_delivery::{
    all_frames_are_given, all_frames_are_given_at_once, all_switches_are_reported,
    foreign_are_refused, frames_in_time_are_given, modulators_give, modulators_give_early,
    switches_are_reported_at_starts,
};
use law_frame_lines::served_frames_are_printed;

/// A report is that of the delivery that was read, and that of all frames where each of them is in time.
pub fn reports_follow()
    ensures headlines { HeadlinesFollow }
    ensures completes { CompletesFollow }
{
    // For its clauses alone: the laws of deliveries.
    laws_of_deliveries();
}

/// Where each frame is in time, no failure of the link comes before the end of the reading.
pub fn in_time_is_unbroken()
    ensures { NoneBreaksOff }
{
    // For its clause alone: all frames are given with the last datagram.
    all_frames_are_given_at_once();
}

/// The laws that these reports rest on.
pub fn laws_of_deliveries()
    ensures delivering { Delivering }
    ensures early { DeliveringEarly }
    ensures refused { ForeignRefused }
    ensures in_time { GivenInTime }
    ensures at_starts { SwitchesAtStarts }
    ensures all_switches { AllSwitches }
    ensures all_frames { AllFrames }
    ensures lines { ServedLines }
{
    // For their clauses alone, which are these.
    modulators_give();
    modulators_give_early();
    foreign_are_refused();
    frames_in_time_are_given();
    switches_are_reported_at_starts();
    all_switches_are_reported();
    all_frames_are_given();
    served_frames_are_printed();
}
