//! The laws of any two modulators, each on a function that does nothing.

ghost use Rattle.law_agreement.specs.Laws.{CountdownsAreTheSchedules, ReceiversAreModulators, TwoModulators, TwoReceivers};

use law_frame_lines::{one_line, served_frames_are_printed};

/// Any two modulators agree, if the headline holds of each.
pub fn any_two_modulators_agree()
    ensures { TwoModulators }
{
    // For their clauses alone: the line of a frame, and that it has one under each number.
    served_frames_are_printed();
    one_line();
}

/// A receiver of which the headline holds is a modulator of which it does.
pub fn receivers_are_modulators()
    ensures { ReceiversAreModulators }
{}

/// Any two receivers agree: of links, of captures, or of feeds of `air`.
pub fn any_two_receivers_agree()
    ensures { TwoReceivers }
{
    // For their clauses alone: the laws above.
    any_two_modulators_agree();
    receivers_are_modulators();
}

/// The frames that count down to a super frame are those of the schedule's countdown to it.
pub fn countdowns_are_the_schedules()
    ensures { CountdownsAreTheSchedules }
{}
