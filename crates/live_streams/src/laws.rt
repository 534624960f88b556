//! Laws of a schedule with live streams, each on a function that does nothing.

ghost use Rattle.live_streams.specs.Laws.{LiveIsASchedule, InputMakesASchedule};

/// Whatever pieces came for the frames of a schedule, the schedule whose live streams have them is valid.
pub fn live_is_a_schedule()
    ensures { LiveIsASchedule }
{}

/// The pieces that are cut of input, one frame after another, make a valid schedule.
pub fn input_makes_a_schedule()
    ensures { InputMakesASchedule }
{}
