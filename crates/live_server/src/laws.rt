//! A law of live streams, on a function that does nothing.

ghost use Rattle.live_server.specs.Laws.{NoneIsTheSchedule};

/// Where no stream is live the schedule is served itself.
pub fn none_is_the_schedule()
    ensures { NoneIsTheSchedule }
{}
