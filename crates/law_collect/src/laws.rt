//! The laws of collecting, each on a function that does nothing.

ghost use Rattle.law_collect.specs.Laws.{OneNearest, OneReading, Refusing, ReachingAll, Collecting, InTime, OneRun, OneGiving, StepsJoin, StepsPart, StepsCount, GivingEnds, FewAtOnce};

/// A datagram is read as one thing.
pub fn one_reading()
    ensures { OneReading }
{}

/// A sequence number has one number near the newest.
pub fn one_nearest()
    ensures { OneNearest }
{}

/// What can't be read every collector refuses, and what is far the one for which it is; and stays as it was.
pub fn refusing()
    ensures { Refusing }
{}

/// With the greatest reach a collector answers as if it had none.
pub fn reaching_all()
    ensures { ReachingAll }
{}

/// Every run gives the items of its delivery, each once and in order.
pub fn collecting()
    ensures { Collecting }
{}

/// What came in time is given.
pub fn in_time()
    ensures { InTime }
{}

/// A collector answers datagrams, and gives items, in one way.
pub fn one_run()
    ensures { OneRun }
{}

/// A collector gives what is ready in one way.
pub fn one_giving()
    ensures { OneGiving }
{}

/// Steps one after another are steps.
pub fn steps_join()
    ensures { StepsJoin }
{}

/// Steps over datagrams are steps over the first of them, and then over the others.
pub fn steps_part()
    ensures { StepsPart }
{}

/// Each item that is given has the next number.
pub fn steps_count()
    ensures { StepsCount }
{}

/// Giving what is ready comes to an end.
pub fn giving_ends()
    ensures { GivingEnds }
{}

/// One datagram brings no more than so many items, by the reach once something was kept.
pub fn few_at_once()
    ensures { FewAtOnce }
{}
