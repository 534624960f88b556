//! The laws of several paths, each on a function that does nothing.

ghost use Rattle.law_paths.specs.Laws.{ReportsDeliveries, ReportsAll, MixedPathsAreOneDelivery, FollowedInAnyOrder};

use recv_report::laws_of_deliveries;

/// The report of several paths is that of what their delivery calls for: the server's frames, with its switches.
pub fn paths_report_deliveries()
    ensures { ReportsDeliveries }
{
    // For its clauses alone: the laws of deliveries.
    laws_of_deliveries();
}

/// Where each frame is in time, over whatever paths its datagrams came, it is that of all frames.
pub fn paths_report_all_frames()
    ensures { ReportsAll }
{
    // For their clauses alone: the laws of deliveries, and the law above.
    laws_of_deliveries();
    paths_report_deliveries();
}

/// Where each path brings a delivery of a schedule, all of them together do, however they are mixed.
pub fn mixed_paths_are_one_delivery()
    ensures { MixedPathsAreOneDelivery }
{}

/// Each delivery of a schedule of at most 32,768 frames can be followed from its first frame, in whatever order it comes.
pub fn short_schedules_are_followed_in_any_order()
    ensures { FollowedInAnyOrder }
{}
