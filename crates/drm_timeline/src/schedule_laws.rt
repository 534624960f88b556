//! Laws of each schedule, for the layers above, each on a function that does nothing.

ghost use Rattle.drm_timeline.specs.Starts.{AnnouncesStarts, SwitchesOnlyAtStarts, SwitchesAtAllStarts, ResumesNowhere};

use drm_schedule::Schedule;

/// A law: the reconfiguration index counts down to each later start and to nothing else, and signatures change only there.
pub fn starts_are_announced(plan: &Schedule)
    ensures { AnnouncesStarts plan.now }
{
    // For its clause alone: the schedule is valid.
    plan.always_valid();
}

/// A law: from any frame of a schedule on, switches stand only at later starts, whatever is missing. Where no frame is
/// missing, each later start behind the first frame has its switch, and none is resumed.
pub fn switches_are_at_starts(plan: &Schedule)
    ensures only { SwitchesOnlyAtStarts plan.now }
    ensures at_all_starts { SwitchesAtAllStarts plan.now }
    ensures never_resumed { ResumesNowhere plan.now }
{
    // For its clause alone: the reconfiguration index counts down to each later start.
    starts_are_announced(plan);
}
