//! The laws, each on a function that does nothing.

ghost use Rattle.law_seam.specs.Laws.{FollowsBehind, AnnouncesBelow};

/// Behind the seam the datagrams of both schedules as one are those of the next.
pub fn the_next_goes_on()
    ensures { FollowsBehind }
{}

/// Below it the frames are those of the first, but for what announces the next in its countdown.
pub fn the_seam_is_announced()
    ensures { AnnouncesBelow }
{}
