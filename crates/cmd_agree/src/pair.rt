//! Two schedules from a shelf.

ghost use Rattle.std.specs.Prelude.{◌≡◌, IfOk};
ghost use Rattle.drm_links.specs.Known.{HasCause};
ghost use Rattle.cmd_load.specs.Loading.{ReadBy};
ghost use Rattle.cmd_agree.specs.Reading.{both_named, AreSchedules};

use cmd_load::{ScheduleFault, read_schedule};
use drm_links::Shelf;
use drm_schedule::Schedule;
use std::alloc::Global;

/// Two schedules, in the order in which they are named.
#[derive(Drop)]
pub struct SchedulePair {
    pub first: Schedule,
    pub second: Schedule,
}

/// The schedules whose texts have these names, with their files. The second isn't opened where the first is refused.
pub(crate) fn read_pair<S: Shelf>(
    alloc: Global,
    shelf: &mut S,
    name: &str,
    other: &str,
) -> Result<SchedulePair, ScheduleFault>
    ensures reads { ReadBy (both_named name.now other.now) result
        (S.known shelf.old) (S.known shelf.new) }
    ensures valid { IfOk result AreSchedules }
    ensures cause { HasCause (S.known shelf.old) (S.known shelf.new)
        (result ≡ Err ScheduleFault.Read) }
{
    let first = read_schedule(alloc, shelf, name)?;
    let second = read_schedule(alloc, shelf, other)?;
    // For their clause alone: each is valid.
    first.always_valid();
    second.always_valid();
    Ok(SchedulePair { first, second })
}
