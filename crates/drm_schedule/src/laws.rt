//! Laws of what lines can give, each on a function that does nothing.

ghost use Rattle.std.specs.Prelude.{◌≤◌, ◌*◌, length, All};
ghost use Rattle.drm_sdc.specs.Entity.{EntityFits};
ghost use Rattle.drm_sdc.specs.Writing.{total_size};
ghost use Rattle.drm_schedule.specs.Ranges.{EntityInLines};
ghost use Rattle.drm_schedule.specs.Laws.{OneIsInForce};

use crate::Entities;

/// The entities that lines give can be written, and have at most 129 bytes each.
pub fn entities_can_be_written(entities: &Entities)
    requires { All EntityInLines entities.now }
    ensures fit { All EntityFits entities.now }
    ensures in_range { total_size entities.now ≤ 129 * length entities.now }
{}

/// In each super frame just one list of entities is in force, that of the last block that has begun.
pub fn one_is_in_force()
    ensures { OneIsInForce }
{}
