//! A law, on a function that does nothing.

ghost use Rattle.drm_channel.specs.Structure.{IsCounted};

/// The cells of the table are those that the structure of the signals has.
pub fn cells_are_counted()
    ensures { IsCounted }
{}
