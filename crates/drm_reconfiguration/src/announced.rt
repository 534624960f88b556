//! Laws of switches over a multiplex that announces its reconfigurations, each on a function that does nothing.

ghost use Rattle.drm_reconfiguration.specs.Announced.{OnlyAtStarts, AtAllStarts, NoneResumed};

/// Switches stand only where a configuration starts, whatever is missing.
pub fn switches_only_at_starts()
    ensures { OnlyAtStarts }
{}

/// Where no frame is missing, each configuration that starts behind the first frame has its switch.
pub fn switches_at_all_starts()
    ensures { AtAllStarts }
{}

/// Where no frame is missing, none is resumed.
pub fn none_is_resumed()
    ensures { NoneResumed }
{}
