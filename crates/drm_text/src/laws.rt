//! The laws of text messages, each on a function that does nothing.

ghost use Rattle.drm_text.specs.Laws.{OnlyStarts};

/// No piece of a message but the start of a segment is four bytes FF.
pub fn only_starts()
    ensures { OnlyStarts }
{}
