//! Laws of frames.

ghost use Rattle.mdi_items.specs.Laws.{FoundStands, IsOneFrame, FrameOrFault};
ghost use Rattle.mdi_items.specs.RoundTrip.{WrittenIsRead, HasOneSpelling};

/// What a frame points to by a name is the value of the first item of that name, as it stands in the payload.
pub fn found_values_stand_in_the_payload()
    ensures { FoundStands }
{}

/// A payload is one frame at most.
pub fn one_frame()
    ensures { IsOneFrame }
{}

/// A payload that is a frame has no first fault.
pub fn frame_or_fault()
    ensures { FrameOrFault }
{}

/// What is written of a frame's parts is read again as these.
pub fn written_is_read()
    ensures { WrittenIsRead }
{}

/// What is written of a frame's parts is their one spelling.
pub fn one_spelling()
    ensures { HasOneSpelling }
{}
