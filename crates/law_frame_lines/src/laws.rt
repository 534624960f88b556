//! Laws of the printed lines of a schedule's frames, each on a function that does nothing.

ghost use Rattle.law_frame_lines.specs.Laws.{ServedLines, HasOneLine};

/// Where an item is a frame of a schedule, the line that is printed of it is that frame's.
pub fn served_frames_are_printed()
    ensures { ServedLines }
{}

/// A frame of a schedule has one line under each number.
pub fn one_line()
    ensures { HasOneLine }
{}
