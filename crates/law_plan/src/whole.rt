//! Laws of a text with its files.

ghost use Rattle.law_plan.specs.Whole.{TextsMakeSchedules, CanonicalTextsAreTexts};

/// A text and files make a schedule exactly where the text gives the schedule but for the bytes of its files, the schedule is
/// valid, and the files are its own; and the canonical text of a valid schedule gives it, where it isn't too long.
pub fn texts_make_their_schedules()
    ensures makes { TextsMakeSchedules }
    ensures canonical { CanonicalTextsAreTexts }
{}
