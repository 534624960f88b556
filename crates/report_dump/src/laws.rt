//! Laws of what is printed.

ghost use Rattle.report_dump.specs.Laws.{HasOneText};

/// A packet has one text.
pub fn one_text()
    ensures { HasOneText }
{}
