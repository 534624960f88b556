//! Laws of canonical lines.

ghost use Rattle.law_plan.specs.Lines.{AreReadAgain};

/// What a line can say is read again from its canonical line.
pub fn canonical_lines_are_read_again()
    ensures { AreReadAgain }
{}
