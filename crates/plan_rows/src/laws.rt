//! The laws of rows.

ghost use Rattle.plan_rows.specs.Law.{AreWrittenAgain};
ghost use Rattle.plan_rows.specs.Fits.{GiveRows};

/// What is written of values by a row is read again as the same values: as a line, by a table whose rows differ.
pub fn lines_are_read_again()
    ensures { AreWrittenAgain }
{}

/// What a line of UTF-8 gives by a table is of a row of its keyword, each value in its range.
pub fn lines_give_rows()
    ensures { GiveRows }
{}
