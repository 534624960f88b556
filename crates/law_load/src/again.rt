//! Laws of the schedules that a shelf gives.

ghost use Rattle.law_load.specs.Again.{SchedulesAreOnTheShelf, TextsComeToTheirSchedules, CanonicalIsChecked, PrintedIsChecked};

/// The schedule of a text is valid, has the files of its shelf, and the text is one of it, and whatever is so comes to it;
/// its canonical text is checked as itself; and so is what `check` printed of a text, beside the same files.
pub fn what_check_prints_is_checked_again()
    ensures on_the_shelf { SchedulesAreOnTheShelf }
    ensures comes { TextsComeToTheirSchedules }
    ensures canonical { CanonicalIsChecked }
    ensures printed { PrintedIsChecked }
{}
