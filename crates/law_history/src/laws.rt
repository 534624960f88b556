//! The laws of histories, each on a function that does nothing.

ghost use Rattle.law_history.specs.Laws.{OneHistory, EachAlone, OneByOneDiffers, LinksStayTogether, AfterEachTurn};

/// Calls leave one history, by what was to be answered.
pub fn one_history()
    ensures { OneHistory }
{}

/// Over each link goes what would go over it alone.
pub fn each_alone()
    ensures { EachAlone }
{}

/// One address after another isn't frame by frame.
pub fn one_by_one_differs()
    ensures { OneByOneDiffers }
{}

/// No link that hasn't failed is more than one frame ahead of another.
pub fn links_stay_together()
    ensures { LinksStayTogether }
{}

/// After each frame's turn all links that haven't failed have the same.
pub fn after_each_turn()
    ensures { AfterEachTurn }
{}
