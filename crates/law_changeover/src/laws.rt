//! The laws of changeovers, each on a function that does nothing.

ghost use Rattle.law_changeover.specs.Laws.{HoldsBelow, SentAsOne, OneDelivery, ManyAreOne};

/// Two schedules that agree below a super frame agree below each earlier one.
pub fn an_agreement_holds_below()
    ensures { HoldsBelow }
{}

/// What a server of one schedule sends up to a super frame, and one of the other from it on, is what the other alone sends.
pub fn a_changeover_goes_on()
    ensures { SentAsOne }
{}

/// What comes of both, in any mixture, is a delivery of the other.
pub fn a_changeover_is_one_delivery()
    ensures { OneDelivery }
{}

/// What comes of any number of schedules, each of which takes over from the one before, is a delivery of the last.
pub fn changeovers_are_one_delivery()
    ensures { ManyAreOne }
{}
