//! Laws of a schedule that is changed while it runs: where two schedules have the same datagrams in
//! their super frames below one, a server of the second may take over there from one of the first.
//! What both send, one after the other, is what the second alone would have sent
//! (`a_changeover_goes_on`); whatever arrives of both, in any mixture, is a delivery of the second
//! (`a_changeover_is_one_delivery`); and so it is for any number of schedules that take over, one
//! after another (`changeovers_are_one_delivery`). So what is said of every delivery of a schedule
//! holds of the last one, and no modulator can tell that the schedule was changed. The functions do
//! nothing: their clauses are the laws.
//!
//! They are laws of `AgreeBelow` of `drm_compare`, which `agree` finds, and of the deliveries of
//! `law_delivery`. No crate stands on this one.
//!
//! Live streams are not spoken of: with them both servers have to have the same bytes.
//!
//! Begin with `OneDelivery` in `specs/Laws.antt`.
#![tactic(auto)]

mod laws;

pub use laws::{
    a_changeover_goes_on, a_changeover_is_one_delivery, an_agreement_holds_below,
    changeovers_are_one_delivery,
};
