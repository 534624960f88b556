//! The laws, each on a function that does nothing.

ghost use Rattle.law_unpack.specs.Delivered.{UnpacksDeliveries};
ghost use Rattle.law_unpack.specs.Laws.{GivesWhatFramesBring, UnpacksWhatIsWhole};
ghost use Rattle.law_unpack.specs.Texts.{TextsOfDeliveries};

use law_delivery::modulators_give;
use law_text::joins_messages;

/// Of the packets of units in frames, some of which are lost, a joiner gives those units of which all frames are given.
pub fn gives_what_frames_bring()
    ensures { GivesWhatFramesBring }
{}

/// What is printed of such frames is just these units, besides cuts.
pub fn unpacks_what_is_whole()
    ensures { UnpacksWhatIsWhole }
{}

/// Of a delivery of a schedule, a stream of which is the packets of units, what is printed is just the units that came whole.
pub fn unpacks_deliveries()
    ensures { UnpacksDeliveries }
{
    // For its clause alone: what a modulator gives of a delivery.
    modulators_give();
}

/// Of a delivery of any schedule, what is printed of the messages of a stream is just those in the frames that are given.
pub fn texts_of_deliveries()
    ensures { TextsOfDeliveries }
{
    // For their clauses alone: what a modulator gives, and which messages a joiner gives.
    modulators_give();
    joins_messages();
}
