//! Laws of TAG items.

ghost use Rattle.dcp_tag.specs.Laws.{HasOneList, CutIsNone, WrittenIsSpelling, HasOneWriting, GivesThePayload};

/// A payload has one list of items.
pub fn one_list_of_items()
    ensures { HasOneList }
{}

/// Bytes whose first item goes past the end are no payload.
pub fn cut_is_none()
    ensures { CutIsNone }
{}

/// What is written for an item is one of its spellings.
pub fn written_is_a_spelling()
    ensures { WrittenIsSpelling }
{}

/// An item has one written spelling.
pub fn one_written_spelling()
    ensures { HasOneWriting }
{}

/// The items that are given are those of the payload.
pub fn given_items_are_the_payloads()
    ensures { GivesThePayload }
{}
