//! The known items of a payload.

ghost use Rattle.std.specs.Prelude.{◌≡◌, [], List, length, OnOk, OnErr, IfOk, IfErr};
ghost use Rattle.dcp_tag.specs.Tag.{TagItem};
ghost use Rattle.mdi_items.specs.Items.{AreThenFault, known_of};
ghost use Rattle.mdi_items.specs.Frame.{AreInside};
ghost use Rattle.mdi_items.specs.Mdi.{AreItems};
ghost use Rattle.mdi_items.specs.Noting.{NotesItem, IsNoted};

use crate::MdiFault;
use crate::names::place_of;
use dcp_tag::Items;

/// Where the value of an item stands in the payload.
#[derive(Clone, Copy, PartialEq, Eq)]
pub(crate) struct ItemSpan {
    /// Its first byte.
    pub at: usize,
    /// Its length in bits.
    pub bits: u32,
}

/// The known items, where they are there, in the order of their names.
pub(crate) type KnownItems = [Option<ItemSpan>; 10];

/// Finds the known items, or the first fault of the items in their order.
pub(crate) fn gather(payload: &[u8]) -> Result<KnownItems, MdiFault>
    ensures known { IfOk result (λ known. (items : List TagItem) × AreItems items payload.now × (known ≡ known_of items)) }
    ensures inside { IfOk result (AreInside (length payload.now)) }
    ensures fault { IfErr result (λ f. (items : List TagItem) × AreThenFault [] items payload.now f) }
{
    let mut items = Items::new(payload);
    let mut known = [None; 10];
    loop {
        match items.next_item() {
            Ok(Some(item)) => {
                let found = ItemSpan {
                    at: item.at,
                    bits: item.bits,
                };
                note(&mut known, item.name, found)?;
            }
            Ok(None) => return Ok(known),
            Err(cut) => return Err(MdiFault::Tag(cut)),
        }
    }
}

// Keeps where an item stands, if its name is known.
fn note(known: &mut KnownItems, name: [u8; 4], found: ItemSpan) -> Result<(), MdiFault>
    ensures noted { OnOk result (NotesItem name found known.old known.new) }
    ensures twice { IfErr result (IsNoted name known.old) }
    ensures unchanged { OnErr result (known.new ≡ known.old) }
{
    let Some(place) = place_of(name) else {
        return Ok(());
    };
    if known[place].is_some() {
        return Err(MdiFault::Twice { name });
    }
    known[place] = Some(found);
    Ok(())
}
