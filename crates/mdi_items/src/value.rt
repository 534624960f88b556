//! The values of the items that each frame has.

ghost use Rattle.std.specs.Prelude.{◌≡◌, ◌+◌, ◌<◌, ◌≤◌, ◌∷◌, [], List, None, length, slice_index_or, OnOk, IfOk, IfErr};
ghost use Rattle.dcp_tag.specs.Tag.{bytes_for};
ghost use Rattle.mdi_items.specs.Names.{name_at};
ghost use Rattle.mdi_items.specs.Frame.{AreInside, HasBytes, IsAt, bytes_at};
ghost use Rattle.mdi_items.specs.Table.{NoneApplies, IsFirstFault, due_rows};

use crate::MdiFault;
use crate::known::{ItemSpan, KnownItems};
use crate::names::name_at;

/// The bytes of a value, its padding bits included.
pub(crate) fn bytes_at(payload: &[u8], found: ItemSpan) -> &[u8]
    requires { found.at + bytes_for found.bits ≤ length payload.now }
    ensures value { result.now ≡ bytes_at payload.now found }
    ensures size { length result.now ≡ bytes_for found.bits }
{
    let len = found.bits.div_ceil(u8::BITS) as usize;
    &payload[found.at..found.at + len]
}

/// Where an item stands that each frame has.
pub(crate) fn find(known: &KnownItems, place: usize) -> Result<ItemSpan, MdiFault>
    requires { place < 10 }
    ensures found { IfOk result (IsAt known.now place) }
    ensures absent { IfErr result (λ f. (slice_index_or known.now place None ≡ None) × (f ≡ MdiFault.Absent (name_at place))) }
{
    match known[place] {
        Some(found) => Ok(found),
        None => Err(MdiFault::Absent {
            name: name_at(place),
        }),
    }
}

/// The bytes of an item that each frame has, always with so many bits.
pub(crate) fn bytes_of<'a>(
    payload: &'a [u8],
    known: &KnownItems,
    place: usize,
    bits: u32,
) -> Result<&'a [u8], MdiFault>
    requires place { place < 10 }
    requires inside { AreInside (length payload.now) known.now }
    ensures value { IfOk result (λ bytes. HasBytes payload.now known.now place bytes.now) }
    ensures size { IfOk result (λ bytes. length bytes.now ≡ bytes_for bits) }
    ensures right { OnOk result (NoneApplies payload.now known.now (due_rows place bits)) }
    ensures fault { IfErr result (IsFirstFault payload.now known.now (due_rows place bits)) }
{
    let found = find(known, place)?;
    if found.bits != bits {
        return Err(MdiFault::ItemLength {
            name: name_at(place),
            bits: found.bits,
        });
    }
    Ok(bytes_at(payload, found))
}
