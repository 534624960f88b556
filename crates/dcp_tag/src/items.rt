//! The items of a payload.

ghost use Rattle.std.specs.Prelude.{◌≡◌, ◌<◌, ℕ, List, ◌++◌, length, None};
ghost use Rattle.dcp_tag.specs.Tag.{TagItem, IsSpelling, IsItemCut};

use crate::head::{HEAD_BYTES, bytes_for, split_head};
use std::marker::Model;

/// A TAG item of a payload.
#[derive(Clone, Copy, Debug, PartialEq, Eq)]
pub struct Item<'a> {
    pub name: [u8; 4],
    /// The length of the value in bits.
    pub bits: u32,
    /// The bytes of the payload with the value, of which the last one may end in padding bits of any content.
    pub value: &'a [u8],
    /// The byte of the payload at which the value begins.
    pub at: usize,
}

/// An item goes past the end of the payload.
#[derive(Clone, Copy, Debug, PartialEq, Eq)]
pub struct ValueCut {
    /// The byte of the payload at which the item begins.
    pub at: usize,
}

/// Goes over the items of a payload.
#[derive(Drop)]
pub struct Items<'a> {
    payload: &'a [u8],
    at: usize,
}

impl<'a> Model for Items<'a> {
    ghost use Rattle.std.specs.Prelude.{◌≤◌, length};
    ghost use Rattle.dcp_tag.specs.PayloadPlace.{PayloadPlace};

    ghost Value = { PayloadPlace };

    ghost view = { λ items. record { payload = items.payload.now; at = items.at } };

    ghost invariant = { λ items. items.at ≤ length items.payload.now };
}

impl<'a> Items<'a> {
    ghost use Rattle.dcp_tag.specs.PayloadPlace.{left};
    ghost use Rattle.dcp_tag.specs.Reading.{AnswersItem, IsGiven};

    /// The items of this payload, from its front.
    pub fn new(payload: &'a [u8]) -> Items<'a>
        ensures { result ≡ record { payload = payload.now; at = 0 } }
    {
        Items { payload, at: 0 }
    }

    /// The next item, or None where fewer than eight bytes are left, which are padding. After None and after a cut
    /// each further call answers the same.
    pub fn next_item(&mut self) -> Result<Option<Item<'a>>, ValueCut>
        ensures answer { AnswersItem result self.old self.new }
        // Each answer comes exactly where it is due.
        ensures item { (item : TagItem) (spelling rest : List ℕ) → IsSpelling item spelling
            → left self.old ≡ spelling ++ rest → IsGiven item result }
        ensures none { length (left self.old) < 8 → result ≡ Ok None }
        ensures cut { IsItemCut (left self.old) → result ≡ Err (record { at = self.old.at }) }
    {
        let Some((name, bits, behind)) = split_head(&self.payload[self.at..]) else {
            return Ok(None);
        };
        let len = bytes_for(bits);
        if behind.len() < len {
            return Err(ValueCut { at: self.at });
        }
        let at = self.at + HEAD_BYTES;
        self.at = at + len;
        Ok(Some(Item {
            name: *name,
            bits,
            value: &behind[..len],
            at,
        }))
    }
}
