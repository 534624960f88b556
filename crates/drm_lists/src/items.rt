//! Lists of any values.

ghost use Rattle.std.specs.Prelude.{◌≡◌, ◌<◌, ◌↔◌, ◌++◌, ◌∷◌, [], IsTrue, length, OnOk, OnErr, slice_index_or};

use drm_bits::NoMemory;
use std::alloc::Global;
use std::marker::Model;

/// A list of values.
#[derive(Drop)]
pub struct OwnedList<T> {
    items: Vec<T>,
}

impl<T> Model for OwnedList<T> {
    ghost use Rattle.std.specs.Prelude.{List};

    ghost Value = { List T };

    ghost view = { λ s. s.items.items };
}

impl<T: Drop> OwnedList<T> {
    ghost use Rattle.std.specs.Borrow.{sem};
    ghost use Rattle.drm_lists.specs.OwnedList.{lends_item};

    /// No value.
    pub fn new(alloc: Global) -> OwnedList<T>
        ensures { result ≡ [] }
    {
        let items = Vec::new(alloc);
        OwnedList { items }
    }

    /// Whether there is no value.
    pub fn is_empty(&self) -> bool
        ensures { IsTrue result ↔ self.now ≡ [] }
    {
        self.items.is_empty()
    }

    /// How many values there are.
    pub fn len(&self) -> usize
        ensures { result ≡ length self.now }
    {
        self.items.len()
    }

    /// The value with this number, from 0.
    pub fn get(&self, k: usize) -> &T
        requires { k < length self.now }
        ensures { result.now ≡ slice_index_or self.now k result.now }
    {
        &self.items[k]
    }

    /// The values.
    pub fn as_slice(&self) -> &[T]
        ensures { result.now ≡ self.now }
    {
        &self.items
    }

    /// Puts a value at the end.
    pub fn push(&mut self, item: T) -> Result<(), NoMemory>
        ensures pushed { OnOk result (self.new ≡ self.old ++ item ∷ []) }
        ensures unchanged { OnErr result (self.new ≡ self.old) }
    {
        match self.items.push(item) {
            Ok(()) => Ok(()),
            Err(_) => Err(NoMemory),
        }
    }

    /// The value with this number, from 0, for writing.
    pub fn get_mut(&mut self, k: usize) -> &mut T
        requires { k < length self.old }
        ensures* writes_back { sem 𝓛 (lends_item T.row self.entry k result) }
        ensures value { result.now ≡ slice_index_or self.old k result.now }
    {
        &mut self.items[k]
    }

    /// The values, handed over.
    pub fn into_vec(self) -> Vec<T>
        ensures { result.items ≡ self }
    {
        self.items
    }
}
