//! Lists of frequencies.

ghost use Rattle.std.specs.Prelude.{◌≡◌, ◌<◌, ◌++◌, ◌∷◌, [], length, OnOk, OnErr, slice_index_or};

use drm_bits::NoMemory;
use std::alloc::Global;
use std::marker::Model;

/// A frequency as an entity has it.
#[derive(Clone, Copy, Debug, PartialEq, Eq)]
pub struct Channel15 {
    /// The first bit.
    pub first: bool,
    /// The number, 15 bits.
    pub number: u16,
}

/// A list of frequencies.
#[derive(Drop)]
pub struct Channels {
    items: Vec<Channel15>,
}

impl Model for Channels {
    ghost use Rattle.std.specs.Prelude.{List};
    ghost use Rattle.drm_sdc.specs.declared.channels.Channel15.{Channel15};

    ghost Value = { List Channel15 };

    ghost view = { λ c. c.items.items };
}

impl Channels {
    /// No frequency.
    pub fn new(alloc: Global) -> Channels
        ensures { result ≡ [] }
    {
        Channels {
            items: Vec::new(alloc),
        }
    }

    /// How many frequencies there are.
    pub fn len(&self) -> usize
        ensures { result ≡ length self.now }
    {
        self.items.len()
    }

    /// The frequency with this number, from 0.
    pub fn get(&self, k: usize) -> &Channel15
        requires { k < length self.now }
        ensures { result.now ≡ slice_index_or self.now k result.now }
    {
        &self.items[k]
    }

    /// Puts a frequency at the end.
    pub fn push(&mut self, item: Channel15) -> Result<(), NoMemory>
        ensures pushed { OnOk result (self.new ≡ self.old ++ item ∷ []) }
        ensures unchanged { OnErr result (self.new ≡ self.old) }
    {
        match self.items.push(item) {
            Ok(()) => Ok(()),
            Err(_) => Err(NoMemory),
        }
    }

    /// The frequencies.
    pub fn as_slice(&self) -> &[Channel15]
        ensures { result.now ≡ self.now }
    {
        &self.items
    }
}
