//! Lists of entities.

ghost use Rattle.std.specs.Prelude.{◌≡◌, ◌<◌, ◌++◌, ◌∷◌, [], length, OnOk, OnErr, slice_index_or};

use crate::Entity;
use drm_bits::NoMemory;
use std::alloc::Global;
use std::marker::Model;

/// A list of entities.
#[derive(Drop)]
pub struct Entities {
    items: Vec<Entity>,
}

impl Model for Entities {
    ghost use Rattle.std.specs.Prelude.{List};
    ghost use Rattle.drm_sdc.specs.declared.entity.Entity.{Entity};

    ghost Value = { List Entity };

    ghost view = { λ e. e.items.items };
}

impl Entities {
    /// No entity.
    pub fn new(alloc: Global) -> Entities
        ensures { result ≡ [] }
    {
        Entities {
            items: Vec::new(alloc),
        }
    }

    /// How many entities there are.
    pub fn len(&self) -> usize
        ensures { result ≡ length self.now }
    {
        self.items.len()
    }

    /// The entity with this number, from 0.
    pub fn get(&self, k: usize) -> &Entity
        requires { k < length self.now }
        ensures { result.now ≡ slice_index_or self.now k result.now }
    {
        &self.items[k]
    }

    /// Puts an entity at the end.
    pub fn push(&mut self, item: Entity) -> Result<(), NoMemory>
        ensures pushed { OnOk result (self.new ≡ self.old ++ item ∷ []) }
        ensures unchanged { OnErr result (self.new ≡ self.old) }
    {
        match self.items.push(item) {
            Ok(()) => Ok(()),
            Err(_) => Err(NoMemory),
        }
    }

    /// The entities.
    pub fn as_slice(&self) -> &[Entity]
        ensures { result.now ≡ self.now }
    {
        &self.items
    }
}
