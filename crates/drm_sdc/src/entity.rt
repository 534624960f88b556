//! An entity, and which entities can be written.

ghost use Rattle.std.specs.Prelude.{◌≡◌, ◌↔◌, IsTrue};

use crate::Body;
use crate::fits::body_fits;
use crate::size::body_size;

/// An entity of the Service Description Channel (ES 201 980).
#[derive(Drop)]
pub struct Entity {
    /// For types 0, 5, 9 and 10 whether this is the next configuration; for the others only a flag.
    pub version: bool,
    pub body: Body,
}

impl Entity {
    ghost use Rattle.drm_sdc.specs.Entity.{EntityFits, BodyFits, entity_size, empty_entity};

    /// Whether the entity can be written: each number fits its field, the body has at most 127 bytes, a label is
    /// UTF-8, and the first two bytes aren't both 0.
    pub fn fits(&self) -> bool
        ensures { IsTrue result ↔ EntityFits self.now }
    {
        body_fits(&self.body) && !self.is_empty()
    }

    // The entity whose first two bytes are 0, which would be read as the end of the entities.
    fn is_empty(&self) -> bool
        requires { BodyFits self.now.body }
        ensures { IsTrue result ↔ (self.now ≡ empty_entity) }
    {
        match &self.body {
            Body::Mux { desc } => !self.version
                && desc.count == 0
                && desc.prot_a == 0
                && desc.prot_b == 0,
            _ => false,
        }
    }

    /// How many bytes the entity has: two of its header, and its body.
    pub fn size(&self) -> usize
        requires { EntityFits self.now }
        ensures { result ≡ entity_size self.now }
    {
        2 + body_size(&self.body)
    }
}
