//! Why bytes are no block, and why a block can't be written.

ghost use Rattle.std.specs.Prelude.{◌≡◌};

use drm_bits::NoMemory;

/// A refusal of a reader. `at` is the entity's first byte in the data field.
#[derive(Clone, Copy, Debug, PartialEq, Eq)]
pub enum SdcFault {
    /// So many bits are no block.
    BlockLength { bits: u32 },
    /// The four bits in front of a block have this value, and not 0.
    Front { bits: u8 },
    /// The check value that stands there isn't the one of the index and the field.
    Crc { stands: u16, computed: u16 },
    /// An entity is longer than the bytes that are left.
    EntityCut { at: usize },
    /// A body of this type never has this length, in bytes.
    BodyLength { at: usize, kind: u8, len: usize },
    /// A label isn't UTF-8.
    LabelText { at: usize },
    /// Memory ran out.
    NoMemory,
}

impl From<NoMemory> for SdcFault {
    ghost use Rattle.drm_sdc.specs.declared.fault.SdcFault.TheVariants.{NoMemory};

    ghost from_gives = { λ _ e. e ≡ NoMemory };

    fn from(_: NoMemory) -> Self {
        SdcFault::NoMemory
    }
}

/// The entities take more bytes than there are.
#[derive(Clone, Copy, Debug, PartialEq, Eq)]
pub struct NoRoom {
    /// The bytes that they take.
    pub needed: usize,
    /// The bytes that there are.
    pub room: usize,
}
