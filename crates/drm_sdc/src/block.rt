//! A block of the Service Description Channel.

ghost use Rattle.std.specs.Prelude.{◌≡◌, ◌+◌, ◌/◌, ◌⊎◌, ℕ, take, length, IfOk, IfErr};
ghost use Rattle.drm_bits.specs.Bits.{bits_of};

use crate::field::{check_entities, read_entities};
use crate::unpack::{block_room, unpack_block};
use crate::{Entities, SdcFault};
use drm_bits::Octets;
use std::alloc::Global;

/// A block, which each super frame has (ES 201 980).
#[derive(Drop)]
pub struct Block {
    /// The AFS index, 4 bits.
    pub afs: u8,
    /// The entities, from the front of the data field.
    pub entities: Entities,
    /// The rest of the data field.
    pub tail: Octets,
}

/// What is told of a block without its entities.
#[derive(Clone, Copy, Debug, PartialEq, Eq)]
pub struct BlockInfo {
    /// The AFS index, 4 bits.
    pub afs: u8,
    /// How many bytes the data field has.
    pub room: u16,
}

ghost use Rattle.drm_sdc.specs.Block.{IsBlock, IsBlockFault, info_of};
ghost use Rattle.drm_sdc.specs.declared.fault.SdcFault.{SdcFault};
ghost use Rattle.drm_sdc.specs.declared.block.Block.{Block};

/// Reads a block from the first `bits` bits of `value`, which has as many bytes as these need. The bits may be the
/// block, or four zero bits and the block.
pub fn read_block(alloc: Global, value: &[u8], bits: u32) -> Result<Block, SdcFault>
    requires { length value.now ≡ (bits + 7) / 8 }
    // What is read is the block, and there is no other.
    ensures read { IfOk result (λ b. IsBlock b (take bits (bits_of value.now))) }
    ensures only { (block : Block) → IsBlock block (take bits (bits_of value.now)) → (result ≡ Ok block) ⊎ (result ≡ Err SdcFault.NoMemory) }

    // Else the fault is the first one, unless memory ran out.
    ensures fault { IfErr result (λ f. (f ≡ SdcFault.NoMemory) ⊎ IsBlockFault (take bits (bits_of value.now)) f) }
    ensures named { (fault : SdcFault) → IsBlockFault (take bits (bits_of value.now)) fault → (result ≡ Err fault) ⊎ (result ≡ Err SdcFault.NoMemory) }
{
    read_whole(alloc, value, bits)
}

fn read_whole(alloc: Global, value: &[u8], bits: u32) -> Result<Block, SdcFault>
    requires { length value.now ≡ (bits + 7) / 8 }
    ensures read { IfOk result (λ b. IsBlock b (take bits (bits_of value.now))) }
    ensures fault { IfErr result (λ f. (f ≡ SdcFault.NoMemory) ⊎ IsBlockFault (take bits (bits_of value.now)) f) }
{
    let room = block_room(value, bits)?;
    let mut buffer = [0; 1023];
    let field = &mut buffer[..room];
    let afs = unpack_block(value, bits, field)?;
    let (entities, tail) = read_entities(alloc, field)?;
    Ok(Block {
        afs,
        entities,
        tail,
    })
}

/// Answers as `read_block` does, without memory.
/// Example: `check_block(&[0x00, 0x1e, 0x0f], 24)` is `Ok(BlockInfo { afs: 0, room: 0 })`.
pub fn check_block(value: &[u8], bits: u32) -> Result<BlockInfo, SdcFault>
    requires { length value.now ≡ (bits + 7) / 8 }
    // There is a block of which this is told.
    ensures right { IfOk result (λ i. (block : Block) × (is : IsBlock block (take bits (bits_of value.now))) × (i ≡ info_of block (take bits (bits_of value.now)) is)) }
    ensures only { (block : Block) (is : IsBlock block (take bits (bits_of value.now))) → result ≡ Ok (info_of block (take bits (bits_of value.now)) is) }

    // Else the fault is the first one.
    ensures fault { IfErr result (IsBlockFault (take bits (bits_of value.now))) }
    ensures named { (fault : SdcFault) → IsBlockFault (take bits (bits_of value.now)) fault → result ≡ Err fault }
{
    check_whole(value, bits)
}

fn check_whole(value: &[u8], bits: u32) -> Result<BlockInfo, SdcFault>
    requires { length value.now ≡ (bits + 7) / 8 }
    ensures right { IfOk result (λ i. (block : Block) × (is : IsBlock block (take bits (bits_of value.now))) × (i ≡ info_of block (take bits (bits_of value.now)) is)) }
    ensures fault { IfErr result (IsBlockFault (take bits (bits_of value.now))) }
{
    let room = block_room(value, bits)?;
    let mut buffer = [0; 1023];
    let field = &mut buffer[..room];
    let afs = unpack_block(value, bits, field)?;
    check_entities(field)?;
    Ok(BlockInfo {
        afs,
        room: room as u16,
    })
}
