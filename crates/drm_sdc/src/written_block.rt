//! A block of the Service Description Channel, written.

ghost use Rattle.std.specs.Prelude.{◌≡◌, ◌+◌, ◌-◌, ◌*◌, ◌≤◌, ◌<◌, ◌^◌, ◌++◌, ℕ, List, Bool, length, take, drop, replicate, slice_index, All, IfOk, OnOk, OnErr};
ghost use Rattle.drm_bits.specs.Bits.{bits_of};
ghost use Rattle.drm_bits.specs.Crc.{zeros};
ghost use Rattle.drm_sdc.specs.Entity.{EntityFits};
ghost use Rattle.drm_sdc.specs.declared.entity.Entity.{Entity};
ghost use Rattle.drm_sdc.specs.Block.{IsBlock, IsBlockChecked, first_form};
ghost use Rattle.drm_sdc.specs.Field.{IsField};
ghost use Rattle.drm_sdc.specs.Writing.{total_size};

use crate::put::put_bytes;
use crate::unpack::check_value;
use crate::write_field::{total_size, write_field};
use crate::{Block, NoRoom};
use drm_bits::BitSink;

/// Writes the block, whose data field gets `room` bytes, without four zero bits in front, and gives its bits. The tail
/// isn't written: zeros stand behind the entities, and in the four bits behind the block. The bytes of `into` behind
/// these keep what they were.
pub fn write_block(block: &Block, room: usize, into: &mut [u8]) -> Result<u32, NoRoom>
    requires fit { All EntityFits block.now.entities }
    requires in_range { total_size block.now.entities ≤ usize.MAX }
    requires index { block.now.afs < 2 ^ 4 }
    requires room { room ≤ 1023 }
    requires into { room + 3 ≤ length into.old }
    ensures bits { IfOk result (λ n. n ≡ 8 * room + 20) }
    ensures block { IfOk result (λ n. IsBlock (record { afs = block.now.afs; entities = block.now.entities; tail = replicate (room - total_size block.now.entities) 0 }) (take n (bits_of into.new))) }
    ensures last { IfOk result (λ n. take 4 (drop n (bits_of into.new)) ≡ zeros 4) }
    ensures rest { OnOk result (drop (room + 3) into.new ≡ drop (room + 3) into.old) }
    ensures octets { (i : ℕ) → slice_index into.new i < 2 ^ 8 }

    // It is refused exactly where the entities have more bytes than the field, and then nothing is written.
    ensures no_room { OnErr result (room < total_size block.now.entities) }
    ensures refused { room < total_size block.now.entities → result ≡ Err (record { needed = total_size block.now.entities; room = room }) }
    ensures unchanged { OnErr result (into.new ≡ into.old) }
{
    let entities = block.entities.as_slice();
    let needed = total_size(entities);
    if needed > room {
        return Err(NoRoom { needed, room });
    }
    let mut field = [0; 1023];
    write_field(entities, needed, room, &mut field);
    Ok(frame_field(block.afs, &field[..room], into))
}

/// Writes the block of this data field, without four zero bits in front, and gives its bits. Zeros stand in the four
/// bits behind the block; the bytes of `into` behind these keep what they were.
/// Example: `frame_field(0, &[], into)` writes `01 e0 f0`, and is 20.
pub fn frame_field(afs: u8, field: &[u8], into: &mut [u8]) -> u32
    requires index { afs < 2 ^ 4 }
    requires room { length field.now ≤ 1023 }
    requires into { length field.now + 3 ≤ length into.old }
    ensures bits { result ≡ 8 * length field.now + 20 }
    // Whatever the field has, it stands between the index and its check value; so the bits are the block of what it has.
    ensures framed { (check : List Bool) × IsBlockChecked afs field.now check × (take result (bits_of into.new) ≡ first_form afs field.now check) }
    ensures block { (entities : List Entity) (tail : List ℕ) → IsField entities tail field.now → IsBlock (record { afs = afs; entities = entities; tail = tail }) (take result (bits_of into.new)) }
    ensures last { take 4 (drop result (bits_of into.new)) ≡ zeros 4 }
    ensures rest { drop (length field.now + 3) into.new ≡ drop (length field.now + 3) into.old }
    ensures octets { (i : ℕ) → slice_index into.new i < 2 ^ 8 }
{
    let mut bytes = [0; 1026];
    write_frame(afs, field, &mut bytes);
    let framed = field.len() + 3;
    into[..framed].copy_from_slice(&bytes[..framed]);
    8 * field.len() as u32 + 20
}

// Writes the index, the field, its check value and four zeros at the front.
fn write_frame(afs: u8, field: &[u8], into: &mut [u8; 1026])
    requires index { afs < 2 ^ 4 }
    requires room { length field.now ≤ 1023 }
    ensures frame { (check : List Bool) × IsBlockChecked afs field.now check × (length check ≡ 16) × (bits_of (take (length field.now + 3) into.new) ≡ first_form afs field.now check ++ zeros 4) }
    ensures octets { (i : ℕ) → slice_index into.new i < 2 ^ 8 }
{
    let check = check_value(afs, field);
    let mut sink = BitSink::new(into);
    sink.put_u8(afs, 4);
    put_bytes(&mut sink, field);
    sink.put_u16(check, 16);
    sink.put_u8(0, 4);
}
