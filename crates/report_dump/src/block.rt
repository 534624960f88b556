//! The lines of a block of the Service Description Channel (ES 201 980).

ghost use Rattle.std.specs.Prelude.{◌≡◌, ◌↔◌, ◌+◌, ◌*◌, ◌<◌, ◌≤◌, ◌⊎◌, ℕ, List, length, take, drop, IsTrue, IfSome, IfNone, OnOk};
ghost use Rattle.drm_links.specs.Sink.{WritesWhole};
ghost use Rattle.drm_sdc.specs.declared.block.Block.{Block};
ghost use Rattle.drm_sdc.specs.declared.entity.Entity.{Entity};
ghost use Rattle.drm_sdc.specs.Block.{IsBlock};
ghost use Rattle.dcp_tag.specs.Tag.{bytes_for};
ghost use Rattle.report_dump.specs.Block.{IsSpanOfBlock, HoldsBlock, IsEntityHead, IsZero, head_text};
ghost use Rattle.report_dump.specs.PacketContent.{bits_at};
ghost use Rattle.report_dump.specs.Lines.{kind_text, tail_text};
ghost use Rattle.report_dump.specs.Text.{field_text};

use drm_bits::Bits;
use drm_links::{Sink, WriteFault, write_all};
use mdi_items::SdcSpan;
use report_text::{block_bits, digit, write_digits};
use text_output::{Piece, write_pieces};

/// Writes a line for each entity of the block, and one for its tail.
pub(crate) fn write_block<O: Sink>(
    out: &mut O,
    payload: &[u8],
    span: &SdcSpan,
) -> Result<(), WriteFault>
    requires inside { span.now.at + bytes_for span.now.bits ≤ length payload.now }
    requires is_block { IsSpanOfBlock payload.now span.now }
    ensures { (block : Block) → IsBlock block (bits_at payload.now span.now)
        → WritesWhole result (O.known out.old) (O.known out.new) (field_text block.entities block.tail) }
{
    let mut bits = block_bits(payload, span);
    let _index = bits.take_u8(4);
    write_field(out, &mut bits, usize::from(span.info.room))
}

// Writes the lines of a data field of so many bytes.
fn write_field<O: Sink>(out: &mut O, bits: &mut Bits<'_>, room: usize) -> Result<(), WriteFault>
    requires field { (entities : List Entity) × (tail : List ℕ) × HoldsBlock entities tail room bits.old }
    ensures { (entities : List Entity) (tail : List ℕ) → HoldsBlock entities tail room bits.old
        → WritesWhole result (O.known out.old) (O.known out.new) (field_text entities tail) }
{
    let mut left = room;
    while let Some(head) = next_head(bits, left) {
        write_entity(out, &head, bits)?;
        left -= 2 + usize::from(head.len);
    }
    write_tail(out, left)
}

/// The first two bytes of an entity.
#[derive(Drop)]
pub(crate) struct EntityHead {
    /// How many bytes the body has behind its four bits.
    pub len: u8,
    pub version: bool,
    pub kind: u8,
    /// The four bits with which the body begins.
    pub nibble: u8,
}

// Takes the head of the next entity, or None where the tail begins.
fn next_head(bits: &mut Bits<'_>, left: usize) -> Option<EntityHead>
    requires { 8 * left ≤ length bits.old }
    ensures head { IfSome result (λ h. IsEntityHead h bits.old) }
    ensures found { IfSome result (λ h. (2 ≤ left) × (¬ IsZero h)) }
    ensures nibble { IfSome result (λ h. h.nibble < 16) }
    ensures rest { IfSome result (λ h. bits.new ≡ drop 16 bits.old) }
    ensures tail { IfNone result ((left < 2) ⊎ ((h : EntityHead) × IsEntityHead h bits.old × IsZero h)) }
{
    if left < 2 {
        return None;
    }
    let head = take_head(bits);
    if is_zero(&head) {
        return None;
    }
    Some(head)
}

fn take_head(bits: &mut Bits<'_>) -> EntityHead
    requires { 16 ≤ length bits.old }
    ensures head { IsEntityHead result bits.old }
    ensures nibble { result.nibble < 16 }
    ensures rest { bits.new ≡ drop 16 bits.old }
{
    EntityHead {
        len: bits.take_u8(7),
        version: bits.take_flag(),
        kind: bits.take_u8(4),
        nibble: bits.take_u8(4),
    }
}

fn is_zero(head: &EntityHead) -> bool
    ensures { IsTrue result ↔ IsZero head.now }
{
    head.len == 0 && !head.version && head.kind == 0 && head.nibble == 0
}

// Writes the line of an entity, and takes its body.
fn write_entity<O: Sink>(
    out: &mut O,
    head: &EntityHead,
    bits: &mut Bits<'_>,
) -> Result<(), WriteFault>
    requires nibble { head.now.nibble < 16 }
    requires body { 8 * head.now.len ≤ length bits.old }
    ensures written { WritesWhole result (O.known out.old) (O.known out.new) (head_text head.now (take (8 * head.now.len) bits.old)) }
    ensures rest { OnOk result (bits.new ≡ drop (8 * head.now.len) bits.old) }
{
    write_kind(out, head)?;
    write_all(out, &[digit(u64::from(head.nibble))])?;
    write_digits(out, bits, 2 * usize::from(head.len))?;
    write_all(out, b"\n")
}

fn write_kind<O: Sink>(out: &mut O, head: &EntityHead) -> Result<(), WriteFault>
    ensures { WritesWhole result (O.known out.old) (O.known out.new) (kind_text head.now.kind head.now.version) }
{
    write_pieces(
        out,
        &[
            Piece::Words("sdc "),
            Piece::Number(u64::from(head.kind)),
            Piece::Words(" "),
            Piece::Number(u64::from(head.version)),
            Piece::Words(" "),
        ],
    )
}

fn write_tail<O: Sink>(out: &mut O, len: usize) -> Result<(), WriteFault>
    ensures { WritesWhole result (O.known out.old) (O.known out.new) (tail_text len) }
{
    write_pieces(
        out,
        &[
            Piece::Words("sdctail "),
            Piece::Number(len as u64),
            Piece::Words("\n"),
        ],
    )
}
