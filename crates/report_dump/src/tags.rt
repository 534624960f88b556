//! The lines of the items of a payload.

ghost use Rattle.std.specs.Prelude.{◌≡◌, true, List, All, IfSome, IfNone};
ghost use Rattle.std.specs.Char.{is_ascii_graphic};
ghost use Rattle.std.specs.List.{flat_map};
ghost use Rattle.drm_links.specs.Sink.{WritesWhole};
ghost use Rattle.dcp_tag.specs.Tag.{TagItem};
ghost use Rattle.dcp_tag.specs.PayloadPlace.{left};
ghost use Rattle.dcp_tag.specs.Reading.{GivesItem};
ghost use Rattle.report_dump.specs.PacketContent.{HasNoItem, AreItems};
ghost use Rattle.report_dump.specs.Lines.{name_byte, tag_text};
ghost use Rattle.report_dump.specs.Text.{items_text};

use dcp_tag::{Item, Items};
use drm_links::{Sink, WriteFault, write_all};
use text_output::{Piece, write_pieces};

/// Writes a line for each item, up to one that goes past the end of the payload.
pub(crate) fn write_tags<O: Sink>(out: &mut O, payload: &[u8]) -> Result<(), WriteFault>
    ensures { (items : List TagItem) → AreItems items payload.now → WritesWhole result (O.known out.old) (O.known out.new) (items_text items) }
{
    let mut items = Items::new(payload);
    while let Some(item) = next(&mut items) {
        write_tag(out, &item.name, item.bits)?;
    }
    Ok(())
}

// The next item, unless it goes past the end.
fn next<'a>(items: &mut Items<'a>) -> Option<Item<'a>>
    ensures item { IfSome result (λ item. GivesItem item items.old items.new) }
    ensures none { IfNone result (HasNoItem (left items.old)) }
{
    match items.next_item() {
        Ok(item) => item,
        Err(_) => None,
    }
}

fn write_tag<O: Sink>(out: &mut O, name: &[u8; 4], bits: u32) -> Result<(), WriteFault>
    ensures { WritesWhole result (O.known out.old) (O.known out.new) (tag_text name.now bits) }
{
    if name.iter().all(|byte| byte.is_ascii_graphic()) {
        return write_plain_tag(out, name, bits);
    }
    write_all(out, b"tag ")?;
    write_name(out, name)?;
    write_pieces(
        out,
        &[
            Piece::Words(" "),
            Piece::Number(u64::from(bits)),
            Piece::Words("\n"),
        ],
    )
}

// The same for a name that stands as it is, as most do.
fn write_plain_tag<O: Sink>(out: &mut O, name: &[u8; 4], bits: u32) -> Result<(), WriteFault>
    requires { All (λ byte. is_ascii_graphic byte ≡ true) name.now }
    ensures { WritesWhole result (O.known out.old) (O.known out.new) (tag_text name.now bits) }
{
    write_pieces(
        out,
        &[
            Piece::Words("tag "),
            Piece::Name(*name),
            Piece::Words(" "),
            Piece::Number(u64::from(bits)),
            Piece::Words("\n"),
        ],
    )
}

fn write_name<O: Sink>(out: &mut O, name: &[u8]) -> Result<(), WriteFault>
    ensures { WritesWhole result (O.known out.old) (O.known out.new) (flat_map name_byte name.now) }
{
    for byte in name {
        write_byte(out, *byte)?;
    }
    Ok(())
}

fn write_byte<O: Sink>(out: &mut O, byte: u8) -> Result<(), WriteFault>
    ensures { WritesWhole result (O.known out.old) (O.known out.new) (name_byte byte) }
{
    if byte.is_ascii_graphic() {
        write_all(out, &[byte])
    } else {
        write_pieces(out, &[Piece::Words("\\x"), Piece::Hex(&[byte])])
    }
}
