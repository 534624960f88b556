//! The SDC block of a frame.

ghost use Rattle.std.specs.Prelude.{◌≡◌, ◌≢◌, ◌↔◌, Some, length, OnOk, IfOk, IfErr, IfSome, IfNone, IsTrue};
ghost use Rattle.mdi_items.specs.Frame.{AreInside, IsBlockSpan, IsFirstOfSuperFrame, bits_there};
ghost use Rattle.mdi_items.specs.Table.{NoneApplies, IsFirstFault, HasFac, sdc_rows};

use crate::known::{ItemSpan, KnownItems};
use crate::names::{SDC, name_at};
use crate::value::bytes_at;
use crate::{MdiFault, SdcSpan};
use drm_fac::Fac;
use drm_sdc::check_block;

/// The block out of `sdc_`, which the first frame of a super frame has and no other one.
pub(crate) fn read_block_span(
    payload: &[u8],
    known: &KnownItems,
    fac: &Fac,
) -> Result<Option<SdcSpan>, MdiFault>
    requires inside { AreInside (length payload.now) known.now }
    requires fac { HasFac payload.now known.now fac.now }
    ensures value { IfOk result (IsBlockSpan payload.now known.now) }
    ensures right { OnOk result (NoneApplies payload.now known.now sdc_rows) }
    ensures fault { IfErr result (IsFirstFault payload.now known.now sdc_rows) }
{
    let first = is_first(fac);
    let Some(found) = with_bits(known[SDC]) else {
        if first {
            return Err(MdiFault::Absent { name: name_at(SDC) });
        }
        return Ok(None);
    };
    let (at, bits) = (found.at, found.bits);
    if !first {
        return Err(MdiFault::ItemLength {
            name: name_at(SDC),
            bits,
        });
    }
    match check_block(bytes_at(payload, found), bits) {
        Ok(info) => Ok(Some(SdcSpan { at, bits, info })),
        Err(fault) => Err(MdiFault::Sdc(fault)),
    }
}

// Whether the frame is the first one of its super frame.
fn is_first(fac: &Fac) -> bool
    ensures { IsTrue result ↔ IsFirstOfSuperFrame fac.now }
{
    fac.channel.identity == 0 || fac.channel.identity == 3
}

// The item, where it is there and has bits.
fn with_bits(there: Option<ItemSpan>) -> Option<ItemSpan>
    ensures found { IfSome result (λ found. (there ≡ Some found) × (found.bits ≢ 0)) }
    ensures none { IfNone result (bits_there there ≡ 0) }
{
    match there {
        Some(found) if found.bits > 0 => Some(found),
        _ => None,
    }
}
