//! The five items that each frame has.

ghost use Rattle.std.specs.Prelude.{◌≡◌, ◌≤◌, ◌∷◌, ◌↔◌, [], List, ℕ, length, take, codes, slice_range, IsTrue, OnOk, IfOk, IfErr};
ghost use Rattle.std.specs.Int.{w16, w32, from_be_bytes};
ghost use Rattle.drm_bits.specs.Description.{FitsWidths};
ghost use Rattle.drm_fac.specs.Fac.{IsFac, FacFits};
ghost use Rattle.drm_fac.specs.Mode.{mode_code};
ghost use Rattle.mdi_items.specs.Names.{ptr, dlfc, fac_, robm};
ghost use Rattle.mdi_items.specs.Frame.{AreInside, HasBytes};
ghost use Rattle.mdi_items.specs.Table.{NoneApplies, IsFirstFault, HasDescription, ptr_rows, dlfc_rows, fac_rows, sdci_rows, robm_rows};

use crate::MdiFault;
use crate::known::KnownItems;
use crate::names::{DLFC, FAC, PTR, ROBM, SDCI};
use crate::value::{bytes_at, bytes_of, find};
use drm_fac::{Fac, Mode, decode};
use drm_mux::{MuxDesc, read_sdci};

/// The major and the minor revision of the protocol, out of `*ptr`.
pub(crate) fn read_revision(payload: &[u8], known: &KnownItems) -> Result<(u16, u16), MdiFault>
    requires { AreInside (length payload.now) known.now }
    ensures value { IfOk result (λ r. (bytes : List ℕ) × HasBytes payload.now known.now ptr bytes
        × (r.0 ≡ from_be_bytes w16 (slice_range bytes 4 6)) × (r.1 ≡ from_be_bytes w16 (slice_range bytes 6 8))) }
    ensures right { OnOk result (NoneApplies payload.now known.now ptr_rows) }
    ensures fault { IfErr result (IsFirstFault payload.now known.now ptr_rows) }
{
    let bytes = bytes_of(payload, known, PTR, 64)?;
    if !is_protocol(bytes) {
        return Err(MdiFault::Protocol);
    }
    Ok(revision(bytes))
}

fn is_protocol(bytes: &[u8]) -> bool
    requires { 4 ≤ length bytes.now }
    ensures { IsTrue result ↔ (take 4 bytes.now ≡ codes "DMDI") }
{
    bytes.starts_with(b"DMDI")
}

// The two numbers behind the protocol.
fn revision(bytes: &[u8]) -> (u16, u16)
    requires { length bytes.now ≡ 8 }
    ensures major { result.0 ≡ from_be_bytes w16 (slice_range bytes.now 4 6) }
    ensures minor { result.1 ≡ from_be_bytes w16 (slice_range bytes.now 6 8) }
{
    let major = u16::from_be_bytes([bytes[4], bytes[5]]);
    let minor = u16::from_be_bytes([bytes[6], bytes[7]]);
    (major, minor)
}

/// The count of the logical frame, out of `dlfc`.
pub(crate) fn read_count(payload: &[u8], known: &KnownItems) -> Result<u32, MdiFault>
    requires { AreInside (length payload.now) known.now }
    ensures value { IfOk result (λ n. (bytes : List ℕ) × HasBytes payload.now known.now dlfc bytes × (n ≡ from_be_bytes w32 bytes)) }
    ensures right { OnOk result (NoneApplies payload.now known.now dlfc_rows) }
    ensures fault { IfErr result (IsFirstFault payload.now known.now dlfc_rows) }
{
    let bytes = bytes_of(payload, known, DLFC, 32)?;
    Ok(u32::from_be_bytes([bytes[0], bytes[1], bytes[2], bytes[3]]))
}

/// The FAC and its bytes, out of `fac_`, which must not be of hierarchical modulation.
pub(crate) fn read_fac(payload: &[u8], known: &KnownItems) -> Result<([u8; 9], Fac), MdiFault>
    requires { AreInside (length payload.now) known.now }
    ensures bytes { IfOk result (λ r. HasBytes payload.now known.now fac_ r.0) }
    ensures fac { IfOk result (λ r. IsFac r.1 r.0) }
    ensures fits { IfOk result (λ r. FacFits r.1) }
    ensures right { OnOk result (NoneApplies payload.now known.now fac_rows) }
    ensures fault { IfErr result (IsFirstFault payload.now known.now fac_rows) }
{
    let bytes = nine(bytes_of(payload, known, FAC, 72)?);
    let fac = match decode(&bytes) {
        Ok(fac) => fac,
        Err(fault) => return Err(MdiFault::Fac(fault)),
    };
    let msc = fac.channel.msc;
    if msc == 1 || msc == 2 {
        return Err(MdiFault::Hierarchical { msc });
    }
    Ok((bytes, fac))
}

fn nine(bytes: &[u8]) -> [u8; 9]
    requires { length bytes.now ≡ 9 }
    ensures { result ≡ bytes.now }
{
    let mut nine = [0; 9];
    nine.copy_from_slice(bytes);
    nine
}

/// The multiplex description, out of `sdci`.
pub(crate) fn read_description(payload: &[u8], known: &KnownItems) -> Result<MuxDesc, MdiFault>
    requires { AreInside (length payload.now) known.now }
    ensures value { IfOk result (HasDescription payload.now known.now) }
    ensures fits { IfOk result FitsWidths }
    ensures right { OnOk result (NoneApplies payload.now known.now sdci_rows) }
    ensures fault { IfErr result (IsFirstFault payload.now known.now sdci_rows) }
{
    let found = find(known, SDCI)?;
    match read_sdci(bytes_at(payload, found), found.bits) {
        Ok(desc) => Ok(desc),
        Err(fault) => Err(MdiFault::Mux(fault)),
    }
}

/// The robustness mode, out of `robm`.
pub(crate) fn read_mode(payload: &[u8], known: &KnownItems) -> Result<Mode, MdiFault>
    requires { AreInside (length payload.now) known.now }
    ensures value { IfOk result (λ mode. HasBytes payload.now known.now robm (mode_code mode ∷ [])) }
    ensures right { OnOk result (NoneApplies payload.now known.now robm_rows) }
    ensures fault { IfErr result (IsFirstFault payload.now known.now robm_rows) }
{
    let bytes = bytes_of(payload, known, ROBM, 8)?;
    let value = bytes[0];
    match Mode::from_code(value) {
        Some(mode) => Ok(mode),
        None => Err(MdiFault::Mode { value }),
    }
}
