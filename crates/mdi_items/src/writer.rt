//! A frame, written item by item.

ghost use Rattle.std.specs.Prelude.{◌≡◌, ◌+◌, ◌-◌, ◌*◌, ◌<◌, ◌≤◌, ◌^◌, ◌++◌, [], length, drop, false, replicate};
ghost use Rattle.drm_bits.specs.Bits.{bits_of};
ghost use Rattle.drm_bits.specs.Description.{IsDescription, FitsWidths};
ghost use Rattle.drm_fac.specs.Fac.{FacFits};
ghost use Rattle.dcp_tag.specs.Tag.{bytes_for};
ghost use Rattle.mdi_items.specs.Names.{sdc_, str, robm};

use crate::names::{DLFC, FAC, PTR, ROBM, SDC, SDCI, STREAMS, name_at};
use dcp_tag::write_item;
use drm_fac::{Fac, Mode, encode};
use drm_mux::{MuxDesc, write_sdci};

/// Writes one frame into a buffer: first the head, then the block where there is one, then the streams in order.
#[derive(Drop)]
pub struct MdiWriter<'a> {
    into: &'a mut [u8],
    at: usize,
    // The first place in the order of the names of which an item may still be written.
    next: usize,
    ghost within: { at ≤ length into.now },
}

impl<'a> MdiWriter<'a> {
    ghost use Rattle.mdi_items.specs.Written.{written, behind, next, lender, spelled, whole, block_piece, AreHeadItems, head_length};

    /// A writer into these bytes, which has written nothing.
    pub fn new(into: &'a mut [u8]) -> MdiWriter<'a>
        ensures empty { written result ≡ [] }
        ensures behind { behind result ≡ into.old }
        ensures next { next result ≡ 0 }
        ensures same_reference { lender result ≡ into.entry.ghost_name }
    {
        MdiWriter {
            into,
            at: 0,
            next: PTR,
        }
    }

    /// How many bytes are left. A head takes 63 and three more for each stream, any other item 8 and its value's.
    pub fn room(&self) -> usize
        ensures { result ≡ length (behind self.now) }
    {
        self.into.len() - self.at
    }

    /// Writes the five items that each frame has: `*ptr` of revision 0.0, `dlfc`, `fac_`, `sdci` and `robm`.
    pub fn head(&mut self, dlfc: u32, fac: &Fac, mux: &MuxDesc, mode: Mode)
        requires first { next self.old ≡ 0 }
        requires empty { written self.old ≡ [] }
        requires fac { FacFits fac.now }
        requires description { IsDescription mux.now }
        requires widths { FitsWidths mux.now }
        requires room { head_length mux.now.count ≤ length (behind self.old) }
        ensures written { AreHeadItems dlfc fac.now mux.now mode (written self.new) }
        ensures behind { behind self.new ≡ drop (head_length mux.now.count) (behind self.old) }
        ensures next { next self.new ≡ robm + 1 }
        ensures same_reference { lender self.new ≡ lender self.old }
    {
        let mut description = [0; 13];
        let len = write_sdci(mux, &mut description);
        self.bytes(PTR, b"DMDI\0\0\0\0");
        self.bytes(DLFC, &dlfc.to_be_bytes());
        self.bytes(FAC, &encode(fac));
        self.bytes(SDCI, &description[..len]);
        self.bytes(ROBM, &[mode.code()]);
    }

    /// Writes the SDC block, which has so many bits.
    pub fn block(&mut self, value: &[u8], bits: u32)
        requires order { next self.old ≡ sdc_ }
        requires size { length value.now ≡ bytes_for bits }
        requires padding { drop bits (bits_of value.now) ≡ replicate (8 * length value.now - bits) false }
        requires room { 8 + length value.now ≤ length (behind self.old) }
        ensures written { written self.new ≡ written self.old ++ spelled (block_piece bits value.now) }
        ensures behind { behind self.new ≡ drop (8 + length value.now) (behind self.old) }
        ensures next { next self.new ≡ sdc_ + 1 }
        ensures same_reference { lender self.new ≡ lender self.old }
    {
        self.item(SDC, bits, value);
    }

    /// Writes the bytes of stream `k`.
    pub fn stream(&mut self, k: u8, bytes: &[u8])
        requires stream { k < 4 }
        requires head { sdc_ ≤ next self.old }
        requires order { next self.old ≤ str k }
        requires within_limit { length bytes.now < 2 ^ 29 }
        requires room { 8 + length bytes.now ≤ length (behind self.old) }
        ensures written { written self.new ≡ written self.old ++ spelled (whole (str k) bytes.now) }
        ensures behind { behind self.new ≡ drop (8 + length bytes.now) (behind self.old) }
        ensures next { next self.new ≡ str k + 1 }
        ensures same_reference { lender self.new ≡ lender self.old }
    {
        self.bytes(STREAMS + usize::from(k), bytes);
    }

    /// Ends the frame, and gives how many bytes it has.
    pub fn end(self) -> usize
        ensures { result ≡ length (written self.entry) }
    {
        self.at
    }

    // Writes an item of whole bytes.
    fn bytes(&mut self, place: usize, value: &[u8])
        requires place { place < 10 }
        requires within_limit { length value.now < 2 ^ 29 }
        requires room { 8 + length value.now ≤ length (behind self.old) }
        ensures written { written self.new ≡ written self.old ++ spelled (whole place value.now) }
        ensures behind { behind self.new ≡ drop (8 + length value.now) (behind self.old) }
        ensures remaining { length (behind self.new) + (8 + length value.now) ≡ length (behind self.old) }
        ensures next { next self.new ≡ place + 1 }
        ensures same_reference { lender self.new ≡ lender self.old }
    {
        self.item(place, u8::BITS * value.len() as u32, value);
    }

    fn item(&mut self, place: usize, bits: u32, value: &[u8])
        requires place { place < 10 }
        requires size { length value.now ≡ bytes_for bits }
        requires padding { drop bits (bits_of value.now) ≡ replicate (8 * length value.now - bits) false }
        requires room { 8 + length value.now ≤ length (behind self.old) }
        ensures written { written self.new ≡ written self.old ++ spelled (record { place = place; bits = bits; value = value.now }) }
        ensures behind { behind self.new ≡ drop (8 + length value.now) (behind self.old) }
        ensures remaining { length (behind self.new) + (8 + length value.now) ≡ length (behind self.old) }
        ensures next { next self.new ≡ place + 1 }
        ensures same_reference { lender self.new ≡ lender self.old }
    {
        self.at = write_item(self.into, self.at, name_at(place), bits, value);
        self.next = place + 1;
    }
}
