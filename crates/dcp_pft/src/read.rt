//! A fragment, read.

ghost use Rattle.std.specs.Prelude.{◌≡◌, ◌≤◌, ◌+◌, ◌/◌, List, ℕ, length, IfOk, IfErr, IsOkAnd, OnOk, MatchBool, IsSomeAnd, IfSome};
ghost use Rattle.drm_bits.specs.Crc.{IsCheckOf};
ghost use Rattle.dcp_pft.specs.Head.{PftFragment};
ghost use Rattle.dcp_pft.specs.Faults.{IsFault, IsFirstRow, NoneOf, table, payload, described, head_size, checked_bytes, check_value};
ghost use Rattle.dcp_pft.specs.Reading.{pft_of, IsPft, IsHeadOf, size_rows, check_rows, head_rows, number_rows, JudgesCode};

use crate::head::{CHECK_BYTES, LEAST_HEAD, PftHead, head_of, payload_size, size_of_head};
use crate::{Fragment, MOST_CARRIED, MOST_FRAGMENTS, PftFault, Rs};
use drm_bits::compare_crc16;

/// Of a chunk without its parity.
const MOST_CHUNK: u8 = 207;

const PARITY_BYTES: u32 = 48;

/// The fragment that this datagram is, all of it, or the first fault.
pub fn read_fragment(datagram: &[u8]) -> Result<Fragment<'_>, PftFault>
    // What is read is the fragment, and what is a fragment is read.
    ensures found { IfOk result (λ f. IsPft (pft_of f) datagram.now) }
    ensures only { (f : PftFragment) → IsPft f datagram.now → IsOkAnd result (λ given. pft_of given ≡ f) }
    // A fault is the first one, and where there is a fault it is answered.
    ensures fault { IfErr result (λ fault. IsFault fault datagram.now) }
    ensures faults { (fault : PftFault) → IsFault fault datagram.now → result ≡ Err fault }
    // The bytes that are lent.
    ensures lent { IfOk result (λ f. f.payload.now ≡ payload datagram.now) }
{
    let head = read_head(datagram)?;
    Ok(Fragment {
        seq: head.seq,
        index: head.index,
        count: head.count,
        rs: head.rs,
        addr: head.addr,
        payload: &datagram[size_of_head(datagram)..],
    })
}

/// The bytes of the fragment that begins with these, by its header: all that is read is the header.
/// Example: `size_by_head(b"PF\x12\x34\0\0\x01\0\0\x03\0\x05J\x93")` is `Ok(19)`: 14 bytes of header, and 5 of payload.
pub fn size_by_head(front: &[u8]) -> Result<usize, PftFault>
    ensures fault { IfErr result (λ fault. IsFirstRow head_rows fault front.now) }
    ensures right { OnOk result (NoneOf head_rows front.now) }
    ensures check { OnOk result (IsCheckOf (checked_bytes front.now) (check_value front.now)) }
    ensures size { IfOk result (λ size. size ≡ head_size front.now + described front.now) }
{
    let size = whole_head(front)?;
    compare(front, size)?;
    Ok(size + usize::from(payload_size(front)))
}

// The header, where nothing is refused.
fn read_head(datagram: &[u8]) -> Result<PftHead, PftFault>
    ensures fault { IfErr result (λ fault. IsFault fault datagram.now) }
    ensures right { OnOk result (NoneOf table datagram.now) }
    ensures check { OnOk result (IsCheckOf (checked_bytes datagram.now) (check_value datagram.now)) }
    ensures head { IfOk result (λ head. IsHeadOf head datagram.now) }
{
    let size = whole_head(datagram)?;
    compare(datagram, size)?;
    let head = head_of(datagram);
    judge(&head, datagram)?;
    Ok(head)
}

// The size of the header, where all of it stands there.
fn whole_head(datagram: &[u8]) -> Result<usize, PftFault>
    ensures fault { IfErr result (λ fault. IsFirstRow size_rows fault datagram.now) }
    ensures right { OnOk result (NoneOf size_rows datagram.now) }
    ensures size { IfOk result (λ size. size ≡ head_size datagram.now) }
{
    if !datagram.starts_with(b"PF") {
        return Err(PftFault::Sync);
    }
    if datagram.len() < LEAST_HEAD {
        return Err(PftFault::HeadCut);
    }
    let size = size_of_head(datagram);
    if datagram.len() < size {
        Err(PftFault::HeadCut)
    } else {
        Ok(size)
    }
}

// Whether the check value is that of the header before it.
fn compare(datagram: &[u8], size: usize) -> Result<(), PftFault>
    requires whole { head_size datagram.now ≤ length datagram.now }
    requires size { size ≡ head_size datagram.now }
    ensures fault { IfErr result (λ fault. IsFirstRow check_rows fault datagram.now) }
    ensures right { OnOk result (NoneOf check_rows datagram.now) }
    ensures check { OnOk result (IsCheckOf (checked_bytes datagram.now) (check_value datagram.now)) }
{
    let (front, check) = datagram[..size].split_at(size - CHECK_BYTES);
    match compare_crc16(front, check) {
        Ok(()) => Ok(()),
        Err(_) => Err(PftFault::HeadCrc),
    }
}

// Whether the numbers of the header go together with each other and with the bytes behind it.
fn judge(head: &PftHead, datagram: &[u8]) -> Result<(), PftFault>
    requires least { 14 ≤ length datagram.now }
    requires whole { head_size datagram.now ≤ length datagram.now }
    requires head { IsHeadOf head.now datagram.now }
    ensures fault { IfErr result (λ fault. IsFirstRow number_rows fault datagram.now) }
    ensures right { OnOk result (NoneOf number_rows datagram.now) }
{
    if head.count == 0 {
        return Err(PftFault::Count);
    }
    if head.index >= head.count {
        return Err(PftFault::Index);
    }
    if usize::from(head.len) != datagram.len() - size_of_head(datagram) {
        return Err(PftFault::PlenMismatch);
    }
    judge_code(head.rs)?;
    if head.count > MOST_FRAGMENTS {
        return Err(PftFault::TooMany);
    }
    let size = head.count * u32::from(head.len);
    if size > MOST_CARRIED {
        return Err(PftFault::TooLarge);
    }
    if has_no_chunk(size, head.rs) {
        return Err(PftFault::Chunks);
    }
    Ok(())
}

// Whether the chunks of the code, if there is one, have a length that is read, and the last one a fill.
fn judge_code(rs: Option<Rs>) -> Result<(), PftFault>
    ensures { JudgesCode result rs }
{
    let Some(rs) = rs else {
        return Ok(());
    };
    if rs.k == 0 || rs.k > MOST_CHUNK {
        return Err(PftFault::RsK);
    }
    if rs.z >= rs.k {
        return Err(PftFault::RsZ);
    }
    Ok(())
}

// Whether there is a code, and so many bytes have no chunk of it with its parity.
fn has_no_chunk(size: u32, rs: Option<Rs>) -> bool
    ensures { MatchBool result (IsSomeAnd rs (λ rs. size / (rs.k + 48) ≡ 0)) (IfSome rs (λ rs. rs.k + 48 ≤ size)) }
{
    match rs {
        Some(rs) => size / (u32::from(rs.k) + PARITY_BYTES) == 0,
        None => false,
    }
}
