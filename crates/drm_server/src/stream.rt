//! The items of the streams.

ghost use Rattle.std.specs.Prelude.{◌≡◌, ◌+◌, ◌*◌, ◌<◌, ◌≤◌, ◌++◌, All, Some, length, take, drop, map, replicate, sum_by, false};
ghost use Rattle.mdi_items.specs.Names.{sdc_, str};
ghost use Rattle.mdi_items.specs.Written.{written, behind, next, lender, spelled, spelling, whole, stream_pieces};
ghost use Rattle.drm_schedule.specs.Ranges.{StreamInLines};
ghost use Rattle.drm_schedule.specs.Sizes.{stream_size};
ghost use Rattle.drm_schedule.specs.Contents.{stream_bytes};
ghost use Rattle.live_streams.specs.Live.{size_from, streams_with};
ghost use Rattle.drm_server.specs.Placing.{IsBefore, IsBeforeStream, IsStreamReady, AreReady};

use drm_schedule::{Content, Live, Stream};
use mdi_items::MdiWriter;

/// The most bytes that the parts of a stream have in a frame.
pub const MOST: usize = 2 * 4095;

/// Writes the streams of a configuration in the frame of it that has this number, from 0, by way of this room. The live ones have
/// the bytes of the piece, one after another.
pub fn write_streams(
    writer: &mut MdiWriter<'_>,
    streams: &[Stream],
    frame: u32,
    live: &Live,
    piece: &[u8],
    scratch: &mut [u8; MOST],
)
    requires place { IsBefore (str 0) (sum_by (λ s. 8 + stream_size s) streams.now) writer.old }
    requires ready { AreReady frame streams.now }
    requires piece { length piece.now ≡ size_from live.now 0 streams.now }
    ensures written { written writer.new ≡ written writer.old
        ++ spelling (stream_pieces 0 (streams_with live.now (Some piece.now) (map (stream_bytes frame) streams.now))) }
    ensures remaining { length (behind writer.new) + sum_by (λ s. 8 + stream_size s) streams.now ≡ length (behind writer.old) }
    ensures same_reference { lender writer.new ≡ lender writer.old }
{
    let mut left = piece;
    for (k, stream) in streams.iter().enumerate() {
        if live.has(k) {
            left = write_live(writer, k as u8, stream, left);
            continue;
        }
        write_stream(writer, k as u8, stream, frame, scratch);
    }
}

// Writes the first bytes of a piece as those of stream `k`, and gives what is left of it.
fn write_live<'p>(writer: &mut MdiWriter<'_>, k: u8, stream: &Stream, piece: &'p [u8]) -> &'p [u8]
    requires place { IsBeforeStream k (8 + stream_size stream.now) writer.old }
    requires fits { StreamInLines stream.now }
    requires enough { stream_size stream.now ≤ length piece.now }
    ensures written { written writer.new ≡ written writer.old ++ spelled (whole (str k) (take (stream_size stream.now) piece.now)) }
    ensures remaining { length (behind writer.new) + (8 + stream_size stream.now) ≡ length (behind writer.old) }
    ensures next { next writer.new ≡ str k + 1 }
    ensures same_reference { lender writer.new ≡ lender writer.old }
    ensures rest { result.now ≡ drop (stream_size stream.now) piece.now }
{
    let size = usize::from(stream.a) + usize::from(stream.b);
    let (bytes, rest) = piece.split_at(size);
    writer.stream(k, bytes);
    rest
}

// Writes the bytes of stream `k`.
fn write_stream(
    writer: &mut MdiWriter<'_>,
    k: u8,
    stream: &Stream,
    frame: u32,
    scratch: &mut [u8; MOST],
)
    requires place { IsBeforeStream k (8 + stream_size stream.now) writer.old }
    requires ready { IsStreamReady frame stream.now }
    ensures written { written writer.new ≡ written writer.old ++ spelled (whole (str k) (stream_bytes frame stream.now)) }
    ensures remaining { length (behind writer.new) + (8 + stream_size stream.now) ≡ length (behind writer.old) }
    ensures next { next writer.new ≡ str k + 1 }
    ensures same_reference { lender writer.new ≡ lender writer.old }
{
    let size = usize::from(stream.a) + usize::from(stream.b);
    match &stream.content {
        Content::Fill(byte) => write_fill(writer, k, *byte, size, scratch),
        Content::File { bytes, .. } => {
            writer.stream(k, part(bytes.as_slice(), frame as usize, size));
        }
    }
}

// Writes one byte so many times.
fn write_fill(writer: &mut MdiWriter<'_>, k: u8, byte: u8, size: usize, scratch: &mut [u8; MOST])
    requires within_limit { size ≤ 8190 }
    requires place { IsBeforeStream k (8 + size) writer.old }
    ensures written { written writer.new ≡ written writer.old ++ spelled (whole (str k) (replicate size byte)) }
    ensures remaining { length (behind writer.new) + (8 + size) ≡ length (behind writer.old) }
    ensures next { next writer.new ≡ str k + 1 }
    ensures same_reference { lender writer.new ≡ lender writer.old }
{
    let bytes = &mut scratch[..size];
    bytes.fill(byte);
    writer.stream(k, bytes);
}

// The part of a file with this number, where each one has `size` bytes.
fn part(bytes: &[u8], frame: usize, size: usize) -> &[u8]
    requires { frame * size + size ≤ length bytes.now }
    ensures part { result.now ≡ take size (drop (frame * size) bytes.now) }
    ensures size { length result.now ≡ size }
{
    &bytes[frame * size..][..size]
}
