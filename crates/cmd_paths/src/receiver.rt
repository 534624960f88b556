//! Paths side by side.

ghost use Rattle.std.specs.Prelude.{ℕ, ◌≡◌, ◌<◌, length, map, vec_len, All, IfOk, slice_index_or};
ghost use Rattle.std.specs.List.{list_any};
ghost use Rattle.drm_paths.specs.Reading.{AreReasonable};
ghost use Rattle.cmd_paths.specs.Receivers.{IsPathJobReady, HasPathEnded, has_failed, has_run_out};

use drm_bits::{NoMemory, zeros};
use drm_links::{LONGEST_DATAGRAM, Link};
use drm_paths::{Path, PathEnded, PathOptions, Paths, Road, Shared, run_path};
use std::alloc::Global;
use std::sync::Wait;
use std::thread;
use std::thread::Threads;

/// A path before it has a link, with room for the longest datagram.
#[derive(Drop)]
pub struct PathSeat<G: Road> {
    pub path: Path<G>,
    pub buffer: Vec<u8>,
}

/// A path with its link, and how it ended.
#[derive(Drop)]
pub struct PathReceiver<G: Road, L: Link> {
    pub path: Path<G>,
    pub link: L,
    pub buffer: Vec<u8>,
    pub ended: Option<PathEnded>,
}

/// The most paths of a run, each with a thread.
const MOST_THREADS: usize = 4;

fn seat_for<G: Road>(alloc: Global, path: Path<G>) -> Result<PathSeat<G>, NoMemory>
    ensures path { IfOk result (λ seat. seat.path ≡ path) }
    ensures buffer { IfOk result (λ seat. vec_len seat.buffer ≡ 65536) }
{
    let buffer = zeros(alloc, LONGEST_DATAGRAM)?;
    Ok(PathSeat { path, buffer })
}

/// The seats of these paths, in their order.
pub(crate) fn seats_of<G: Road>(
    alloc: Global,
    paths: Paths<G>,
) -> Result<Vec<PathSeat<G>>, NoMemory>
    ensures paths { IfOk result (λ seats. map (λ seat. seat.path) seats.items ≡ paths) }
    ensures buffers { IfOk result (λ seats. All (λ seat. vec_len seat.buffer ≡ 65536) seats.items) }
{
    let mut seats = Vec::new(alloc);
    for path in paths.into_vec() {
        let seat = seat_for(alloc, path)?;
        let Ok(()) = seats.push(seat) else {
            return Err(NoMemory);
        };
    }
    Ok(seats)
}

/// The job of this seat over this link.
pub(crate) fn receiver_for<G: Road, L: Link>(seat: PathSeat<G>, link: L) -> PathReceiver<G, L>
    ensures path { result.path ≡ seat.path }
    ensures link { result.link ≡ link }
    ensures buffer { result.buffer ≡ seat.buffer }
{
    let PathSeat { path, buffer } = seat;
    PathReceiver {
        path,
        link,
        buffer,
        ended: None,
    }
}

fn run_one<R: Wait, G: Road, L: Link>(
    rt: &R,
    alloc: Global,
    shared: &Shared<G>,
    options: &PathOptions,
    receiver: &mut PathReceiver<G, L>,
)
    requires ready { IsPathJobReady receiver.old }
    requires options { AreReasonable options.now }
    ensures { HasPathEnded L.known options.now receiver.old receiver.new }
{
    let ended = run_path(
        rt,
        alloc,
        &mut receiver.path,
        shared,
        &mut receiver.link,
        options,
        receiver.buffer.as_mut_slice(),
    );
    receiver.ended = Some(ended);
}

/// Runs all paths, in threads.
pub(crate) fn run_all<R: Threads + Wait + Sync, G: Road + Send + Sync, L: Link + Send>(
    rt: &R,
    alloc: Global,
    shared: &Shared<G>,
    options: &PathOptions,
    receivers: &mut [PathReceiver<G, L>],
)
    requires ready { All IsPathJobReady receivers.old }
    requires options { AreReasonable options.now }
    ensures { (k : ℕ) (d : _) → k < length receivers.old
        → HasPathEnded L.known options.now (slice_index_or receivers.old k d) (slice_index_or receivers.new k d) }
{
    thread::for_each_mut(
        rt,
        receivers,
        MOST_THREADS,
        &|_, receiver| run_one(rt, alloc, shared, options, receiver),
    );
}

/// Whether the link of some path failed.
pub(crate) fn some_failed<G: Road, L: Link>(receivers: &[PathReceiver<G, L>]) -> bool
    ensures { result ≡ list_any (λ receiver. has_failed receiver.ended) receivers.now }
{
    receivers.iter().any(|receiver| failed(receiver))
}

fn failed<G: Road, L: Link>(receiver: &PathReceiver<G, L>) -> bool
    ensures { result ≡ has_failed receiver.now.ended }
{
    matches!(receiver.ended, Some(PathEnded::LinkFailed))
}

/// Whether some path had no memory.
pub(crate) fn some_ran_out<G: Road, L: Link>(receivers: &[PathReceiver<G, L>]) -> bool
    ensures { result ≡ list_any (λ receiver. has_run_out receiver.ended) receivers.now }
{
    receivers.iter().any(|receiver| ran_out(receiver))
}

fn ran_out<G: Road, L: Link>(receiver: &PathReceiver<G, L>) -> bool
    ensures { result ≡ has_run_out receiver.now.ended }
{
    matches!(receiver.ended, Some(PathEnded::NoMemory))
}
