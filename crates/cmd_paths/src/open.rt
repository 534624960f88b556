//! The links of a run.

ghost use Rattle.std.specs.Prelude.{◌≡◌, ◌≤◌, ◌++◌, ◌∷◌, [], true, length, map, vec_len, vec_capacity, All, IsErr, IfOk, IfErr};
ghost use Rattle.drm_links.specs.Known.{HasCause, KnownThrough};
ghost use Rattle.drm_links.specs.Dock.{AreDifferent, DockKnownThrough, after_openings};
ghost use Rattle.drm_links.specs.Binding.{BindsFew};
ghost use Rattle.cmd_paths.specs.Opening.{HaveLinks, IsClosed};

use crate::receiver::{PathReceiver, PathSeat, receiver_for};
use drm_bits::NoMemory;
use drm_links::{Addresses, Dock, Link, LinkFault, Opened};
use drm_lists::OwnedList;
use drm_paths::{Path, Paths, Road};
use std::alloc::Global;

/// Takes the memory for jobs at these addresses.
pub(crate) fn room_for<G: Road, L: Link>(
    alloc: Global,
    addresses: &Addresses,
) -> Result<Vec<PathReceiver<G, L>>, NoMemory>
    ensures none { IfOk result (λ room. vec_len room ≡ 0) }
    ensures capacity { IfOk result (λ room. length addresses.now ≤ vec_capacity room) }
{
    Ok(Vec::with_capacity(alloc, addresses.len())?)
}

/// Opens a link at each address, in their order, and gives them to these seats. Where an opening fails no further one is made, and the
/// links that were opened are closed.
pub(crate) fn open_links<G: Road, D: Dock>(
    alloc: Global,
    room: Vec<PathReceiver<G, D::L>>,
    seats: Vec<PathSeat<G>>,
    addresses: &Addresses,
    dock: &mut D,
) -> Result<Vec<PathReceiver<G, D::L>>, LinkFault>
    requires different { AreDifferent addresses.now }
    requires none { vec_len room ≡ 0 }
    requires capacity { length addresses.now ≤ vec_capacity room }
    requires same_count { vec_len seats ≡ length addresses.now }
    requires buffers { All (λ seat. vec_len seat.buffer ≡ 65536) seats.items }
    ensures same_count { IfOk result (λ receivers. vec_len receivers ≡ length addresses.now) }
    ensures paths { IfOk result (λ receivers. map (λ receiver. receiver.path) receivers.items ≡ map (λ seat. seat.path) seats.items) }
    ensures buffers { IfOk result (λ receivers. All (λ receiver. vec_len receiver.buffer ≡ 65536) receivers.items) }
    ensures opened { IfOk result (λ _. KnownThrough (D.known dock.old) (D.known dock.new)
        (λ before after. after ≡ after_openings addresses.now before)) }
    ensures links { IfOk result (λ receivers. DockKnownThrough (D.known dock.old) (D.known dock.new) (λ contents.
        HaveLinks D.L.known contents addresses.now (map (λ receiver. receiver.link) receivers.items))) }
    ensures failed { IfErr result (λ _. KnownThrough (D.known dock.old) (D.known dock.new) (BindsFew addresses.now)) }
    ensures cause { HasCause (D.known dock.old) (D.known dock.new) (IsErr result) }
{
    let mut receivers = room;
    let mut k = 0;
    for seat in seats {
        match dock.bind(*addresses.get(k)) {
            Opened::Link(link) => receivers.push_reserved(receiver_for(seat, link)),
            Opened::Failed => {
                let _ = close_links(alloc, dock, addresses, receivers);
                return Err(LinkFault);
            }
        }
        k += 1;
    }
    Ok(receivers)
}

/// Closes the links of these jobs, in the order of the addresses, and hands on their paths, where there is memory for their list.
pub(crate) fn close_links<G: Road, D: Dock>(
    alloc: Global,
    dock: &mut D,
    addresses: &Addresses,
    receivers: Vec<PathReceiver<G, D::L>>,
) -> Result<Paths<G>, NoMemory>
    requires { vec_len receivers ≤ length addresses.now }
    ensures paths { IfOk result (λ paths. paths ≡ map (λ receiver. receiver.path) receivers.items) }
    ensures closed { KnownThrough (D.known dock.old) (D.known dock.new)
        (IsClosed D.L.known addresses.now (map (λ receiver. receiver.link) receivers.items)) }
    ensures cause { (D.known dock.new).faults ≡ (D.known dock.old).faults }
{
    let mut paths = OwnedList::new(alloc);
    let mut fits = true;
    let mut k = 0;
    for receiver in receivers {
        let PathReceiver { path, link, .. } = receiver;
        dock.close(*addresses.get(k), link);
        fits = put(&mut paths, path, fits);
        k += 1;
    }
    if fits {
        return Ok(paths);
    }
    Err(NoMemory)
}

// Puts a path behind the others. Answers whether all so far found room.
fn put<G: Road>(paths: &mut Paths<G>, path: Path<G>, fits: bool) -> bool
    ensures { result ≡ true → (fits ≡ true) × (paths.new ≡ paths.old ++ path ∷ []) }
{
    match paths.push(path) {
        Ok(()) => fits,
        Err(_) => false,
    }
}
