//! The command `serve`.

ghost use Rattle.std.specs.Prelude.{true, false, ◌≡◌, ◌≤◌, length, IsErrOf};
ghost use Rattle.drm_links.specs.Known.{HasCause, IfBothKnown};
ghost use Rattle.drm_links.specs.Dock.{AreDifferent};
ghost use Rattle.drm_links.specs.Gathering.{NothingSent};
ghost use Rattle.cmd_faults.specs.Causes.{OneFailed, OpeningFailed};
ghost use Rattle.cmd_serve.specs.Live.{LiveServeRun, LiveSendRun};
ghost use Rattle.live_server.specs.Loading.{IsFed};
ghost use Rattle.cmd_serve.specs.Send.{AreUp, IsOneDown};
ghost use Rattle.cmd_serve.specs.OverGroup.{OverGroup};

use cmd_faults::Fault;
use cmd_load::read_schedule;
use drm_links::{Addresses, Dock, GatheredGroup, Group, Shelf, Sink, Source};
use drm_schedule::Live;
use drm_server::{Server, Stretch, first_ones_are_prefix, one_delivery};
use live_server::{piece_room, serve_live_links, serve_live_sink};
use live_streams::input_makes_a_schedule;
use std::alloc::Global;

/// Reads a schedule, and writes the datagrams of these super frames as a capture, where the live streams take their bytes from input. Answers whether each frame that asks for bytes had them. Where no stream is live input is left alone.
pub fn serve<S: Shelf, I: Source, O: Sink>(
    alloc: Global,
    name: &str,
    stretch: Stretch,
    live: &Live,
    shelf: &mut S,
    input: &mut I,
    out: &mut O,
) -> Result<bool, Fault>
    ensures run { LiveServeRun name.now stretch live.now result S.known shelf.old shelf.new
        I.known input.old input.new O.known out.old out.new }
    ensures nothing { IsFed live.now input.old input.new result }
    // The words were judged before, and memory is taken before the first read of input and before the first write.
    ensures link { IsErrOf result Fault.Link → ⊥ }
    ensures words { IsErrOf result Fault.Words → ⊥ }
    ensures memory { IsErrOf result Fault.NoMemory → (input.new ≡ input.old) × (out.new ≡ out.old) }
    ensures read { OneFailed (I.known input.old) (I.known input.new) (S.known shelf.old) (S.known shelf.new)
        (IsErrOf result Fault.Read) }
    ensures write { HasCause (O.known out.old) (O.known out.new) (IsErrOf result Fault.Write) }
{
    // For its clause alone: a schedule with bytes of input is valid.
    input_makes_a_schedule();
    let schedule = read_schedule(alloc, shelf, name)?;
    let mut server = Server::make(alloc, &schedule)?;
    let mut scratch = piece_room(alloc)?;
    serve_live_sink(&mut server, stretch, live, input, &mut scratch, out)
}

/// Opens a link to each address, reads a schedule, sends the datagrams of these super frames over each of the links, frame by frame,
/// where the live streams take their bytes from input, and closes them. Before each frame but the first a link rests for `pace`
/// milliseconds. A link that fails ends no other. Answers whether each frame that asks for bytes had them.
pub fn send<S: Shelf, I: Source, D: Dock>(
    alloc: Global,
    name: &str,
    to: &Addresses,
    pace: u32,
    stretch: Stretch,
    live: &Live,
    shelf: &mut S,
    input: &mut I,
    dock: &mut D,
) -> Result<bool, Fault>
    requires at_least_one { 1 ≤ length to.now }
    requires different { AreDifferent to.now }
    ensures run { LiveSendRun name.now to.now pace stretch live.now result S.known shelf.old shelf.new
        I.known input.old input.new D.known dock.old dock.new }
    ensures nothing { IsFed live.now input.old input.new result }
    // After want of memory nothing was read or sent. The words were judged before, and nothing is written.
    ensures memory { IsErrOf result Fault.NoMemory → input.new ≡ input.old }
    ensures unsent { IsErrOf result Fault.NoMemory
        → IfBothKnown (D.known dock.old) (D.known dock.new) NothingSent }
    // A failed link is told before a failed read of input.
    ensures read { (IsErrOf result Fault.Link → ⊥) → OneFailed (I.known input.old) (I.known input.new)
        (S.known shelf.old) (S.known shelf.new) (IsErrOf result Fault.Read) }
    ensures opening { OpeningFailed (D.known dock.old) (D.known dock.new) (IsErrOf result Fault.Link) }
    ensures words { IsErrOf result Fault.Words → ⊥ }
    ensures write { IsErrOf result Fault.Write → ⊥ }
{
    // For their clauses alone: a schedule has one list of datagrams. The calls do nothing.
    one_delivery();
    first_ones_are_prefix();
    match dock.gather(alloc, None, to) {
        GatheredGroup::Group(mut group) => {
            let sent = send_over(alloc, name, pace, stretch, live, shelf, input, &mut group);
            dock.disband(None, to, group);
            sent
        }
        GatheredGroup::Failed => Err(Fault::Link),
        GatheredGroup::NoMemory => Err(Fault::NoMemory),
    }
}

// Reads a schedule and sends the datagrams of these super frames over the group.
fn send_over<S: Shelf, I: Source, G: Group>(
    alloc: Global,
    name: &str,
    pace: u32,
    stretch: Stretch,
    live: &Live,
    shelf: &mut S,
    input: &mut I,
    group: &mut G,
) -> Result<bool, Fault>
    requires at_least_one { 1 ≤ length (G.up group.old) }
    requires up { AreUp (length (G.up group.old)) (G.up group.old) }
    ensures run { OverGroup name.now pace stretch live.now result S.known shelf.old shelf.new
        (I.known input.old) (I.known input.new) (G.up group.old) (G.up group.new) (G.known group.old) (G.known group.new) }
    ensures nothing { IsFed live.now input.old input.new result }
    ensures same_count { length (G.up group.new) ≡ length (G.up group.old) }
    ensures memory { IsErrOf result Fault.NoMemory → input.new ≡ input.old }
    ensures words { IsErrOf result Fault.Words → ⊥ }
    ensures write { IsErrOf result Fault.Write → ⊥ }
{
    // For its clause alone: a schedule with bytes of input is valid.
    input_makes_a_schedule();
    let schedule = read_schedule(alloc, shelf, name)?;
    let mut server = Server::make(alloc, &schedule)?;
    let mut scratch = piece_room(alloc)?;
    let sent = serve_live_links(&mut server, stretch, pace, live, input, &mut scratch, group);
    if all_up(group) {
        sent
    } else {
        Err(Fault::Link)
    }
}

// Whether no link has failed.
fn all_up<G: Group>(group: &G) -> bool
    ensures yes { result ≡ true → AreUp (length (G.up group.now)) (G.up group.now) }
    ensures no { result ≡ false → IsOneDown (length (G.up group.now)) (G.up group.now) }
{
    for k in 0..group.len() {
        if !group.is_up(k) {
            return false;
        }
    }
    true
}
