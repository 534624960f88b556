//! The run of several paths.

ghost use Rattle.std.specs.Prelude.{◌≡◌, ◌⊎◌, ◌<◌, ◌≤◌, All, map, length, string_bytes, vec_len, Bool, Result, Err};
ghost use Rattle.drm_links.specs.Known.{HasCause};
ghost use Rattle.recv_reading.specs.Values.{packet_range};
ghost use Rattle.cli_paths.specs.declared.request.PathsRequest.{PathsRequest};
ghost use Rattle.cli_paths.specs.Line.{IsPathsLine};
ghost use Rattle.cmd_paths.specs.declared.fault.PathsFault.{PathsFault};
ghost use Rattle.cmd_paths.specs.Faults.{status_of, fault_line};
ghost use Rattle.cmd_faults.specs.Fault.{WritesLine};
ghost use Rattle.cmd_paths.specs.Receivers.{HaveNewPaths};
ghost use Rattle.cmd_paths.specs.Links.{EndsLinks, ReadsAndCloses, RunsLinks, ending_of};
ghost use Rattle.cmd_paths.specs.Run.{IsPathsRequestInRange, settings_in, PathsRun, RunsPaths, ReportsFault, AsksForNothing};

use crate::fault::PathsFault;
use crate::open::{close_links, open_links, room_for};
use crate::receiver::{PathReceiver, run_all, seats_of, some_failed, some_ran_out};
use cli_paths::{PathsRequest, read_paths};
use cli_syntax::WordsFault;
use drm_links::{Dock, Link, Sink, Status};
use drm_paths::{Closed, PathOptions, Road, Shared, close_paths, open_paths};
use recv_reading::PacketRange;
use report_journal::Ending;
use std::alloc::Global;
use std::marker::Brand;
use std::sync::Wait;
use std::sync::ledger::Blank;
use std::thread::Threads;

/// Runs one command line: the words that stand behind the program's name.
///
/// A link is opened in `dock` at each address. Each is read by a path in a thread of its own, until it has read enough, and
/// all hand what comes to one book. When all have ended the report of the book is written to `out`, as that of one feed. The
/// statuses are 0 done, 1 no memory, 2 no command line, 5 a write to `out` failed, 6 a link couldn't be opened or failed, 7
/// done, and a frame is missing or bad, 8 the book differs from what the paths took; each but 0 and 7 writes a line to `err`.
pub fn run_paths<R: Threads + Wait + Sync, O: Sink, E: Sink, D: Dock>(
    rt: &R,
    alloc: Global,
    words: &[String],
    out: &mut O,
    err: &mut E,
    dock: &mut D,
) -> Status
where
    D::L: Link + Send,
    // Words that ask for a run are one, or memory ran out while they were read.
    ensures runs { (request : PathsRequest) → IsPathsLine (map string_bytes words.now) request
        → (ending : Result Bool PathsFault) × (result.code ≡ status_of ending) × ReportsFault ending E.known err.old err.new
        × RunsPaths request ending D.known dock.old dock.new O.known out.old out.new }
    // Words that ask for none are refused, and nothing is touched.
    ensures nothing { AsksForNothing (map string_bytes words.now)
        → (ending : Result Bool PathsFault) × (result.code ≡ status_of ending) × ReportsFault ending E.known err.old err.new
        × ((ending ≡ Err PathsFault.Words) ⊎ (ending ≡ Err PathsFault.NoMemory)) × (dock.new ≡ dock.old) × (out.new ≡ out.old) }
    // 2: the words ask for nothing.
    ensures words { result.code ≡ 2 → AsksForNothing (map string_bytes words.now) }
    // 5: the count of faults of out rose, by one; else it stayed.
    ensures write { HasCause (O.known out.old) (O.known out.new) (result.code ≡ 5) }
    ensures known { result.code ≤ 8 }
{
    match execute(rt, alloc, words, out, dock) {
        Ok(true) => Status { code: 0 },
        Ok(false) => Status { code: 7 },
        Err(fault) => fault.report(err),
    }
}

/// Writes the line of want of memory, where there was none to make the words with, and answers its
/// status.
pub fn no_memory<E: Sink>(err: &mut E) -> Status
    ensures status { result.code ≡ 1 }
    ensures line { WritesLine (fault_line PathsFault.NoMemory) E.known err.old err.new }
{
    PathsFault::NoMemory.report(err)
}

fn execute<R: Threads + Wait + Sync, O: Sink, D: Dock>(
    rt: &R,
    alloc: Global,
    words: &[String],
    out: &mut O,
    dock: &mut D,
) -> Result<bool, PathsFault>
where
    D::L: Link + Send,
    ensures runs { (request : PathsRequest) → IsPathsLine (map string_bytes words.now) request
        → RunsPaths request result D.known dock.old dock.new O.known out.old out.new }
    ensures nothing { AsksForNothing (map string_bytes words.now)
        → ((result ≡ Err PathsFault.Words) ⊎ (result ≡ Err PathsFault.NoMemory)) × (dock.new ≡ dock.old) × (out.new ≡ out.old) }
    ensures words { result ≡ Err PathsFault.Words → AsksForNothing (map string_bytes words.now) }
    ensures write { HasCause (O.known out.old) (O.known out.new) (result ≡ Err PathsFault.Write) }
{
    match read_paths(alloc, words) {
        Ok(request) => run_request(rt, alloc, &request, out, dock),
        Err(WordsFault::Words) => Err(PathsFault::Words),
        Err(WordsFault::NoMemory) => Err(PathsFault::NoMemory),
    }
}

fn run_request<R: Threads + Wait + Sync, O: Sink, D: Dock>(
    rt: &R,
    alloc: Global,
    request: &PathsRequest,
    out: &mut O,
    dock: &mut D,
) -> Result<bool, PathsFault>
where
    D::L: Link + Send,
    requires { IsPathsRequestInRange request.now }
    ensures { PathsRun request.now result D.known dock.old dock.new O.known out.old out.new }
{
    let blank = Blank::new(request.addresses.len() as u64);
    let ending = run_links::<Brand, R, D>(rt, alloc, blank, request, dock)?;
    Ok(ending.write(out)?)
}

// Takes all memory that reading wants, opens all links, reads and closes them, and ends their report.
fn run_links<G: Road + Send + Sync, R: Threads + Wait + Sync, D: Dock>(
    rt: &R,
    alloc: Global,
    blank: Blank,
    request: &PathsRequest,
    dock: &mut D,
) -> Result<Ending, PathsFault>
where
    D::L: Link + Send,
    requires blank { (blank.name ≡ G.name) × (blank.parts ≡ G.parts) × (G.parts ≡ length request.now.addresses) }
    requires journal { settings_in request.now ≡ packet_range G.window G.reach G.first G.frames }
    requires range { IsPathsRequestInRange request.now }
    ensures { RunsLinks request.now D.L.known result (D.known dock.old) (D.known dock.new) }
{
    let journal = PacketRange {
        window: request.window,
        reach: request.reach,
        first: request.first,
        frame_limit: request.frames,
    };
    let (shared, paths) = open_paths::<G>(alloc, blank, journal, request.addresses.len() as u8)?;
    let seats = seats_of(alloc, paths)?;
    let room = room_for(alloc, &request.addresses)?;
    match open_links(alloc, room, seats, &request.addresses, dock) {
        Ok(receivers) => read_links(rt, alloc, request, shared, dock, receivers),
        Err(_) => Err(PathsFault::Link),
    }
}

// Reads the links of these jobs, closes them, and ends their report. A link that failed goes before want of memory.
fn read_links<G: Road + Send + Sync, R: Threads + Wait + Sync, D: Dock>(
    rt: &R,
    alloc: Global,
    request: &PathsRequest,
    shared: Shared<G>,
    dock: &mut D,
    mut receivers: Vec<PathReceiver<G, D::L>>,
) -> Result<Ending, PathsFault>
where
    D::L: Link + Send,
    requires journal { settings_in request.now ≡ packet_range G.window G.reach G.first G.frames }
    requires range { IsPathsRequestInRange request.now }
    requires new { HaveNewPaths receivers.items }
    requires buffers { All (λ receiver. vec_len receiver.buffer ≡ 65536) receivers.items }
    requires at_least_one { 0 < vec_len receivers }
    requires parts { G.parts ≡ vec_len receivers }
    requires same_count { vec_len receivers ≡ length request.now.addresses }
    ensures ends { EndsLinks request.now D.L.known (map (λ receiver. receiver.link) receivers.items) result }
    ensures closed { ReadsAndCloses request.now D.L.known (map (λ receiver. receiver.link) receivers.items) result
        (D.known dock.old) (D.known dock.new) }
    ensures cause { (D.known dock.new).faults ≡ (D.known dock.old).faults }
{
    let options = PathOptions {
        idle: request.idle,
        limit: request.limit,
    };
    run_all(rt, alloc, &shared, &options, receivers.as_mut_slice());
    let failed = some_failed(receivers.as_slice());
    let ran_out = some_ran_out(receivers.as_slice());
    let handed = close_links(alloc, dock, &request.addresses, receivers);
    if failed {
        return Err(PathsFault::Link);
    }
    if ran_out {
        return Err(PathsFault::NoMemory);
    }
    let paths = handed?;
    closed(close_paths(alloc, shared, paths))
}

// How a run ends that is closed so.
fn closed(closed: Closed) -> Result<Ending, PathsFault>
    ensures { result ≡ ending_of closed }
{
    match closed {
        Closed::Whole(ending) => Ok(ending),
        Closed::Differ(difference) => Err(PathsFault::Differs {
            path: difference.path,
            at: difference.at,
        }),
        Closed::NoMemory => Err(PathsFault::NoMemory),
    }
}
