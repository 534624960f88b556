//! The top call.

ghost use Rattle.std.specs.Prelude.{◌≡◌, ◌≤◌, ◌⊎◌, map, string_bytes, Result, Ok, IsErrOf, Bool, true, false};
ghost use Rattle.drm_links.specs.Known.{HasCause, IfBothKnown};
ghost use Rattle.cmd_faults.specs.Causes.{OneFailed, OpeningFailed};
ghost use Rattle.cmd_faults.specs.Lines.{fault_line};
ghost use Rattle.cmd_faults.specs.Fault.{WritesLine, whole_of, clean_status};
ghost use Rattle.drm_links.specs.Gathering.{NothingSent};
ghost use Rattle.drm_top.specs.Command.{CommandRun, RunsCommand, RunEnds, IsQuiet, IsOutsideUntouched, OpensALink, WritesReport};
ghost use Rattle.drm_top.specs.Headline.{HeadlineOfRun};
ghost use Rattle.drm_top.specs.Outside.{outside};
ghost use Rattle.drm_top.specs.Words.{AsksFor, AsksForNothing, IsRequestInRange};
ghost use Rattle.drm_words.specs.declared.request.Request.{Request};

use crate::words::{options_of, range_of, text};
use cmd_agree::agree;
use cmd_air::air;
use cmd_capacity::capacity;
use cmd_convert::convert;
use cmd_count::{count, count_capture};
use cmd_exercise::exercise;
use cmd_faults::Fault;
use cmd_gate::gate;
use cmd_pack::pack;
use cmd_receive::{receive, receive_from_capture};
use cmd_serve::{check, send, serve};
use cmd_show::{fac, show};
use cmd_unpack::{texts, unpack};
use drm_links::{Dock, Link, Shelf, Sink, Source, Status};
use drm_server::Stretch;
use drm_words::{Request, WordsFault, read_words};
use std::alloc::Global;
use std::thread::Threads;

/// Runs one command line: the words that stand behind the program's name.
///
/// `fac` reads the nine bytes of a FAC from `input` and writes its line to `out`. `check` reads a schedule and its files
/// from `shelf` and writes its canonical text to `out`; `capacity` reads them too and writes what each configuration uses of its
/// channel; `agree` reads two schedules and writes how many super frames have the same datagrams in both. `serve` writes the datagrams
/// of a schedule, or of some of its super frames, to `out` as a capture, or sends them over links that it opens in `dock`; its live
/// streams take their bytes from `input`. `receive` opens links in `dock`, or reads a capture from `input`, and writes their reports
/// to `out`: that of one link or of a capture as it is read, those of several links, which are read side by side, when all have ended. `count` receives as `receive` does from one link or from a capture, and writes
/// one line of what came. `air` does the same in memory with a schedule and a script from
/// `shelf`, `exercise` with those that it makes itself; their reports come at the end. `gate` opens links in `dock`, and
/// sends over all but the first what comes over that one. Of a capture in `input` `show` writes what is in it, `convert` another
/// capture, `unpack` and `texts` the data in a stream; `pack` makes the packets of such data.
///
/// The statuses are 0 done, 1 no memory, 2 no command line, 3 no FAC, no schedule, no script, no capture or no units, 4 a read
/// of `input` or a load from `shelf` failed, 5 a write to `out` failed, 6 a link couldn't be opened or failed, 7 done, and
/// something is missing or bad, `input` had too few bytes for live streams, or a configuration doesn't fit its channel; each from 1 to 6 writes a line to `err`.
pub fn run<R: Threads + Sync, S: Shelf, I: Source, O: Sink, E: Sink, D: Dock>(
    rt: &R,
    alloc: Global,
    words: &[String],
    shelf: &mut S,
    input: &mut I,
    out: &mut O,
    err: &mut E,
    dock: &mut D,
) -> Status
where
    D::L: Link + Send,
    // Words that ask for a command are a run of it, or memory ran out while they were read. Each command has a record: what is
    // loaded, read, opened, written and sent, when each refusal comes, and that nothing is lost where nothing fails.
    ensures runs { (request : Request) → AsksFor request (map string_bytes words.now)
        → (ending : Result Bool Fault) × (err_ok : Bool) × (mid : E) × RunEnds ending err_ok result.code E.known mid err.new
        × RunsCommand request ending err_ok (outside S.known shelf.old shelf.new I.known input.old input.new
        O.known out.old out.new E.known err.old mid D.known dock.old dock.new) }
    // Words that ask for none are refused, and nothing is touched.
    ensures nothing { AsksForNothing (map string_bytes words.now)
        → (ending : Result Bool Fault) × RunEnds ending true result.code E.known err.old err.new
        × (IsErrOf ending Fault.Words ⊎ IsErrOf ending Fault.NoMemory)
        × IsOutsideUntouched shelf.old shelf.new input.old input.new out.old out.new dock.old dock.new }
    // The headline. Where `receive` or `air` ends with 0 or 7, each report says of whatever delivery of whatever valid schedule
    // came what that calls for.
    ensures headline { (request : Request) → AsksFor request (map string_bytes words.now)
        → (clean : Bool) → result.code ≡ clean_status clean
        → HeadlineOfRun request clean (outside S.known shelf.old shelf.new I.known input.old input.new
        O.known out.old out.new E.known err.old err.new D.known dock.old dock.new) }

    // What the statuses say of any command. 1: neither read nor written was anything, and nothing was sent.
    ensures known { result.code ≤ 7 }
    ensures memory { result.code ≡ 1 → (input.new ≡ input.old) × (out.new ≡ out.old) }
    ensures unsent { result.code ≡ 1 → IfBothKnown (D.known dock.old) (D.known dock.new) NothingSent }
    // 2: the words are no command line of a command that is built.
    ensures words { result.code ≡ 2 → AsksForNothing (map string_bytes words.now) }
    // 4: one read of input failed, or one load. With any other status but 6 none did: a failed link is told before a failed read.
    ensures read { (result.code ≡ 6 → ⊥) → OneFailed (I.known input.old) (I.known input.new)
        (S.known shelf.old) (S.known shelf.new) (result.code ≡ 4) }
    // 5: one write to out failed, and with any other status none did.
    ensures write { HasCause (O.known out.old) (O.known out.new) (result.code ≡ 5) }
    // 6: the command opens a link. Any other leaves the dock alone. With any other status no opening failed.
    ensures link { result.code ≡ 6 → (request : Request) × OpensALink request
        × AsksFor request (map string_bytes words.now) }
    ensures opening { OpeningFailed (D.known dock.old) (D.known dock.new) (result.code ≡ 6) }
    ensures dock { ((request : Request) → OpensALink request
        → AsksFor request (map string_bytes words.now) → ⊥) → dock.new ≡ dock.old }
    // 7: the command reports what was received or what fits a channel, or takes bytes of live streams from input.
    ensures lacking { result.code ≡ 7 → (request : Request) × WritesReport request
        × AsksFor request (map string_bytes words.now) }
{
    // Whether `err` took all lines that it was given.
    let mut err_ok = true;
    match execute(rt, alloc, words, shelf, input, out, err, &mut err_ok, dock) {
        Ok(true) => Status { code: 0 },
        Ok(false) => Status { code: 7 },
        Err(fault) => fault.report_if(err_ok, err),
    }
}

/// Writes the line of want of memory, where there was none to make the words with, and answers its
/// status.
pub fn no_memory<E: Sink>(err: &mut E) -> Status
    ensures status { result.code ≡ 1 }
    ensures line { WritesLine (fault_line Fault.NoMemory) E.known err.old err.new }
{
    Fault::NoMemory.report(err)
}

fn execute<R: Threads + Sync, S: Shelf, I: Source, O: Sink, E: Sink, D: Dock>(
    rt: &R,
    alloc: Global,
    words: &[String],
    shelf: &mut S,
    input: &mut I,
    out: &mut O,
    err: &mut E,
    err_ok: &mut bool,
    dock: &mut D,
) -> Result<bool, Fault>
where
    D::L: Link + Send,
    requires { err_ok.old ≡ true }
    ensures runs { (request : Request) → AsksFor request (map string_bytes words.now)
        → RunsCommand request result err_ok.new (outside S.known shelf.old shelf.new I.known input.old input.new
        O.known out.old out.new E.known err.old err.new D.known dock.old dock.new) }
    ensures nothing { AsksForNothing (map string_bytes words.now)
        → (IsErrOf result Fault.Words ⊎ IsErrOf result Fault.NoMemory)
        × IsQuiet err_ok.new err.old err.new
        × IsOutsideUntouched shelf.old shelf.new input.old input.new out.old out.new dock.old dock.new }
    ensures words { IsErrOf result Fault.Words → AsksForNothing (map string_bytes words.now) }
    ensures memory { IsErrOf result Fault.NoMemory → (input.new ≡ input.old) × (out.new ≡ out.old) }
    ensures unsent { IsErrOf result Fault.NoMemory
        → IfBothKnown (D.known dock.old) (D.known dock.new) NothingSent }
    ensures read { (IsErrOf result Fault.Link → ⊥) → OneFailed (I.known input.old) (I.known input.new)
        (S.known shelf.old) (S.known shelf.new) (IsErrOf result Fault.Read) }
    ensures write { HasCause (O.known out.old) (O.known out.new) (IsErrOf result Fault.Write) }
    ensures link { IsErrOf result Fault.Link → (request : Request) × OpensALink request
        × AsksFor request (map string_bytes words.now) }
    ensures opening { OpeningFailed (D.known dock.old) (D.known dock.new) (IsErrOf result Fault.Link) }
    ensures dock { ((request : Request) → OpensALink request
        → AsksFor request (map string_bytes words.now) → ⊥) → dock.new ≡ dock.old }
    ensures lacking { result ≡ Ok false → (request : Request) × WritesReport request
        × AsksFor request (map string_bytes words.now) }
{
    match read_words(alloc, words) {
        Ok(request) => run_command(rt, alloc, &request, shelf, input, out, err, err_ok, dock),
        Err(WordsFault::Words) => Err(Fault::Words),
        Err(WordsFault::NoMemory) => Err(Fault::NoMemory),
    }
}

fn run_command<R: Threads + Sync, S: Shelf, I: Source, O: Sink, E: Sink, D: Dock>(
    rt: &R,
    alloc: Global,
    request: &Request,
    shelf: &mut S,
    input: &mut I,
    out: &mut O,
    err: &mut E,
    err_ok: &mut bool,
    dock: &mut D,
) -> Result<bool, Fault>
where
    D::L: Link + Send,
    requires range { IsRequestInRange request.now }
    requires err_ok { err_ok.old ≡ true }
    ensures words { IsErrOf result Fault.Words → ⊥ }
    ensures memory { IsErrOf result Fault.NoMemory → (input.new ≡ input.old) × (out.new ≡ out.old) }
    ensures run { CommandRun request.now result err_ok.new (outside S.known shelf.old shelf.new
        I.known input.old input.new O.known out.old out.new
        E.known err.old err.new D.known dock.old dock.new) }
    ensures read { (IsErrOf result Fault.Link → ⊥) → OneFailed (I.known input.old) (I.known input.new)
        (S.known shelf.old) (S.known shelf.new) (IsErrOf result Fault.Read) }
    ensures write { HasCause (O.known out.old) (O.known out.new) (IsErrOf result Fault.Write) }
    ensures link { IsErrOf result Fault.Link → OpensALink request.now }
    ensures opening { OpeningFailed (D.known dock.old) (D.known dock.new) (IsErrOf result Fault.Link) }
    ensures lacking { result ≡ Ok false → WritesReport request.now }
    ensures unsent { IsErrOf result Fault.NoMemory
        → IfBothKnown (D.known dock.old) (D.known dock.new) NothingSent }
    ensures dock { (OpensALink request.now → ⊥) → dock.new ≡ dock.old }
{
    match request {
        Request::Fac => whole(fac(input, out)),
        Request::Check { name } => whole(check(alloc, text(name), shelf, out)),
        Request::Capacity { name } => capacity(alloc, text(name), shelf, out),
        Request::Agree { name, other } => {
            whole(agree(alloc, text(name), text(other), shelf, out))
        }
        Request::Serve {
            name,
            to,
            pace,
            from,
            until,
            live,
        } => {
            let name = text(name);
            let stretch = Stretch {
                from: *from,
                until: *until,
            };
            if to.is_empty() {
                serve(alloc, name, stretch, live, shelf, input, out)
            } else {
                send(alloc, name, to, *pace, stretch, live, shelf, input, dock)
            }
        }
        Request::Receive {
            addresses,
            window,
            reach,
            first,
            frames,
            idle,
            limit,
        } => {
            let options = options_of(*window, *reach, *first, *frames, *idle, *limit);
            match addresses {
                Some(links) => receive(rt, alloc, &options, links, dock, out),
                None => receive_from_capture(alloc, &options, input, out),
            }
        }
        Request::Count {
            address,
            window,
            reach,
            first,
            frames,
            idle,
            limit,
        } => {
            let options = options_of(*window, *reach, *first, *frames, *idle, *limit);
            match address {
                Some(at) => count(alloc, &options, *at, dock, out),
                None => count_capture(alloc, &options, input, out),
            }
        }
        Request::Air {
            name,
            script,
            window,
        } => air(rt, alloc, text(name), text(script), *window, shelf, out),
        Request::Show => show(alloc, input, out),
        Request::Exercise { n } => exercise(rt, alloc, *n, out),
        Request::Convert {
            carry,
            window,
            reach,
            first,
            frames,
        } => {
            let range = range_of(*window, *reach, *first, *frames);
            convert(alloc, *carry, &range, input, out, err, err_ok)
        }
        Request::Gate {
            from,
            to,
            carry,
            window,
            reach,
            first,
            frames,
            idle,
            limit,
        } => {
            let options = options_of(*window, *reach, *first, *frames, *idle, *limit);
            gate(alloc, &options, *carry, *from, to, dock, out)
        }
        Request::Pack { pid, length } => whole(pack(alloc, *pid, *length, input, out)),
        Request::Unpack {
            stream,
            pid,
            length,
            window,
            reach,
            first,
            frames,
        } => {
            let range = range_of(*window, *reach, *first, *frames);
            unpack(alloc, *stream, *pid, *length, &range, input, out)
        }
        Request::Texts {
            stream,
            window,
            reach,
            first,
            frames,
        } => {
            let range = range_of(*window, *reach, *first, *frames);
            texts(alloc, *stream, &range, input, out)
        }
    }
}

// A run that reports nothing that could be missing.
fn whole(done: Result<(), Fault>) -> Result<bool, Fault>
    ensures { result ≡ whole_of done }
{
    match done {
        Ok(()) => Ok(true),
        Err(fault) => Err(fault),
    }
}
