//! Each form in memory through its trait. The expected answers follow from the arguments by hand.

ghost use Rattle.std.specs.Prelude.{◌<◌, length};

use crate::calls::{Gave, what_it_gave};
use drm_bits::NoMemory;
use drm_links::{
    Address, Dock, Loaded, MemDock, MemShelf, MemSink, MemSource, Opened, ReadOut, Shelf, Sink,
    Source, WriteOut,
};
use std::alloc::Global;

fn read<I: Source>(source: &mut I, buf: &mut [u8]) -> ReadOut
    requires { 0 < length buf.old }
{
    source.read(buf)
}

fn write<O: Sink>(sink: &mut O, bytes: &[u8]) -> WriteOut
    requires { 0 < length bytes.now }
{
    sink.write(bytes)
}

fn load<S: Shelf>(alloc: Global, shelf: &mut S, name: &str, limit: usize) -> Loaded {
    shelf.load(alloc, name, limit)
}

fn binds_and_reaches<D: Dock>(dock: &mut D, at: Address) -> (bool, bool) {
    let bound = matches!(&dock.bind(at), Opened::Link(_));
    let reached = matches!(&dock.reach(at), Opened::Link(_));
    (bound, reached)
}

// The room of the buffer, what a source answers, and the buffer, which was of dots.
const READS: &[(usize, ReadOut, [u8; 4])] = &[
    (4, ReadOut::Got(3), *b"abc."),
    (4, ReadOut::Failed, *b"...."),
    (2, ReadOut::Got(2), *b"de.."),
    (4, ReadOut::Got(3), *b"fgh."),
    (4, ReadOut::Got(1), *b"i..."),
    (4, ReadOut::End, *b"...."),
    (4, ReadOut::Failed, *b"...."),
    (4, ReadOut::End, *b"...."),
];

fn reads(source: &mut MemSource, room: usize, answer: ReadOut, bytes: [u8; 4]) -> bool {
    let mut buf = [b'.'; 4];
    // `read` asks for a buffer that isn't empty, and a number from a table could be any.
    read(source, &mut buf[..room.clamp(1, 4)]) == answer && buf == bytes
}

// How many rows hold before the first that doesn't.
fn read_rows(alloc: Global) -> usize {
    let Ok(mut source) = MemSource::make(alloc, b"abcdefghi", &[1, 6], 3) else {
        return 0;
    };
    for (k, row) in READS.iter().enumerate() {
        if !reads(&mut source, row.0, row.1, row.2) {
            return k;
        }
    }
    READS.len()
}

#[test]
fn a_source_gives_pieces_and_fails_where_told(rt: HostRuntime) {
    let rows = read_rows(rt.alloc());
    assert!(rt; rows == 8, "row {rows}");
}

// Bytes, what a sink answers to them, and what it has then.
const WRITES: &[([u8; 4], WriteOut, &[u8])] = &[
    (*b"abcd", WriteOut::Wrote(3), b"abc"),
    (*b"defg", WriteOut::Failed, b"abc"),
    (*b"defg", WriteOut::Wrote(3), b"abcdef"),
    (*b"ghij", WriteOut::Wrote(1), b"abcdefg"),
    (*b"hijk", WriteOut::Failed, b"abcdefg"),
];

fn writes(sink: &mut MemSink, bytes: [u8; 4], answer: WriteOut, written: &[u8]) -> bool {
    write(sink, &bytes) == answer && sink.bytes() == written
}

fn written_rows(alloc: Global) -> usize {
    let Ok(mut sink) = MemSink::make(alloc, 7, &[1], 3) else {
        return 0;
    };
    if !sink.bytes().is_empty() {
        return 0;
    }
    for (k, row) in WRITES.iter().enumerate() {
        if !writes(&mut sink, row.0, row.1, row.2) {
            return k;
        }
    }
    WRITES.len()
}

#[test]
fn a_sink_takes_pieces_and_fails_where_told(rt: HostRuntime) {
    let rows = written_rows(rt.alloc());
    assert!(rt; rows == 5, "row {rows}");
}

// A name, a limit, and what the shelf gives.
const LOADS: &[(&str, usize, Gave<'static>)] = &[
    ("audio.bin", 100, Gave::File(b"defgh")),
    ("plan.txt", 9, Gave::File(b"drmplan 1")),
    ("plan.txt", 8, Gave::TooLong),
    ("plan.txt", 100, Gave::Failed),
    ("plan.txt", 100, Gave::File(b"drmplan 1")),
    ("audio", 100, Gave::Failed),
    ("", 100, Gave::Failed),
    ("audio.bin", 5, Gave::File(b"defgh")),
];

fn gives(
    alloc: Global,
    shelf: &mut MemShelf,
    name: &str,
    limit: usize,
    expected: Gave<'_>,
) -> bool {
    let loaded = load(alloc, shelf, name, limit);
    what_it_gave(&loaded) == expected
}

fn adds(alloc: Global, shelf: &mut MemShelf, name: &str, bytes: &[u8]) -> bool {
    shelf.add(alloc, name, bytes).is_ok()
}

fn loaded_rows(alloc: Global, shelf: &mut MemShelf) -> usize {
    for (k, row) in LOADS.iter().enumerate() {
        if !gives(alloc, shelf, row.0, row.1, row.2) {
            return k;
        }
    }
    if are_named(shelf) { LOADS.len() } else { 0 }
}

fn is_named(k: usize, name: &[u8]) -> bool {
    match LOADS.get(k) {
        Some(row) => name == row.0.as_bytes(),
        None => false,
    }
}

// Whether the loads are told in their order, and no more.
fn are_named(shelf: &MemShelf) -> bool {
    for (k, name) in shelf.names().iter().enumerate() {
        if !is_named(k, name.as_slice()) {
            return false;
        }
    }
    shelf.names().len() == 8
}

fn gives_what_was_added(alloc: Global) -> usize {
    let Ok(mut shelf) = MemShelf::make(alloc, &[3]) else {
        return 0;
    };
    if adds(alloc, &mut shelf, "audio.bin", b"abc")
        && adds(alloc, &mut shelf, "plan.txt", b"drmplan 1")
        && adds(alloc, &mut shelf, "audio.bin", b"defgh")
    {
        loaded_rows(alloc, &mut shelf)
    } else {
        0
    }
}

#[test]
fn a_shelf_gives_the_files_that_were_added(rt: HostRuntime) {
    let rows = gives_what_was_added(rt.alloc());
    assert!(rt; rows == 8, "row {rows}");
}

fn gives_an_empty_file(alloc: Global) -> bool {
    match MemShelf::make(alloc, &[]) {
        Ok(mut shelf) => {
            adds(alloc, &mut shelf, "", b"") && gives(alloc, &mut shelf, "", 0, Gave::File(b""))
        }
        Err(NoMemory) => false,
    }
}

#[test]
fn a_shelf_gives_an_empty_file_without_a_name(rt: HostRuntime) {
    assert!(rt; gives_an_empty_file(rt.alloc()));
}

fn opens(alloc: Global, at: Address) -> (bool, bool) {
    match MemDock::make(alloc, &[3]) {
        Ok(mut dock) => binds_and_reaches(&mut dock, at),
        Err(NoMemory) => (true, true),
    }
}

#[test]
fn a_dock_holds_nothing(rt: HostRuntime) {
    let at = Address {
        ip: [127, 0, 0, 1],
        port: 5000,
    };
    assert!(rt; opens(rt.alloc(), at) == (false, false));
}
