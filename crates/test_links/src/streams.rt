//! Streams of std as sources and sinks.

use drm_adapt::{StreamSink, StreamSource};
use drm_links::{ReadOut, Sink, Source, WriteOut};
use std::io::{self, ErrorKind, Read, Write};

/// A stream that is broken, and before that so often only not ready.
#[derive(Drop)]
struct Broken {
    waits: u8,
}

impl Broken {
    fn fault(&mut self) -> io::Error {
        if self.waits == 0 {
            return ErrorKind::BrokenPipe.into();
        }
        self.waits = self.waits.saturating_sub(1);
        ErrorKind::WouldBlock.into()
    }
}

impl Read for Broken {
    fn read(&mut self, _buf: &mut [u8]) -> io::Result<usize> {
        Err(self.fault())
    }
}

impl Write for Broken {
    fn write(&mut self, _bytes: &[u8]) -> io::Result<usize> {
        Err(self.fault())
    }

    fn flush(&mut self) -> io::Result<()> {
        Ok(())
    }
}

fn gives<S: Source>(source: &mut S) -> bool {
    let mut buf = [0u8; 3];
    source.read(&mut buf) == ReadOut::Got(3)
        && buf == *b"abc"
        && source.read(&mut buf) == ReadOut::Got(2)
        && buf == *b"dec"
        && source.read(&mut buf) == ReadOut::End
}

#[test]
fn a_source_passes_on_what_a_stream_gives(rt: HostRuntime) {
    let mut source = StreamSource::new(&rt, b"abcde".as_slice());
    assert!(rt; gives(&mut source));
}

fn takes<S: Sink>(sink: &mut S) -> bool {
    sink.write(b"abc") == WriteOut::Wrote(3) && sink.write(b"de") == WriteOut::Wrote(2)
}

#[test]
fn a_sink_passes_on_what_is_written(rt: HostRuntime) {
    let mut written = Vec::new(rt.alloc());
    let takes = takes(&mut StreamSink::new(&rt, &mut written));
    assert!(rt; takes && written.as_slice() == b"abcde".as_slice());
}

// Whether a stream that isn't ready for a while is waited for, and fails once it is broken.
#[test]
fn streams_that_are_not_ready_are_waited_for(rt: HostRuntime) {
    let (mut from, mut to) = (Broken { waits: 3 }, Broken { waits: 3 });
    let mut buf = [0u8; 3];
    let read = StreamSource::new(&rt, &mut from).read(&mut buf);
    let wrote = StreamSink::new(&rt, &mut to).write(b"abc");
    let failed = read == ReadOut::Failed && wrote == WriteOut::Failed;
    assert!(rt; failed && from.waits == 0 && to.waits == 0);
}
