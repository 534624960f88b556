//! Sources and sinks over std's streams. They tell no contents.

ghost use Rattle.std.specs.Prelude.{◌≡◌, ◌<◌, None, length};
ghost use Rattle.drm_links.specs.Known.{RisesWhere};
ghost use Rattle.drm_links.specs.Source.{ReadsSome};
ghost use Rattle.drm_links.specs.Sink.{WritesSome};
ghost use Rattle.drm_adapt.specs.Streams.{StreamReads, StreamWrites};

use drm_links::{ReadOut, Sink, Source, WriteOut};
use std::io::{self, ErrorKind, Read, Write};
use std::thread;
use std::time::{Clock, Duration};

/// After so many milliseconds a stream that wasn't ready is asked again.
const NAP_MILLIS: u64 = 1;

/// A source over a stream, which ends where a read gives no byte. It waits for a stream that doesn't block.
#[derive(Drop)]
pub struct StreamSource<'a, C, R> {
    clock: &'a C,
    stream: R,
    /// Why the last read failed, if one has.
    fault: Option<io::Error>,
    faults: u64,
}

impl<'a, C: Clock, R: Read> StreamSource<'a, C, R> {
    pub fn new(clock: &'a C, stream: R) -> Self
        ensures { result ≡ record { clock = clock.entry; stream = stream; fault = None; faults = 0 } }
    {
        StreamSource {
            clock,
            stream,
            fault: None,
            faults: 0,
        }
    }

    /// Why a read failed, if one has.
    pub fn fault(&self) -> Option<io::Error> {
        self.fault
    }
}

impl<'a, C: Clock, R: Read> Source for StreamSource<'a, C, R> {
    ghost known = { λ source. record { faults = source.faults; contents = None } };

    // Where the stream's bytes are known, the answer is about them.
    fn read(&mut self, buf: &mut [u8]) -> ReadOut
        requires { 0 < length buf.old }
        ensures moves_bytes { ReadsSome result buf.old }
        ensures stream { StreamReads result buf.new
            (R.remaining self.old.stream) (R.remaining self.new.stream) }
        ensures cause { RisesWhere self.old.faults self.new.faults (result ≡ ReadOut.Failed) }
    {
        for _ in 0..u64::MAX {
            match self.stream.read(buf) {
                Ok(0) => return ReadOut::End,
                Ok(n) => return ReadOut::Got(n),
                Err(fault) if comes_back(self.clock, &fault) => {}
                Err(fault) => {
                    self.fault = Some(fault);
                    break;
                }
            }
        }
        self.faults = self.faults.saturating_add(1);
        ReadOut::Failed
    }
}

/// A sink over a stream, which fails where a write takes no byte. It waits for a stream that doesn't block.
#[derive(Drop)]
pub struct StreamSink<'a, C, W> {
    clock: &'a C,
    stream: W,
    /// Why the last write failed, if one has.
    fault: Option<io::Error>,
    faults: u64,
}

impl<'a, C: Clock, W: Write> StreamSink<'a, C, W> {
    pub fn new(clock: &'a C, stream: W) -> Self
        ensures { result ≡ record { clock = clock.entry; stream = stream; fault = None; faults = 0 } }
    {
        StreamSink {
            clock,
            stream,
            fault: None,
            faults: 0,
        }
    }

    /// Why a write failed, if one has.
    pub fn fault(&self) -> Option<io::Error> {
        self.fault
    }
}

impl<'a, C: Clock, W: Write> Sink for StreamSink<'a, C, W> {
    ghost known = { λ sink. record { faults = sink.faults; contents = None } };

    // Where the stream's bytes are known, the answer is about them.
    fn write(&mut self, bytes: &[u8]) -> WriteOut
        requires { 0 < length bytes.now }
        ensures moves_bytes { WritesSome result bytes.now }
        ensures stream { StreamWrites result bytes.now
            (W.contents self.old.stream) (W.contents self.new.stream) }
        ensures cause { RisesWhere self.old.faults self.new.faults (result ≡ WriteOut.Failed) }
    {
        for _ in 0..u64::MAX {
            match self.stream.write(bytes) {
                Ok(n) if n > 0 => return WriteOut::Wrote(n),
                Err(fault) if comes_back(self.clock, &fault) => {}
                Ok(_) => {
                    self.fault = Some(ErrorKind::WriteZero.into());
                    break;
                }
                Err(fault) => {
                    self.fault = Some(fault);
                    break;
                }
            }
        }
        self.faults = self.faults.saturating_add(1);
        WriteOut::Failed
    }
}

// Whether the call is to be tried again: a signal came before any byte, or the stream doesn't block and wasn't ready, as
// where another process that has it open set it so. Then it is tried when a nap is over.
fn comes_back<C: Clock>(clock: &C, fault: &io::Error) -> bool {
    match fault.kind() {
        ErrorKind::Interrupted => true,
        ErrorKind::WouldBlock => {
            thread::sleep(clock, Duration::from_millis(NAP_MILLIS));
            true
        }
        _ => false,
    }
}
