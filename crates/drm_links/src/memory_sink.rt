//! A sink in memory.

ghost use Rattle.std.specs.Prelude.{◌≡◌, ◌<◌, [], Some, length, IfOk};
ghost use Rattle.drm_links.specs.Known.{HasCause, CountsCall, IfBothKnown};
ghost use Rattle.drm_links.specs.Sink.{WritesSome, SinkAppends};
ghost use Rattle.drm_links.specs.MemorySink.{sink_known, MemSinkWrites};

use crate::failing::is_listed;
use crate::{Sink, WriteOut};
use drm_bits::NoMemory;
use std::alloc::Global;
use std::marker::Model;

/// A sink that takes `room` bytes, at most `piece` of them in a call, and fails the calls whose numbers are listed.
#[derive(Drop)]
pub struct MemSink {
    written: Vec<u8>,
    room: usize,
    failing: Vec<u64>,
    piece: usize,
    calls: u64,
    faults: u64,
}

impl Model for MemSink {
    ghost use Rattle.std.specs.Prelude.{◌<◌, ◌≤◌, vec_len, vec_capacity};
    ghost use Rattle.drm_links.specs.MemorySink.{SinkState};

    ghost Value = { SinkState };

    ghost view = { λ sink. record {
      written = sink.written.items;
      room = sink.room;
      failing = sink.failing.items;
      piece = sink.piece;
      calls = sink.calls;
      faults = sink.faults;
    } };

    ghost invariant = { λ sink. (vec_len sink.written ≤ sink.room)
        × (sink.room ≤ vec_capacity sink.written)
        × (0 < sink.piece) };
}

impl MemSink {
    /// The numbers in `fail` count the calls from 0. `room` and `piece` are numbers of bytes. The room is reserved
    /// here, so that a write takes no memory.
    pub fn make(alloc: Global, room: usize, fail: &[u64], piece: usize) -> Result<MemSink, NoMemory>
        requires { 0 < piece }
        ensures made { IfOk result (λ sink. sink ≡ record {
          written = [];
          room = room;
          failing = fail.now;
          piece = piece;
          calls = 0;
          faults = 0;
        }) }
        ensures tells { IfOk result (λ sink. (⟦<MemSink as Sink>⟧.known sink).contents
            ≡ Some (record { written = []; calls = 0 })) }
        ensures faults { IfOk result (λ sink. (⟦<MemSink as Sink>⟧.known sink).faults ≡ 0) }
    {
        Ok(MemSink {
            written: Vec::with_capacity(alloc, room)?,
            room,
            failing: fail.to_vec(alloc)?,
            piece,
            calls: 0,
            faults: 0,
        })
    }

    /// What was written.
    pub fn bytes(&self) -> &[u8]
        ensures { result.now ≡ self.now.written }
    {
        &self.written
    }

    // Takes one write, where there is room.
    fn write_next(&mut self, bytes: &[u8]) -> WriteOut
        requires { 0 < length bytes.now }
        ensures exact { MemSinkWrites result bytes.now self.old self.new }
        ensures moves_bytes { WritesSome result bytes.now }
    {
        let call = self.calls;
        self.calls = call.saturating_add(1);
        let left = self.room - self.written.len();
        if left == 0 || is_listed(&self.failing, call) {
            self.faults = self.faults.saturating_add(1);
            return WriteOut::Failed;
        }
        let n = bytes.len().min(self.piece).min(left);
        let Ok(()) = self.written.extend_from_slice(&bytes[..n]) else {
            unreachable!()
        };
        WriteOut::Wrote(n)
    }
}

impl Sink for MemSink {
    ghost known = { sink_known };

    fn write(&mut self, bytes: &[u8]) -> WriteOut
        requires { 0 < length bytes.now }
        ensures exact { MemSinkWrites result bytes.now self.old self.new }
        ensures moves_bytes { WritesSome result bytes.now }
        ensures appended { IfBothKnown (sink_known self.old) (sink_known self.new) (SinkAppends result bytes.now) }
        ensures counts_call { CountsCall (λ output. output.calls) (sink_known self.old) (sink_known self.new) }
        ensures cause { HasCause (sink_known self.old) (sink_known self.new) (result ≡ WriteOut.Failed) }
    {
        self.write_next(bytes)
    }
}
