//! A source in memory.

ghost use Rattle.std.specs.Prelude.{◌≡◌, ◌<◌, Some, length, IfOk};
ghost use Rattle.drm_links.specs.Known.{HasCause, CountsCall, IfBothKnown};
ghost use Rattle.drm_links.specs.Source.{ReadsSome, SourceTakes};
ghost use Rattle.drm_links.specs.MemorySource.{source_known, MemSourceReads};

use crate::failing::is_listed;
use crate::front::fill_front;
use crate::{ReadOut, Source};
use drm_bits::NoMemory;
use std::alloc::Global;
use std::marker::Model;

/// A source that gives these bytes, at most `piece` of them in a call, and fails the calls whose numbers are listed.
#[derive(Drop)]
pub struct MemSource {
    bytes: Vec<u8>,
    at: usize,
    failing: Vec<u64>,
    piece: usize,
    calls: u64,
    faults: u64,
}

impl Model for MemSource {
    ghost use Rattle.std.specs.Prelude.{◌<◌, ◌≤◌, drop, length};
    ghost use Rattle.drm_links.specs.MemorySource.{SourceState};

    ghost Value = { SourceState };

    ghost view = { λ source. record {
      left = drop source.at source.bytes.items;
      failing = source.failing.items;
      piece = source.piece;
      calls = source.calls;
      faults = source.faults;
    } };

    ghost invariant = { λ source. (source.at ≤ length source.bytes.items) × (0 < source.piece) };
}

impl MemSource {
    /// The numbers in `fail` count the calls from 0. `piece` is a number of bytes.
    pub fn make(
        alloc: Global,
        bytes: &[u8],
        fail: &[u64],
        piece: usize,
    ) -> Result<MemSource, NoMemory>
        requires { 0 < piece }
        ensures made { IfOk result (λ source. source ≡ record {
          left = bytes.now;
          failing = fail.now;
          piece = piece;
          calls = 0;
          faults = 0;
        }) }
        ensures tells { IfOk result (λ source. (⟦<MemSource as Source>⟧.known source).contents
            ≡ Some (record { left = bytes.now; calls = 0 })) }
        ensures faults { IfOk result (λ source. (⟦<MemSource as Source>⟧.known source).faults ≡ 0) }
    {
        Ok(MemSource {
            bytes: bytes.to_vec(alloc)?,
            at: 0,
            failing: fail.to_vec(alloc)?,
            piece,
            calls: 0,
            faults: 0,
        })
    }

    // Takes one read from what is left.
    fn read_next(&mut self, buf: &mut [u8]) -> ReadOut
        requires { 0 < length buf.old }
        ensures exact { MemSourceReads result buf.old buf.new self.old self.new }
        ensures moves_bytes { ReadsSome result buf.old }
    {
        let call = self.calls;
        self.calls = call.saturating_add(1);
        if is_listed(&self.failing, call) {
            self.faults = self.faults.saturating_add(1);
            return ReadOut::Failed;
        }
        let left = &self.bytes[self.at..];
        if left.is_empty() {
            return ReadOut::End;
        }
        let n = buf.len().min(self.piece).min(left.len());
        fill_front(buf, &left[..n]);
        self.at += n;
        ReadOut::Got(n)
    }
}

impl Source for MemSource {
    ghost known = { source_known };

    fn read(&mut self, buf: &mut [u8]) -> ReadOut
        requires { 0 < length buf.old }
        ensures exact { MemSourceReads result buf.old buf.new self.old self.new }
        ensures moves_bytes { ReadsSome result buf.old }
        ensures bytes { IfBothKnown (source_known self.old) (source_known self.new) (SourceTakes result buf.new) }
        ensures counts_call { CountsCall (λ input. input.calls) (source_known self.old) (source_known self.new) }
        ensures cause { HasCause (source_known self.old) (source_known self.new) (result ≡ ReadOut.Failed) }
    {
        self.read_next(buf)
    }
}
