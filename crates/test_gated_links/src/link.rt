//! A link that waits for another one.

ghost use Rattle.std.specs.Prelude.{◌≡◌, None, IfOk};

use crate::packets::bring;
use drm_bits::NoMemory;
use drm_links::{Came, Link, MemLink, Sent};
use std::alloc::Global;
use std::sync::atomic::AtomicU64;
use std::sync::atomic::Ordering::SeqCst;
use std::thread;

/// A link that is idle until the last one was asked, or that one.
#[derive(Drop)]
pub struct GatedLink<'a> {
    pub(crate) inner: MemLink,
    waits: bool,
    asked: &'a AtomicU64,
    pub(crate) idles: u64,
}

impl<'a> GatedLink<'a> {
    /// One that brings these packets; it waits, or others wait for it.
    pub(crate) fn make(
        alloc: Global,
        waits: bool,
        packets: &[&[u8]],
        asked: &'a AtomicU64,
    ) -> Result<GatedLink<'a>, NoMemory>
        ensures { IfOk result (λ link. (link.inner.faults ≡ 0) × (link.idles ≡ 0)) }
    {
        let mut inner = MemLink::make(alloc, &[], &[], 0)?;
        bring(alloc, &mut inner, packets)?;
        Ok(GatedLink {
            inner,
            waits,
            asked,
            idles: 0,
        })
    }
}

impl<'a> Link for GatedLink<'a> {
    ghost known = { λ link. record { faults = link.inner.faults; contents = None } };

    ghost idles = { λ link. link.idles };

    fn recv(&mut self, buf: &mut [u8]) -> Came {
        if self.waits && self.asked.load(SeqCst) == 0 {
            // On a busy machine that one's thread may not have begun.
            thread::yield_now();
            self.idles = self.idles.saturating_add(1);
            return Came::Idle;
        }
        if !self.waits {
            self.asked.store(1, SeqCst);
        }
        let came = self.inner.recv(buf);
        if came == Came::Idle {
            self.idles = self.idles.saturating_add(1);
        }
        came
    }

    fn send(&mut self, bytes: &[u8]) -> Sent {
        self.inner.send(bytes)
    }

    fn rest(&mut self, millis: u32) {
        self.inner.rest(millis);
    }
}
