//! Room for one datagram.

ghost use Rattle.std.specs.Prelude.{◌≡◌, ◌≤◌, [], length, vec_len, IfOk};

use crate::LONGEST_DATAGRAM;
use drm_bits::NoMemory;
use std::alloc::Global;
use std::marker::Model;

/// The most bytes of a datagram that is kept.
pub const LONGEST_KEPT: usize = 32_780;

/// Room for a datagram, and the bytes that lie in it.
#[derive(Drop)]
pub struct KeptDatagram {
    bytes: Vec<u8>,
}

impl Model for KeptDatagram {
    ghost use Rattle.std.specs.Prelude.{ℕ, ◌≤◌, List, vec_capacity};

    ghost Value = { List ℕ };

    ghost view = { λ room. room.bytes.items };

    ghost invariant = { λ room. 65536 ≤ vec_capacity room.bytes };
}

impl KeptDatagram {
    /// Room in which nothing lies yet.
    pub fn make(alloc: Global) -> Result<KeptDatagram, NoMemory>
        ensures { IfOk result (λ room. room ≡ []) }
    {
        Ok(KeptDatagram {
            bytes: Vec::with_capacity(alloc, LONGEST_DATAGRAM)?,
        })
    }

    /// Puts a datagram in, in place of what lies there.
    pub fn fill(&mut self, datagram: &[u8])
        requires { length datagram.now ≤ 65536 }
        ensures { self.new ≡ datagram.now }
    {
        self.bytes.clear();
        let Ok(()) = self.bytes.extend_from_slice(datagram) else {
            unreachable!()
        };
    }

    /// The datagram.
    pub fn bytes(&self) -> &[u8]
        ensures { result.now ≡ self.now }
    {
        &self.bytes
    }
}

/// Room for so many datagrams.
pub fn make_spare(alloc: Global, count: usize) -> Result<Vec<KeptDatagram>, NoMemory>
    ensures { IfOk result (λ spare. vec_len spare ≡ count) }
{
    let mut spare = Vec::with_capacity(alloc, count)?;
    for _ in 0..count {
        let room = KeptDatagram::make(alloc)?;
        let Ok(()) = spare.push(room) else {
            return Err(NoMemory);
        };
    }
    Ok(spare)
}
