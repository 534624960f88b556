//! Plain bytes: written over others, and zeros.

ghost use Rattle.std.specs.Prelude.{◌≡◌, ◌+◌, ◌≤◌, ◌++◌, length, take, drop, replicate, IfOk};
ghost use Rattle.drm_bits.specs.Bits.{IsBytes};

use crate::NoMemory;
use std::alloc::Global;

/// Writes bytes over those from a place on.
pub fn put_at(into: &mut [u8], at: usize, bytes: &[u8])
    requires { at + length bytes.now ≤ length into.old }
    ensures put { into.new ≡ take at into.old ++ bytes.now ++ drop (at + length bytes.now) into.old }
    ensures bytes { IsBytes bytes.now }
{
    into[at..at + bytes.len()].copy_from_slice(bytes);
}

/// So many zero bytes.
pub fn zeros(alloc: Global, len: usize) -> Result<Vec<u8>, NoMemory>
    ensures zeros { IfOk result (λ bytes. bytes.items ≡ replicate len 0) }
    ensures length { IfOk result (λ bytes. length bytes.items ≡ len) }
{
    Ok(vec![in alloc; 0u8; len]?)
}
