//! Bytes written over others, each so far behind the one before.

ghost use Rattle.std.specs.Prelude.{◌≡◌, ◌≢◌, ◌+◌, ◌*◌, ◌<◌, ℕ, length, slice_index};
ghost use Rattle.dcp_collect.specs.Counters.{HasSteps};

use drm_bits::put_at;

// Writes bytes from a place on, each so far behind the one before.
pub(crate) fn store(bytes: &mut [u8], start: usize, step: usize, payload: &[u8])
    requires { HasSteps start step payload.now bytes.old }
    ensures there { (j : ℕ) → j < length payload.now → slice_index bytes.new (start + j * step) ≡ slice_index payload.now j }
    ensures others { (p : ℕ) → ((j : ℕ) → j < length payload.now → p ≢ start + j * step)
        → slice_index bytes.new p ≡ slice_index bytes.old p }
    ensures same_length { length bytes.new ≡ length bytes.old }
{
    if step == 1 {
        put_at(bytes, start, payload);
        return;
    }
    for (j, byte) in payload.iter().enumerate() {
        bytes[start + j * step] = *byte;
    }
}
