//! Parts of bytes.

ghost use Rattle.std.specs.Prelude.{◌≡◌, ◌+◌, ◌^◌, ◌<◌, take, drop};

// So many bytes from a place on, or as many as there are.
pub(crate) fn part(bytes: &[u8], at: usize, size: usize) -> &[u8]
    requires { at + size < 2 ^ 64 }
    ensures { result.now ≡ take size (drop at bytes.now) }
{
    let start = at.min(bytes.len());
    let end = (at + size).min(bytes.len());
    &bytes[start..end]
}
