//! Words that are bytes in hex digits of either case.

ghost use Rattle.std.specs.Prelude.{◌≡◌, IfOk};
ghost use Rattle.text_lines.specs.Hex.{hex_of, bytes_of};

use drm_bits::{NoMemory, Octets};
use hex::{FromHex, FromHexError};
use std::alloc::Global;

/// The bytes that a word spells in two digits each, where they are `N`.
/// Example: `hex::<3>("0A0b0c")` is `Some([10, 11, 12])`.
pub fn hex<const N: usize>(word: &str) -> Option<[u8; N]>
    ensures { result ≡ hex_of N word.now }
{
    <[u8; N] as FromHex>::from_hex(word).ok()
}

/// The bytes that a word spells in two digits each, however many they are.
pub fn bytes(alloc: Global, word: &str) -> Result<Option<Octets>, NoMemory>
    ensures { IfOk result (λ bytes. bytes ≡ bytes_of word.now) }
{
    match hex::decode(alloc, word) {
        Ok(bytes) => Ok(Some(Octets::from_slice(alloc, &bytes)?)),
        Err(FromHexError::OutOfMemory) => Err(NoMemory),
        Err(_) => Ok(None),
    }
}
