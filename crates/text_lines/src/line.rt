//! The words of a line.

ghost use Rattle.std.specs.Prelude.{◌≡◌, ◌==◌, map, slice_index, IfOk};
ghost use Rattle.text_lines.specs.Lines.{words_of};

use drm_bits::NoMemory;
use std::alloc::{AllocError, Global};

// The words of a line, as the collection of them fails.
fn collected(alloc: Global, line: &str) -> Result<Vec<&str>, AllocError>
    ensures { IfOk result (λ words. map (λ word. word.now) words.items ≡ words_of line.now) }
{
    line.split(' ')
        .filter(|word| !word.is_empty())
        .collect(alloc)
}

/// The words of a line, at runs of spaces.
/// Example: the words of `"  a   b "` are `"a"` and `"b"`.
pub fn words(alloc: Global, line: &str) -> Result<Vec<&str>, NoMemory>
    ensures { IfOk result (λ words. map (λ word. word.now) words.items ≡ words_of line.now) }
{
    Ok(collected(alloc, line)?)
}

/// Whether a line is a comment, by its first word.
pub fn is_comment(word: &str) -> bool
    ensures { result ≡ (slice_index word.now 0 == 35) }
{
    match word.as_bytes() {
        [first, ..] => *first == b'#',
        [] => false,
    }
}
