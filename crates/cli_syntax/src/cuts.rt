//! Where a text is cut.

ghost use Rattle.std.specs.Prelude.{◌≡◌, ◌==◌, ◌<◌, IfOk, map, option_map};
ghost use Rattle.cli_syntax.specs.Addressing.{cut, parts_of};

use std::alloc::{AllocError, Global};

// What stands before the first such character, and what stands behind it.
pub(crate) fn cut(text: &str, mark: char) -> Option<(&str, &str)>
    requires { mark < 128 }
    ensures { option_map (λ parts. (parts.0.now, parts.1.now)) result ≡ cut mark text.now }
{
    text.split_once(mark)
}

// The parts of a text round its commas.
pub(crate) fn parts(alloc: Global, text: &str) -> Result<Vec<&str>, AllocError>
    ensures { IfOk result (λ parts. map (λ part. part.now) parts.items ≡ parts_of text.now) }
{
    text.split(',').collect(alloc)
}
