//! How a test fails.

use std::process::Abort;

/// Fails where a row is wrong, and names it.
pub(crate) fn has_none(rt: &impl Abort, wrong: Option<usize>) {
    if let Some(row) = wrong {
        panic!(rt; "row {row}");
    }
}
