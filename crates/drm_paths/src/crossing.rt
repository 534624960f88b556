//! What may cross from one thread to another.

use crate::{Path, Road, Shared};

fn may_move<T: Send>() {}

fn may_be_shared<T: Sync>() {}

/// A path may move to another thread, with its part of the ledger, and several threads may share the book.
pub fn paths_may_cross_threads<G: Road + Send + Sync>() {
    may_move::<Path<G>>();
    may_be_shared::<Shared<G>>();
}
