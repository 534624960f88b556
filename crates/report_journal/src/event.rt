//! What becomes of a datagram that is handed to a journal.

use dcp_collect::Taken;

/// What becomes of a datagram that is handed to a journal.
#[derive(Clone, Copy, Debug, PartialEq, Eq)]
pub enum Event {
    /// It stands in the journal, and this became of it.
    Took(Taken),
    /// There is no room for it, or the report has stopped.
    NoMemory,
}
