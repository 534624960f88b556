//! A case: what is handed to a run, and what has to come of it.

use drm_links::Address;
use std::alloc::Global;
use std::num::NonZeroUsize;

// How many bytes a call gives or takes at most, where a case doesn't say.
fn usual_piece() -> NonZeroUsize {
    NonZeroUsize::MIN.saturating_add(0xffff)
}

/// A file of the shelf.
#[derive(Drop)]
pub struct NamedFile {
    pub name: String,
    pub bytes: Vec<u8>,
}

/// Bytes to read, how many of them a read gives at most, and the numbers of the reads that fail.
#[derive(Drop)]
pub struct InputCase {
    pub bytes: Vec<u8>,
    pub piece: NonZeroUsize,
    pub fails: Vec<u64>,
}

/// How many bytes there is room for, how many of them a write takes at most, the numbers of the writes that fail, and
/// what has to be written in the end.
#[derive(Drop)]
pub struct OutputCase {
    pub room: usize,
    pub piece: NonZeroUsize,
    pub fails: Vec<u64>,
    pub wanted: Vec<u8>,
}

impl OutputCase {
    fn new(alloc: Global, room: usize) -> OutputCase {
        OutputCase {
            room,
            piece: usual_piece(),
            fails: Vec::new(alloc),
            wanted: Vec::new(alloc),
        }
    }
}

/// A link at an address: the datagrams that it brings, in order, the numbers of the calls that are idle or fail, and how
/// many sends it has room for.
#[derive(Drop)]
pub struct LinkCase {
    pub at: Address,
    pub datagrams: Vec<Vec<u8>>,
    pub idles: Vec<u64>,
    pub fails: Vec<u64>,
    pub failing_sends: Vec<u64>,
    pub sends: usize,
}

impl LinkCase {
    pub(crate) fn new(alloc: Global, at: Address) -> LinkCase {
        LinkCase {
            at,
            datagrams: Vec::new(alloc),
            idles: Vec::new(alloc),
            fails: Vec::new(alloc),
            failing_sends: Vec::new(alloc),
            sends: 0,
        }
    }
}

/// What has to be sent over a link that is closed at this address.
#[derive(Drop)]
pub struct SentCase {
    pub at: Address,
    pub datagrams: Vec<Vec<u8>>,
}

/// One run, and how it has to end.
#[derive(Drop)]
pub struct Case {
    pub name: String,
    /// The line of its file at which it begins, from 1.
    pub line: usize,
    pub words: Vec<String>,
    pub files: Vec<NamedFile>,
    pub failing_loads: Vec<u64>,
    pub input: InputCase,
    pub out: OutputCase,
    pub err: OutputCase,
    /// Out may end before all that is wanted.
    pub is_prefix: bool,
    pub failing_openings: Vec<u64>,
    pub links: Vec<LinkCase>,
    pub sent: Vec<SentCase>,
    /// Each case that a reader gives has one.
    pub status: Option<u8>,
    /// What the comparison has to say: nothing, or how this case differs.
    pub differences: String,
}

impl Case {
    pub(crate) fn new(alloc: Global, name: String, line: usize) -> Case {
        Case {
            name,
            line,
            words: Vec::new(alloc),
            files: Vec::new(alloc),
            failing_loads: Vec::new(alloc),
            input: InputCase {
                bytes: Vec::new(alloc),
                piece: usual_piece(),
                fails: Vec::new(alloc),
            },
            out: OutputCase::new(alloc, 1 << 20),
            err: OutputCase::new(alloc, 1 << 16),
            is_prefix: false,
            failing_openings: Vec::new(alloc),
            links: Vec::new(alloc),
            sent: Vec::new(alloc),
            status: None,
            differences: String::new(alloc),
        }
    }
}
