//! The files of the system as a shelf. It tells no contents.

ghost use Rattle.std.specs.Prelude.{◌≡◌, ◌≢◌, None, IfOk, IfSome, take};
ghost use Rattle.drm_links.specs.Known.{RisesWhere};
ghost use Rattle.drm_links.specs.Shelf.{IsFileWithin};
ghost use Rattle.drm_adapt.specs.Files.{HoldsFile, IsCopy};

use cli_notices::Edge;
use drm_bits::{NoMemory, Octets};
use drm_links::{Loaded, Shelf};
use std::alloc::Global;
use std::fs::File;
use std::io::{self, Eprint, ErrorKind, Read};
use std::rt::Files;

/// A file that couldn't be loaded.
#[derive(Drop)]
struct Unread {
    name: String,
    fault: io::Error,
}

/// A shelf over the files of a runtime, whose names are paths.
#[derive(Drop)]
pub struct FileShelf<'a, R> {
    edge: &'a Edge<'a, R>,
    /// The last load that failed.
    unread: Option<Unread>,
    faults: u64,
}

impl<'a, R: Files + Eprint> FileShelf<'a, R> {
    pub fn new(edge: &'a Edge<'a, R>) -> Self {
        FileShelf {
            edge,
            unread: None,
            faults: 0,
        }
    }

    /// Writes a line about the load that failed, if one did.
    pub fn say_fault(&self) {
        if let Some(unread) = &self.unread {
            self.edge.say_fault_of(&unread.name, unread.fault);
        }
    }
}

impl<'a, R: Files + Eprint> Shelf for FileShelf<'a, R> {
    ghost known = { λ shelf. record { faults = shelf.faults; contents = None } };

    fn load(&mut self, alloc: Global, name: &str, limit: usize) -> Loaded
        ensures within { IsFileWithin result limit }
        ensures cause { RisesWhere self.old.faults self.new.faults (result ≡ Loaded.Failed) }
    {
        match read_file(self.edge.system(), alloc, name, limit) {
            Ok(loaded) => loaded,
            Err(fault) => {
                // Without memory there is no line.
                self.unread = match String::from_str(alloc, name) {
                    Ok(name) => Some(Unread { name, fault }),
                    Err(_) => None,
                };
                self.faults = self.faults.saturating_add(1);
                Loaded::Failed
            }
        }
    }
}

// The file with this name, if it can be read.
fn read_file<R: Files>(system: &R, alloc: Global, name: &str, limit: usize) -> io::Result<Loaded>
    ensures within { IfOk result (λ loaded. IsFileWithin loaded limit) }
    ensures read { IfOk result (λ loaded. loaded ≢ Loaded.Failed) }
{
    let file = File::open(system, name)?;
    read_within(alloc, file, limit)
}

// The whole file, if it has at most `limit` bytes. One more byte is read at the most, so a huge file takes no more memory
// than one at the limit.
fn read_within<F: Read + Drop>(alloc: Global, file: F, limit: usize) -> io::Result<Loaded>
    ensures within { IfOk result (λ loaded. IsFileWithin loaded limit) }
    ensures read { IfOk result (λ loaded. loaded ≢ Loaded.Failed) }
    // Where the file's bytes are known, the answer is about them.
    ensures file { IfOk result (λ loaded. IfSome (F.remaining file) (HoldsFile loaded limit)) }
{
    let most = (limit as u64).saturating_add(1);
    match read_front(alloc, file, most) {
        Ok(bytes) if bytes.len() > limit => Ok(Loaded::TooLong),
        Ok(bytes) => Ok(owned(alloc, &bytes)),
        Err(fault) if fault.kind() == ErrorKind::OutOfMemory => Ok(Loaded::NoMemory),
        Err(fault) => Err(fault),
    }
}

// The first bytes of a file, at most this many.
fn read_front<F: Read + Drop>(alloc: Global, file: F, most: u64) -> io::Result<Vec<u8>>
    ensures { IfOk result (λ bytes. IfSome (F.remaining file) (λ all. bytes.items ≡ take most all)) }
{
    let mut bytes = Vec::new(alloc);
    file.take(most).read_to_end(&mut bytes)?;
    Ok(bytes)
}

fn owned(alloc: Global, bytes: &[u8]) -> Loaded
    ensures { IsCopy result bytes.now }
{
    match Octets::from_slice(alloc, bytes) {
        Ok(octets) => Loaded::Bytes(octets),
        Err(NoMemory) => Loaded::NoMemory,
    }
}
