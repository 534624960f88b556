//! Named files.

ghost use Rattle.std.specs.Prelude.{ℕ, ◌≡◌, Option};
ghost use Rattle.drm_links.specs.Known.{Known, HasCause, CountsCall, IfBothKnown};
ghost use Rattle.drm_links.specs.Shelf.{Files, ShelfLoads, KeepsFiles, IsFileWithin};

use drm_bits::Octets;
use std::alloc::Global;

#[derive(Drop)]
pub enum Loaded {
    Bytes(Octets),
    /// The file is longer than the limit.
    TooLong,
    /// There is no such file, or it couldn't be read.
    Failed,
    NoMemory,
}

pub trait Shelf {
    /// How often a call has failed, and the files and the names that were asked for, where the shelf tells them.
    ghost known: { Self → Known Files };

    /// The file of this name, if it has at most `limit` bytes.
    fn load(&mut self, alloc: Global, name: &str, limit: usize) -> Loaded
        ensures within { IsFileWithin result limit }
        ensures file { IfBothKnown (known self.old) (known self.new)
            (λ before _. ShelfLoads result name.now limit before) }
        ensures kept { IfBothKnown (known self.old) (known self.new) (KeepsFiles result name.now) }
        ensures counts_call { CountsCall (λ files. files.loads) (known self.old) (known self.new) }
        ensures cause { HasCause (known self.old) (known self.new) (result ≡ Loaded.Failed) };
}
