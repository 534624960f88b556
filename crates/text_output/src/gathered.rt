//! Texts that are gathered, so that short ones go out together.

ghost use Rattle.std.specs.Prelude.{◌≡◌, ◌≤◌, ◌+◌, ◌++◌, [], length, IfOk};
ghost use Rattle.text_output.specs.Gathering.{PutsText, FlushesText};

use drm_bits::NoMemory;
use drm_links::{Sink, WriteFault, write_all};
use std::alloc::Global;
use std::marker::Model;

/// The most bytes that are gathered. A longer text goes out by itself.
const MOST_BYTES: usize = 4_096;

/// Texts on their way out. All its memory is taken where it is made.
#[derive(Drop)]
pub struct Gathered {
    bytes: Vec<u8>,
}

impl Model for Gathered {
    ghost use Rattle.std.specs.Prelude.{ℕ, List, ◌≤◌, vec_len, vec_capacity};

    ghost Value = { List ℕ };

    ghost view = { λ gathered. gathered.bytes.items };

    ghost invariant = { λ gathered. (vec_len gathered.bytes ≤ 4096) × (4096 ≤ vec_capacity gathered.bytes) };
}

impl Gathered {
    /// Nothing is gathered yet.
    pub fn make(alloc: Global) -> Result<Gathered, NoMemory>
        ensures { IfOk result (λ gathered. gathered ≡ []) }
    {
        Ok(Gathered {
            bytes: Vec::with_capacity(alloc, MOST_BYTES)?,
        })
    }

    /// Forgets what is gathered.
    pub fn clear(&mut self)
        ensures { self.new ≡ [] }
    {
        self.bytes.clear();
    }

    /// Puts a text behind those that are gathered. Where there is no room for it, these go out first.
    pub fn put<O: Sink>(&mut self, out: &mut O, text: &[u8]) -> Result<(), WriteFault>
        ensures { PutsText result self.old self.new (O.known out.old) (O.known out.new) text.now }
    {
        if text.len() <= MOST_BYTES - self.bytes.len() {
            self.add(text);
            return Ok(());
        }
        self.flush(out)?;
        if MOST_BYTES < text.len() {
            return write_all(out, text);
        }
        self.add(text);
        Ok(())
    }

    // Puts a text behind those that are gathered, where there is room for it.
    fn add(&mut self, text: &[u8])
        requires { length self.old + length text.now ≤ 4096 }
        ensures { self.new ≡ self.old ++ text.now }
    {
        let Ok(()) = self.bytes.extend_from_slice(text) else {
            unreachable!()
        };
    }

    /// Writes all that is gathered.
    pub fn flush<O: Sink>(&mut self, out: &mut O) -> Result<(), WriteFault>
        ensures { FlushesText result self.old self.new (O.known out.old) (O.known out.new) }
    {
        if self.bytes.is_empty() {
            return Ok(());
        }
        write_all(out, &self.bytes)?;
        self.bytes.clear();
        Ok(())
    }
}
