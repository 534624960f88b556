//! A shelf in memory.

ghost use Rattle.std.specs.Prelude.{◌≡◌, ◌++◌, ◌∷◌, [], Some, IfOk, OnOk, OnErr};
ghost use Rattle.std.specs.Option.{option_map, option_copied};
ghost use Rattle.std.specs.FinMap as map;
ghost use Rattle.drm_links.specs.Known.{HasCause, CountsCall, IfBothKnown};
ghost use Rattle.drm_links.specs.Shelf.{LoadGives, ShelfLoads, KeepsFiles, IsFileWithin};
ghost use Rattle.drm_links.specs.MemoryShelf.{contents_of, shelf_known, with_file, shelf_after};

use crate::failing::is_listed;
use crate::{Loaded, Shelf};
use drm_bits::{NoMemory, Octets};
use std::alloc::Global;
use std::collections::BTreeMap;
use std::marker::Model;

/// A shelf with the files that were added, which fails the loads whose numbers are listed.
#[derive(Drop)]
pub struct MemShelf {
    files: BTreeMap<String, Octets>,
    failing: Vec<u64>,
    loads: u64,
    names: Vec<Octets>,
    faults: u64,
}

impl Model for MemShelf {
    ghost use Rattle.drm_links.specs.MemoryShelf.{ShelfState, by_name, shelf_code};

    ghost Value = { ShelfState };

    ghost coded = { shelf_code };

    ghost view = { λ shelf. record {
      files = by_name shelf.files;
      failing = shelf.failing.items;
      loads = shelf.loads;
      names = shelf.names.items;
      faults = shelf.faults;
    } };
}

impl MemShelf {
    /// A shelf without files. The numbers in `fail` count the loads from 0.
    pub fn make(alloc: Global, fail: &[u64]) -> Result<MemShelf, NoMemory>
        ensures made { IfOk result (λ shelf. shelf
            ≡ record { files = map.empty; failing = fail.now; loads = 0; names = []; faults = 0 }) }
        ensures tells { IfOk result (λ shelf. (⟦<MemShelf as Shelf>⟧.known shelf).contents
            ≡ Some (record { files = map.empty; loads = 0; names = []; failing = fail.now })) }
        ensures faults { IfOk result (λ shelf. (⟦<MemShelf as Shelf>⟧.known shelf).faults ≡ 0) }
    {
        Ok(MemShelf {
            files: BTreeMap::new(alloc),
            failing: fail.to_vec(alloc)?,
            loads: 0,
            names: Vec::new(alloc),
            faults: 0,
        })
    }

    /// Puts a file on the shelf, in place of one of that name.
    pub fn add(&mut self, alloc: Global, name: &str, bytes: &[u8]) -> Result<(), NoMemory>
        ensures added { OnOk result (self.new
            ≡ record self.old { files = map.insert self.old.files name.now bytes.now }) }
        ensures tells { OnOk result ((⟦<MemShelf as Shelf>⟧.known self.new).contents
            ≡ option_map (with_file name.now bytes.now) (⟦<MemShelf as Shelf>⟧.known self.old).contents) }
        ensures unchanged { OnErr result (self.new ≡ self.old) }
    {
        let name = String::from_str(alloc, name)?;
        let file = Octets::from_slice(alloc, bytes)?;
        match self.files.insert(name, file) {
            Ok(_) => Ok(()),
            Err(_) => Err(NoMemory),
        }
    }

    /// The names that were asked for, in order.
    pub fn names(&self) -> &[Octets]
        ensures { result.now ≡ self.now.names }
    {
        &self.names
    }

    // Notes that this name was asked for.
    fn note(&mut self, alloc: Global, name: &str) -> Result<(), NoMemory>
        ensures noted { OnOk result (self.new ≡ record self.old { names = self.old.names ++ name.now ∷ [] }) }
        ensures unchanged { OnErr result (self.new ≡ self.old) }
    {
        let name = Octets::from_slice(alloc, name.as_bytes())?;
        match self.names.push(name) {
            Ok(()) => Ok(()),
            Err(_) => Err(NoMemory),
        }
    }

    // What the next load gives.
    fn next_load(&self, alloc: Global, name: &str, limit: usize) -> Loaded
        ensures { ShelfLoads result name.now limit (contents_of self.now) }
    {
        if is_listed(&self.failing, self.loads) {
            Loaded::Failed
        } else {
            copy_within(alloc, self.files.get(name), limit)
        }
    }

    // Takes one load.
    fn take_load(&mut self, alloc: Global, name: &str, limit: usize) -> Loaded
        ensures loads { ShelfLoads result name.now limit (contents_of self.old) }
        ensures exact { self.new ≡ shelf_after result name.now self.old }
    {
        let loaded = self.next_load(alloc, name, limit);
        self.loads = self.loads.saturating_add(1);
        if matches!(&loaded, Loaded::NoMemory) || self.note(alloc, name).is_err() {
            return Loaded::NoMemory;
        }
        if matches!(&loaded, Loaded::Failed) {
            self.faults = self.faults.saturating_add(1);
        }
        loaded
    }
}

impl Shelf for MemShelf {
    ghost known = { shelf_known };

    fn load(&mut self, alloc: Global, name: &str, limit: usize) -> Loaded
        ensures loads { ShelfLoads result name.now limit (contents_of self.old) }
        ensures exact { self.new ≡ shelf_after result name.now self.old }
        ensures within { IsFileWithin result limit }
        ensures file { IfBothKnown (shelf_known self.old) (shelf_known self.new)
            (λ before _. ShelfLoads result name.now limit before) }
        ensures kept { IfBothKnown (shelf_known self.old) (shelf_known self.new) (KeepsFiles result name.now) }
        ensures counts_call { CountsCall (λ files. files.loads) (shelf_known self.old) (shelf_known self.new) }
        ensures cause { HasCause (shelf_known self.old) (shelf_known self.new) (result ≡ Loaded.Failed) }
    {
        self.take_load(alloc, name, limit)
    }
}

// A copy of the file, if there is one and it has at most `limit` bytes.
fn copy_within(alloc: Global, file: Option<&Octets>, limit: usize) -> Loaded
    ensures { LoadGives result limit (option_copied file.entry) }
{
    match file {
        None => Loaded::Failed,
        Some(file) if file.as_slice().len() > limit => Loaded::TooLong,
        Some(file) => match Octets::from_slice(alloc, file.as_slice()) {
            Ok(copy) => Loaded::Bytes(copy),
            Err(NoMemory) => Loaded::NoMemory,
        },
    }
}
