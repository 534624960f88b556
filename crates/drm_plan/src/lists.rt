//! The configurations of a text, one after another.

ghost use Rattle.std.specs.Prelude.{◌≡◌, ◌++◌, IfOk, OnOk};
ghost use Rattle.drm_plan.specs.ConfigTable.{no_lists, with_block, lists_of};

use crate::configs::make_config;
use crate::files::{FileRef, put_files};
use crate::places::LineNumbers;
use drm_bits::NoMemory;
use drm_schedule::{Configs, OwnedList};
use plan_rules::ConfigLines;
use std::alloc::Global;

/// Configurations, the lines of each that a fault can name, and their files.
#[derive(Drop)]
pub struct ConfigTable {
    pub configs: Configs,
    pub places: OwnedList<LineNumbers>,
    pub files: OwnedList<FileRef>,
}

impl ConfigTable {
    fn new(alloc: Global) -> ConfigTable
        ensures { result ≡ no_lists }
    {
        ConfigTable {
            configs: OwnedList::new(alloc),
            places: OwnedList::new(alloc),
            files: OwnedList::new(alloc),
        }
    }

    fn put(&mut self, alloc: Global, block: ConfigLines) -> Result<(), NoMemory>
        ensures { OnOk result (self.new ≡ with_block self.old block) }
    {
        let number = self.configs.len();
        let (config, places) = make_config(alloc, block)?;
        put_files(&mut self.files, number, config.streams.as_slice())?;
        self.configs.push(config)?;
        self.places.push(places)
    }
}

/// What these configurations give.
pub fn make_lists(alloc: Global, blocks: OwnedList<ConfigLines>) -> Result<ConfigTable, NoMemory>
    ensures { IfOk result (λ lists. lists ≡ lists_of blocks) }
{
    let mut lists = ConfigTable::new(alloc);
    for block in blocks.into_vec() {
        lists.put(alloc, block)?;
    }
    Ok(lists)
}
