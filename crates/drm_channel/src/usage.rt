//! What a configuration uses of a channel.

ghost use Rattle.std.specs.Prelude.{◌≡◌, ◌≤◌, ◌<◌, ◌*◌, ◌^◌, ◌↔◌, IsTrue};
ghost use Rattle.drm_channel.specs.Cells.{msc_cells};
ghost use Rattle.drm_channel.specs.Usage as usages;

use crate::coding::MscCoding;
use crate::sdc::sdc_bytes;
use crate::setup::Setup;

/// What a configuration uses of a channel, and what there is: cells and bytes of a multiplex frame, and bytes of an SDC block.
#[derive(Clone, Copy, Debug, PartialEq, Eq)]
pub struct Usage {
    /// The cells of the MSC.
    pub cells: u32,
    /// The bytes of part A.
    pub part_a: u16,
    /// The cells that it takes; `None` where it has bytes and its protection level has no code rates.
    pub part_a_cells: Option<u32>,
    /// The bytes of part B.
    pub part_b: u16,
    /// The bytes that there are for it; `None` where its protection level has no code rates.
    pub part_b_room: Option<u32>,
    /// The bytes of the data field of an SDC block.
    pub sdc: u16,
    /// The bytes that it must have in this channel.
    pub sdc_room: u16,
}

// The cells that part A takes.
fn part_a_cells(setup: &Setup) -> Option<u32>
    ensures { result ≡ usages.part_a_cells setup.now }
{
    if setup.part_a.bytes == 0 {
        return Some(0);
    }
    let coding = MscCoding::of(setup.constellation, setup.part_a.protection)?;
    Some(coding.cells_for(setup.part_a.bytes))
}

// The bits that so many cells of part A carry.
fn part_a_carries(setup: &Setup, cells: u32) -> u32
    requires { cells < 2 ^ 19 }
    ensures carries { result ≡ usages.part_a_carries setup.now cells }
    ensures below_limit { result < 2 ^ 26 }
{
    match MscCoding::of(setup.constellation, setup.part_a.protection) {
        Some(coding) => coding.carried(2 * cells),
        None => 0,
    }
}

// The bytes that there are for part B where part A takes so many cells.
fn part_b_room(setup: &Setup, part_a_cells: Option<u32>) -> Option<u32>
    ensures { result ≡ usages.part_b_room setup.now part_a_cells }
{
    let cells = setup.signal.msc_cells();
    match part_a_cells {
        Some(n) if n <= cells => {
            let coding = MscCoding::of(setup.constellation, setup.part_b.protection)?;
            let bits = (2 * (cells - n)).saturating_sub(12);
            let carried = part_a_carries(setup, n) + coding.carried(bits);
            Some((carried / 8).saturating_sub(u32::from(setup.part_a.bytes)))
        }
        _ => Some(0),
    }
}

impl Usage {
    /// What a configuration of this setup uses.
    pub fn of(setup: &Setup) -> Usage
        ensures { result ≡ usages.usage_of setup.now }
    {
        let part_a_cells = part_a_cells(setup);
        Usage {
            cells: setup.signal.msc_cells(),
            part_a: setup.part_a.bytes,
            part_a_cells,
            part_b: setup.part_b.bytes,
            part_b_room: part_b_room(setup, part_a_cells),
            sdc: setup.sdc,
            sdc_room: sdc_bytes(setup.signal, setup.sdc_mode),
        }
    }

    /// The bits a second of all streams.
    pub fn rate(&self) -> u32
        ensures { result ≡ usages.rate self.now }
    {
        20 * (u32::from(self.part_a) + u32::from(self.part_b))
    }

    /// Whether part A takes more cells than there are.
    pub fn is_part_a_over(&self) -> bool
        ensures { result ≡ usages.is_part_a_over self.now }
    {
        match self.part_a_cells {
            Some(n) => self.cells < n,
            None => true,
        }
    }

    /// Whether part B has more bytes than there are for it.
    pub fn is_part_b_over(&self) -> bool
        ensures { result ≡ usages.is_part_b_over self.now }
    {
        match self.part_b_room {
            Some(room) => room < u32::from(self.part_b),
            None => self.part_b != 0,
        }
    }

    /// Whether an SDC block has more bytes than it must have.
    pub fn is_sdc_over(&self) -> bool
        ensures { result ≡ usages.is_sdc_over self.now }
    {
        self.sdc_room < self.sdc
    }

    /// Whether an SDC block has fewer bytes than it must have.
    pub fn is_sdc_short(&self) -> bool
        ensures { result ≡ usages.is_sdc_short self.now }
    {
        self.sdc < self.sdc_room
    }

    /// Whether the channel carries all of it.
    pub fn fits(&self) -> bool
        ensures value { result ≡ usages.fits self.now }
        ensures exact { IsTrue result ↔ usages.FitsChannel self.now }
    {
        !(self.is_part_a_over()
            || self.is_part_b_over()
            || self.is_sdc_over()
            || self.is_sdc_short())
    }
}
