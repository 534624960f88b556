//! A dock of links that wait for the last of them.

ghost use Rattle.std.specs.Prelude.{◌≡◌, None, IfOk};
ghost use Rattle.drm_links.specs.Known.{RisesWhere};
ghost use Rattle.drm_links.specs.Dock.{IsFresh, IsFailed};

use crate::link::GatedLink;
use crate::packets::PACKETS;
use drm_bits::NoMemory;
use drm_links::{Address, Addresses, Dock, GatheredGroup, Link, MemGroup, Opened};
use std::alloc::Global;
use std::sync::atomic::AtomicU64;

/// The port of the first link; those of the others follow it.
const FIRST_PORT: u16 = 5001;

/// Which of the packets a link brings: from one on, and up to another.
#[derive(Clone, Copy)]
pub struct Share {
    pub from: usize,
    pub to: usize,
}

const NOTHING: Share = Share { from: 0, to: 0 };

/// Gives a link for each of these shares, by its port. All but the last wait for that one.
#[derive(Drop)]
pub struct GatedDock<'a> {
    alloc: Global,
    shares: &'a [Share],
    // Whether the last link was asked.
    asked: &'a AtomicU64,
    faults: u64,
}

impl<'a> GatedDock<'a> {
    /// A dock of links that weren't asked yet.
    pub fn make(alloc: Global, shares: &'a [Share], asked: &'a AtomicU64) -> GatedDock<'a> {
        GatedDock {
            alloc,
            shares,
            asked,
            faults: 0,
        }
    }

    // The link of a port; that of a port behind them brings nothing.
    fn link_of(&self, port: u16) -> Result<GatedLink<'a>, NoMemory>
        ensures { IfOk result (λ link. (link.inner.faults ≡ 0) × (link.idles ≡ 0)) }
    {
        let index = usize::from(port.wrapping_sub(FIRST_PORT));
        let waits = index.saturating_add(1) != self.shares.len();
        let share = self.shares.get(index).copied().unwrap_or(NOTHING);
        let to = share.to.min(PACKETS.len());
        let packets = &PACKETS[share.from.min(to)..to];
        GatedLink::make(self.alloc, waits, packets, self.asked)
    }

    fn open(&mut self, at: Address) -> Opened<GatedLink<'a>>
        ensures fresh { IsFresh ⟦<GatedLink<'a> as Link>⟧.known ⟦<GatedLink<'a> as Link>⟧.idles result }
        ensures cause { RisesWhere self.old.faults self.new.faults (IsFailed result) }
    {
        match self.link_of(at.port) {
            Ok(link) => Opened::Link(link),
            Err(NoMemory) => {
                self.faults = self.faults.saturating_add(1);
                Opened::Failed
            }
        }
    }
}

impl<'a> Dock for GatedDock<'a> {
    type L = GatedLink<'a>;

    type G = MemGroup;

    ghost known = { λ dock. record { faults = dock.faults; contents = None } };

    fn bind(&mut self, at: Address) -> Opened<GatedLink<'a>> {
        self.open(at)
    }

    fn reach(&mut self, at: Address) -> Opened<GatedLink<'a>> {
        self.open(at)
    }

    fn close(&mut self, _at: Address, link: GatedLink<'a>) {
        drop(link);
    }

    // It has no groups.
    fn gather(
        &mut self,
        _alloc: Global,
        _from: Option<Address>,
        _to: &Addresses,
    ) -> GatheredGroup<MemGroup> {
        self.faults = self.faults.saturating_add(1);
        GatheredGroup::Failed
    }

    fn disband(&mut self, _from: Option<Address>, _to: &Addresses, group: MemGroup) {
        drop(group);
    }
}
