//! Where links are opened.

ghost use Rattle.std.specs.Prelude.{ℕ, ◌≡◌, Option, length};
ghost use Rattle.drm_links.specs.Known.{Known, HasCause, CountsCall, IfBothKnown, KnownThrough};
ghost use Rattle.drm_links.specs.Dock.{DockContents, DockBinds, DockReaches, DockCloses, IsFresh, IsFailed, AreDifferent};
ghost use Rattle.drm_links.specs.Gathering.{DockGathers, DockDisbands, IsFreshGroup, IsNotGathered};

use crate::{Group, Link};
use drm_lists::OwnedList;
use std::alloc::Global;

/// An IPv4 address, the first byte as it is written first, and a port.
#[derive(Clone, Copy, Debug, PartialEq, Eq)]
pub struct Address {
    pub ip: [u8; 4],
    pub port: u16,
}

/// Several addresses, in their order.
pub type Addresses = OwnedList<Address>;

#[derive(Drop)]
pub enum Opened<L> {
    Link(L),
    Failed,
}

/// A group of links that was to be opened.
#[derive(Drop)]
pub enum GatheredGroup<G> {
    Group(G),
    Failed,
    /// No opening was made.
    NoMemory,
}

pub trait Dock {
    type L: Link;

    type G: Group;

    /// How often a call has failed, and the openings so far, the links that stand ready, and what went over closed ones, where
    /// the dock tells them.
    ghost known: { Self → Known DockContents };

    /// Opens a link that receives at this address.
    fn bind(&mut self, at: Address) -> Opened<Self::L>
        ensures fresh { IsFresh Self.L.known Self.L.idles result }
        ensures opened { IfBothKnown (known self.old) (known self.new) (DockBinds Self.L.known at result) }
        ensures counts_call { CountsCall (λ contents. contents.calls) (known self.old) (known self.new) }
        ensures cause { HasCause (known self.old) (known self.new) (IsFailed result) };

    /// Opens a link that sends to this address.
    fn reach(&mut self, at: Address) -> Opened<Self::L>
        ensures fresh { IsFresh Self.L.known Self.L.idles result }
        ensures opened { IfBothKnown (known self.old) (known self.new) (DockReaches Self.L.known at result) }
        ensures counts_call { CountsCall (λ contents. contents.calls) (known self.old) (known self.new) }
        ensures cause { HasCause (known self.old) (known self.new) (IsFailed result) };

    /// Takes back the link that was opened at this address.
    fn close(&mut self, at: Address, link: Self::L)
        ensures gone { IfBothKnown (known self.old) (known self.new) (DockCloses (Self.L.known link).contents at) }
        ensures counts_call { CountsCall (λ contents. contents.calls) (known self.old) (known self.new) }
        ensures cause { (known self.new).faults ≡ (known self.old).faults };

    /// Opens a link that receives, if an address is given for it, and then one that sends to each of the others, in their order. Where
    /// an opening fails no further one is made, and those that were opened are closed. All memory is taken before the first opening.
    fn gather(
        &mut self,
        alloc: Global,
        from: Option<Address>,
        to: &Addresses,
    ) -> GatheredGroup<Self::G>
        requires different { AreDifferent to.now }
        ensures fresh { IsFreshGroup Self.G.known Self.G.up (length to.now) result }
        ensures gathered { KnownThrough (known self.old) (known self.new) (DockGathers Self.G.known from to.now result) }
        ensures untouched { result ≡ GatheredGroup.NoMemory → self.new ≡ self.old }
        ensures cause { HasCause (known self.old) (known self.new) (IsNotGathered result) };

    /// Takes back the group that was opened at these addresses.
    fn disband(&mut self, from: Option<Address>, to: &Addresses, group: Self::G)
        requires { length (Self.G.up group) ≡ length to.now }
        ensures disbanded { KnownThrough (known self.old) (known self.new) (DockDisbands (Self.G.known group) from to.now) }
        ensures cause { (known self.new).faults ≡ (known self.old).faults };
}
