//! A dock in memory.

ghost use Rattle.std.specs.Prelude.{◌≡◌, ◌+◌, ◌^◌, ◌<◌, ◌≤◌, [], ◌∷◌, true, Some, IsNone, is_some, length, IfOk, IfErr, OnOk, OnErr};
ghost use Rattle.std.specs.Option.{option_map, option_copied};
ghost use Rattle.std.specs.FinMap as map;
ghost use Rattle.drm_links.specs.Known.{HasCause, CountsCall, IfBothKnown, KnownThrough, one_more};
ghost use Rattle.drm_links.specs.Dock.{DockBinds, DockReaches, DockCloses, IsFresh, IsFailed, AreDifferent, address_key};
ghost use Rattle.drm_links.specs.Gathering.{DockGathers, DockDisbands, IsFreshGroup, IsNotGathered, with_history};
ghost use Rattle.drm_links.specs.MemoryGroup.{group_known, ups_of};
ghost use Rattle.drm_links.specs.MemoryLink.{IsUntouchedLink};
ghost use Rattle.drm_links.specs.MemoryDock.{LeavesDock, reached, after_close, link_at, closed_at, dock_known, first_room, past_telling, start_of, with_start};

use crate::book::GroupBook;
use crate::docked_link::{ClosedLink, DockedLink, Standing};
use crate::failing::is_listed;
use crate::memory_group::{GroupRoom, room_for_group};
use crate::{Address, Addresses, Dock, GatheredGroup, Link, MemGroup, MemLink, Opened};
use drm_bits::NoMemory;
use std::alloc::Global;
use std::collections::{BTreeMap, LinkedList};
use std::marker::Model;

/// Why a link wasn't put. It comes back.
#[derive(Drop)]
pub enum PutFault {
    NoMemory(MemLink),
}

/// A dock that gives the links that were put, keeps those that are closed, and fails where told.
#[derive(Drop)]
pub struct MemDock {
    links: BTreeMap<[u16; 5], Standing>,
    closed: LinkedList<Option<ClosedLink>>,
    failing: Vec<u64>,
    histories: LinkedList<Option<GroupBook>>,
    room: u32,
    openings: u64,
    reaches: u64,
    calls: u64,
    faults: u64,
}

impl Model for MemDock {
    ghost use Rattle.std.specs.Prelude.{◌≡◌, ◌≤◌, length};
    ghost use Rattle.std.specs.FinMap as map;
    ghost use Rattle.drm_links.specs.MemoryDock.{DockState, dock_code};

    ghost Value = { DockState };

    ghost coded = { dock_code };

    ghost use Rattle.drm_links.specs.ClosedLinks.{entries_of, histories_of};

    ghost view = { λ dock. record {
      links = map.from_entries dock.links.entries;
      closed = entries_of dock.closed;
      failing = dock.failing.items;
      histories = histories_of dock.histories;
      room = dock.room;
      openings = dock.openings;
      reaches = dock.reaches;
      calls = dock.calls;
      faults = dock.faults;
    } };

    ghost invariant = { λ dock. (dock.openings ≤ dock.calls)
        × (dock.reaches ≤ dock.calls)
        × (length dock.closed ≤ dock.calls)
        × (length (entries_of dock.closed) ≡ length dock.closed) };
}

// The most nodes of a list.
const MOST_CLOSED: usize = 0x7fff_ffff_ffff_ffff;

// How many events are told of a group, unless another number is set.
const FIRST_ROOM: u32 = 1024;

// More calls than those after which the dock still tells.
const PAST_TELLING: u64 = (1 << 62) + 1;

// The key of an address: its four bytes and its port.
fn key_of(at: Address) -> [u16; 5]
    ensures { result ≡ address_key at }
{
    let [a, b, c, d] = at.ip;
    [
        u16::from(a),
        u16::from(b),
        u16::from(c),
        u16::from(d),
        at.port,
    ]
}

impl MemDock {
    /// A dock without links. The numbers in `fail` count the openings from 0, those of `bind` and `reach` together.
    pub fn make(alloc: Global, fail: &[u64]) -> Result<MemDock, NoMemory>
        ensures made { IfOk result (λ dock. dock ≡ record {
          links = map.empty;
          closed = [];
          failing = fail.now;
          histories = [];
          room = first_room;
          openings = 0;
          reaches = 0;
          calls = 0;
          faults = 0;
        }) }
        ensures tells { IfOk result (λ dock. (⟦<MemDock as Dock>⟧.known dock).contents
            ≡ Some (record {
              openings = 0;
              reaches = 0;
              failing = fail.now;
              links = map.empty;
              answers = map.empty;
              gone = map.empty;
              rests = map.empty;
              histories = [];
              room = first_room;
              calls = 0;
            })) }
        ensures faults { IfOk result (λ dock. (⟦<MemDock as Dock>⟧.known dock).faults ≡ 0) }
    {
        Ok(MemDock {
            links: BTreeMap::new(alloc),
            closed: LinkedList::new(alloc),
            failing: fail.to_vec(alloc)?,
            histories: LinkedList::new(alloc),
            room: FIRST_ROOM,
            openings: 0,
            reaches: 0,
            calls: 0,
            faults: 0,
        })
    }

    /// Puts a link, on which no call was made, at an address where none stands.
    pub fn put(&mut self, alloc: Global, at: Address, link: MemLink) -> Result<(), PutFault>
        requires untouched { IsUntouchedLink link }
        requires vacant { IsNone (link_at self.old at) }
        ensures put { OnOk result (self.new
            ≡ record self.old { links = map.insert self.old.links (address_key at) link }) }
        ensures tells { OnOk result ((dock_known self.new).contents
            ≡ option_map (with_start at (start_of link)) (dock_known self.old).contents) }
        ensures returned { IfErr result (λ fault. fault ≡ PutFault.NoMemory link) }
        ensures unchanged { OnErr result (self.new ≡ self.old) }
    {
        let docked = match DockedLink::make(alloc, link) {
            Ok(docked) => docked,
            Err(link) => return Err(PutFault::NoMemory(link)),
        };
        match self.links.insert(key_of(at), Standing::make(docked)) {
            Ok(_) => Ok(()),
            Err(refused) => {
                let (_, standing) = refused.value;
                Err(PutFault::NoMemory(standing.into_docked().into_link()))
            }
        }
    }

    /// Has so many events told of each group that is opened from now on.
    pub fn set_room(&mut self, events: u32)
        ensures { self.new ≡ record self.old { room = events } }
    {
        self.room = events;
    }

    /// Whether a link stands at this address.
    pub fn has(&self, at: Address) -> bool
        ensures { result ≡ is_some (link_at self.now at) }
    {
        self.links.contains_key(&key_of(at))
    }

    /// The link that was closed last at this address.
    pub fn closed(&self, at: Address) -> Option<&MemLink>
        ensures { option_copied result ≡ closed_at self.now at }
    {
        let key = key_of(at);
        let mut nodes = self.closed.iter();
        while let Some(node) = nodes.next() {
            if let Some(closed) = node
                && key == key_of(closed.at)
            {
                return Some(&closed.link);
            }
        }
        None
    }

    // What is known of the dock between its calls.
    fn counted(&self)
        ensures openings { self.now.openings ≤ self.now.calls }
        ensures reaches { self.now.reaches ≤ self.now.calls }
    {
        let _ = &self.calls;
    }

    // Tells nothing any more.
    fn stop_telling(&mut self)
        ensures { self.new ≡ past_telling self.old }
    {
        self.calls = self.calls.max(PAST_TELLING);
    }

    // Opens a link that receives.
    pub(crate) fn open_bound(&mut self, at: Address) -> Opened<DockedLink>
        ensures exact { LeavesDock result at self.old self.new }
        ensures fresh { IsFresh ⟦<DockedLink as Link>⟧.known ⟦<DockedLink as Link>⟧.idles result }
        ensures opened { IfBothKnown (dock_known self.old) (dock_known self.new)
            (DockBinds ⟦<DockedLink as Link>⟧.known at result) }
        ensures counts_call { CountsCall (λ contents. contents.calls) (dock_known self.old) (dock_known self.new) }
        ensures cause { HasCause (dock_known self.old) (dock_known self.new) (IsFailed result) }
    {
        self.counted();
        self.take_out(at)
    }

    // Opens a link that sends.
    pub(crate) fn open_reached(&mut self, at: Address) -> Opened<DockedLink>
        ensures exact { LeavesDock result at (reached self.old) self.new }
        ensures fresh { IsFresh ⟦<DockedLink as Link>⟧.known ⟦<DockedLink as Link>⟧.idles result }
        ensures opened { IfBothKnown (dock_known self.old) (dock_known self.new)
            (DockReaches ⟦<DockedLink as Link>⟧.known at result) }
        ensures counts_call { CountsCall (λ contents. contents.calls) (dock_known self.old) (dock_known self.new) }
        ensures cause { HasCause (dock_known self.old) (dock_known self.new) (IsFailed result) }
    {
        self.counted();
        let opened = self.take_out(at);
        self.count_reach();
        opened
    }

    // Takes back a link.
    pub(crate) fn close_link(&mut self, at: Address, link: DockedLink)
        ensures exact { length self.old.closed + 1 < 2 ^ 63 → self.new ≡ after_close at link self.old }
        ensures gone { IfBothKnown (dock_known self.old) (dock_known self.new)
            (DockCloses (⟦<DockedLink as Link>⟧.known link).contents at) }
        ensures counts_call { CountsCall (λ contents. contents.calls) (dock_known self.old) (dock_known self.new) }
        ensures cause { self.new.faults ≡ self.old.faults }
    {
        self.calls = self.calls.saturating_add(1);
        if self.closed.len() < MOST_CLOSED {
            let mut node = link.into_closed(at);
            let Ok(()) = node.append(&mut self.closed) else {
                unreachable!()
            };
            self.closed = node;
        }
    }

    // Keeps what happened at a group, or tells nothing any more where that isn't known.
    fn keep_history(&mut self, book: GroupBook, page: LinkedList<Option<GroupBook>>)
        requires { length page ≡ 1 }
        ensures kept { KnownThrough (dock_known self.old) (dock_known self.new) (λ before after.
            (book.tells ≡ true) × (after ≡ with_history book.events before)) }
        ensures cause { self.new.faults ≡ self.old.faults }
    {
        let tells = book.tells();
        let mut node = filled(book, page);
        if tells && self.histories.len() < MOST_CLOSED {
            let Ok(()) = node.append(&mut self.histories) else {
                unreachable!()
            };
            self.histories = node;
        } else {
            self.stop_telling();
        }
    }

    // Counts an opening by `reach`.
    fn count_reach(&mut self)
        requires { one_more self.old.reaches ≤ self.old.calls }
        ensures { self.new ≡ reached self.old }
    {
        self.reaches = self.reaches.saturating_add(1);
    }

    // Gives the link that stands at this address.
    fn take_out(&mut self, at: Address) -> Opened<DockedLink>
        ensures exact { LeavesDock result at self.old self.new }
        ensures fresh { IsFresh ⟦<DockedLink as Link>⟧.known ⟦<DockedLink as Link>⟧.idles result }
        ensures cause { HasCause (dock_known self.old) (dock_known self.new) (IsFailed result) }
    {
        let opening = self.openings;
        self.openings = opening.saturating_add(1);
        self.calls = self.calls.saturating_add(1);
        if is_listed(&self.failing, opening) {
            self.faults = self.faults.saturating_add(1);
            return Opened::Failed;
        }
        let Some(standing) = self.links.remove(&key_of(at)) else {
            self.faults = self.faults.saturating_add(1);
            return Opened::Failed;
        };
        Opened::Link(standing.into_docked())
    }
}

impl Dock for MemDock {
    type L = DockedLink;

    type G = MemGroup;

    ghost known = { dock_known };

    fn bind(&mut self, at: Address) -> Opened<DockedLink>
        ensures exact { LeavesDock result at self.old self.new }
        ensures fresh { IsFresh ⟦<DockedLink as Link>⟧.known ⟦<DockedLink as Link>⟧.idles result }
        ensures opened { IfBothKnown (dock_known self.old) (dock_known self.new)
            (DockBinds ⟦<DockedLink as Link>⟧.known at result) }
        ensures counts_call { CountsCall (λ contents. contents.calls) (dock_known self.old) (dock_known self.new) }
        ensures cause { HasCause (dock_known self.old) (dock_known self.new) (IsFailed result) }
    {
        self.open_bound(at)
    }

    fn reach(&mut self, at: Address) -> Opened<DockedLink>
        ensures exact { LeavesDock result at (reached self.old) self.new }
        ensures fresh { IsFresh ⟦<DockedLink as Link>⟧.known ⟦<DockedLink as Link>⟧.idles result }
        ensures opened { IfBothKnown (dock_known self.old) (dock_known self.new)
            (DockReaches ⟦<DockedLink as Link>⟧.known at result) }
        ensures counts_call { CountsCall (λ contents. contents.calls) (dock_known self.old) (dock_known self.new) }
        ensures cause { HasCause (dock_known self.old) (dock_known self.new) (IsFailed result) }
    {
        self.open_reached(at)
    }

    fn close(&mut self, at: Address, link: DockedLink)
        ensures exact { length self.old.closed + 1 < 2 ^ 63 → self.new ≡ after_close at link self.old }
        ensures gone { IfBothKnown (dock_known self.old) (dock_known self.new)
            (DockCloses (⟦<DockedLink as Link>⟧.known link).contents at) }
        ensures counts_call { CountsCall (λ contents. contents.calls) (dock_known self.old) (dock_known self.new) }
        ensures cause { self.new.faults ≡ self.old.faults }
    {
        self.close_link(at, link);
    }

    fn gather(
        &mut self,
        alloc: Global,
        from: Option<Address>,
        to: &Addresses,
    ) -> GatheredGroup<MemGroup>
        requires different { AreDifferent to.now }
        ensures fresh { IsFreshGroup group_known (λ group. ups_of group.members) (length to.now) result }
        ensures gathered { KnownThrough (dock_known self.old) (dock_known self.new) (DockGathers group_known from to.now result) }
        ensures untouched { result ≡ GatheredGroup.NoMemory → self.new ≡ self.old }
        ensures cause { HasCause (dock_known self.old) (dock_known self.new) (IsNotGathered result) }
    {
        let Ok(room) = room_for_group(alloc, to.len(), self.room) else {
            return GatheredGroup::NoMemory;
        };
        match from {
            Some(at) => self.gather_from(at, room, to),
            None => self.gather_idle(alloc, room, to),
        }
    }

    fn disband(&mut self, from: Option<Address>, to: &Addresses, group: MemGroup)
        requires { length (ups_of group.members) ≡ length to.now }
        ensures disbanded { KnownThrough (dock_known self.old) (dock_known self.new) (DockDisbands (group_known group) from to.now) }
        ensures cause { self.new.faults ≡ self.old.faults }
    {
        let (source, room) = group.into_parts();
        let GroupRoom {
            members,
            book,
            page,
        } = room;
        self.close_all(to, members);
        self.close_source(from, source);
        self.keep_history(book, page);
    }
}

// A node that holds this book.
fn filled(book: GroupBook, page: LinkedList<Option<GroupBook>>) -> LinkedList<Option<GroupBook>>
    requires { length page ≡ 1 }
    ensures { result ≡ Some book ∷ [] }
{
    let mut page = page;
    let Some(place) = page.front_mut() else {
        unreachable!()
    };
    *place = Some(book);
    page
}
