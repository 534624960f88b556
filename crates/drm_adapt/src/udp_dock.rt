//! The network of the system as a dock. It tells nothing.

ghost use Rattle.std.specs.Prelude.{◌≡◌, true, None, length, replicate, IsErr, IfOk};
ghost use Rattle.drm_links.specs.Known.{RisesWhere};
ghost use Rattle.drm_links.specs.Dock.{IsFresh, IsFailed};
ghost use Rattle.drm_links.specs.Gathering.{IsFreshGroup, IsNotGathered};

use crate::{UdpGroup, UdpLink};
use cli_notices::Edge;
use drm_bits::NoMemory;
use drm_links::{Address, Addresses, Dock, GatheredGroup, Group, Link, LinkFault, Opened};
use std::alloc::Global;
use std::io::{self, Eprint};
use std::net::{Ipv4Addr, Net, SocketAddr, SocketAddrV4, UdpSocket};
use std::time::Clock;

/// No address in particular: the system chooses.
const ANY: Address = Address {
    ip: [0, 0, 0, 0],
    port: 0,
};

/// Why a link failed, or couldn't be opened.
#[derive(Clone, Copy, Drop)]
struct Failure {
    at: SocketAddr,
    fault: io::Error,
}

/// A dock over the sockets of a runtime.
#[derive(Drop)]
pub struct UdpDock<'a, R> {
    edge: &'a Edge<'a, R>,
    failures: Vec<Failure>,
    faults: u64,
}

impl<'a, R: Net + Clock + Eprint> UdpDock<'a, R> {
    pub fn new(edge: &'a Edge<'a, R>) -> Self {
        UdpDock {
            edge,
            failures: Vec::new(edge.alloc()),
            faults: 0,
        }
    }

    /// Writes a line for each link that failed or couldn't be opened, in the order in which that came out.
    pub fn say_faults(&self) {
        for failure in &self.failures {
            self.edge.say_fault(failure.at, Some(failure.fault));
        }
    }

    fn keep(&mut self, at: Address, fault: io::Error)
        ensures { (self.new).faults ≡ (self.old).faults }
    {
        let at = socket_addr(at);
        // Without memory there is no line.
        let _ = self.failures.push(Failure { at, fault });
    }

    // Takes back a link, and keeps why it failed, if it did.
    fn put_back(&mut self, at: Address, link: UdpLink<'a, R>)
        ensures { (self.new).faults ≡ (self.old).faults }
    {
        if let Some(fault) = ended(link) {
            self.keep(at, fault);
        }
    }

    // The same of links that were opened at the first addresses, in their order.
    fn put_all_back(&mut self, to: &Addresses, links: Vec<UdpLink<'a, R>>)
        ensures { (self.new).faults ≡ (self.old).faults }
    {
        let mut k = 0;
        for link in links {
            if k < to.len() {
                self.put_back(*to.get(k), link);
                k += 1;
            }
        }
    }

    // The socket isn't connected: else the system would make it a fault of a send that nobody listens there.
    fn open_towards(&mut self, at: Address) -> Opened<UdpLink<'a, R>>
        ensures fresh { IsFresh ⟦<UdpLink<'a, R> as Link>⟧.known ⟦<UdpLink<'a, R> as Link>⟧.idles result }
        ensures cause { RisesWhere self.old.faults self.new.faults (IsFailed result) }
    {
        self.edge.reaches_one_more();
        self.open(ANY, Some(at))
    }

    // Opens a link to each address, up to one that can't be opened, with memory that was taken before.
    fn open_all(
        &mut self,
        room: Vec<UdpLink<'a, R>>,
        to: &Addresses,
    ) -> Result<Vec<UdpLink<'a, R>>, LinkFault>
        ensures { RisesWhere self.old.faults self.new.faults (IsErr result) }
    {
        let mut links = room;
        for k in 0..to.len() {
            match self.open_towards(*to.get(k)) {
                Opened::Link(link) => {
                    // There is room.
                    let _ = links.push(link);
                }
                Opened::Failed => {
                    self.put_all_back(to, links);
                    return Err(LinkFault);
                }
            }
        }
        Ok(links)
    }

    // A group that receives over this link.
    fn open_group(
        &mut self,
        source: Option<UdpLink<'a, R>>,
        from: Option<Address>,
        to: &Addresses,
        room: SocketRoom<'a, R>,
    ) -> GatheredGroup<UdpGroup<'a, R>>
        requires { room.ups.items ≡ replicate (length to.now) true }
        ensures fresh { IsFreshGroup ⟦<UdpGroup<'a, R> as Group>⟧.known ⟦<UdpGroup<'a, R> as Group>⟧.up (length to.now) result }
        ensures has_memory { result ≡ GatheredGroup.NoMemory → ⊥ }
        ensures cause { RisesWhere self.old.faults self.new.faults (IsNotGathered result) }
    {
        let SocketRoom { links, ups } = room;
        match self.open_all(links, to) {
            Ok(links) => GatheredGroup::Group(UdpGroup {
                source,
                links,
                ups,
                faults: 0,
            }),
            Err(_) => {
                self.close_source(from, source);
                GatheredGroup::Failed
            }
        }
    }

    fn close_source(&mut self, from: Option<Address>, source: Option<UdpLink<'a, R>>)
        ensures { (self.new).faults ≡ (self.old).faults }
    {
        if let Some(at) = from
            && let Some(link) = source
        {
            self.put_back(at, link);
        }
    }

    fn open(&mut self, at: Address, dest: Option<Address>) -> Opened<UdpLink<'a, R>>
        ensures fresh { IsFresh ⟦<UdpLink<'a, R> as Link>⟧.known ⟦<UdpLink<'a, R> as Link>⟧.idles result }
        ensures cause { RisesWhere self.old.faults self.new.faults (IsFailed result) }
    {
        match open_link(self.edge, at, dest) {
            Ok(link) => Opened::Link(link),
            Err(fault) => {
                self.keep(dest.unwrap_or(at), fault);
                self.faults = self.faults.saturating_add(1);
                Opened::Failed
            }
        }
    }
}

impl<'a, R: Net + Clock + Eprint> Dock for UdpDock<'a, R> {
    type L = UdpLink<'a, R>;

    type G = UdpGroup<'a, R>;

    ghost known = { λ dock. record { faults = dock.faults; contents = None } };

    fn bind(&mut self, at: Address) -> Opened<UdpLink<'a, R>> {
        self.open(at, None)
    }

    fn reach(&mut self, at: Address) -> Opened<UdpLink<'a, R>> {
        self.open_towards(at)
    }

    fn close(&mut self, at: Address, link: UdpLink<'a, R>) {
        self.put_back(at, link);
    }

    fn gather(
        &mut self,
        alloc: Global,
        from: Option<Address>,
        to: &Addresses,
    ) -> GatheredGroup<UdpGroup<'a, R>> {
        let Ok(room) = room_for(alloc, to.len()) else {
            return GatheredGroup::NoMemory;
        };
        let Some(at) = from else {
            return self.open_group(None, from, to, room);
        };
        match self.open(at, None) {
            Opened::Link(link) => self.open_group(Some(link), from, to, room),
            Opened::Failed => GatheredGroup::Failed,
        }
    }

    fn disband(&mut self, from: Option<Address>, to: &Addresses, group: UdpGroup<'a, R>) {
        let UdpGroup {
            source,
            links,
            ups: _,
            faults: _,
        } = group;
        self.put_all_back(to, links);
        self.close_source(from, source);
    }
}

// The memory for a group, of which each link is up.
#[derive(Drop)]
struct SocketRoom<'a, R> {
    links: Vec<UdpLink<'a, R>>,
    ups: Vec<bool>,
}

fn room_for<'a, R>(alloc: Global, links: usize) -> Result<SocketRoom<'a, R>, NoMemory>
    ensures { IfOk result (λ room. room.ups.items ≡ replicate links true) }
{
    let mut ups = Vec::new(alloc);
    ups.resize(links, true)?;
    Ok(SocketRoom {
        links: Vec::with_capacity(alloc, links)?,
        ups,
    })
}

fn open_link<'a, R: Net + Clock + Eprint>(
    edge: &'a Edge<'a, R>,
    at: Address,
    dest: Option<Address>,
) -> io::Result<UdpLink<'a, R>>
    ensures faults { IfOk result (λ link. link.faults ≡ 0) }
    ensures idles { IfOk result (λ link. link.idles ≡ 0) }
{
    let socket = UdpSocket::bind(edge.system(), socket_addr(at))?;
    UdpLink::over(edge, socket, dest.map(socket_addr))
}

// Ends a link, and gives why it failed, if it did.
fn ended<R: Clock + Eprint>(link: UdpLink<'_, R>) -> Option<io::Error> {
    let mut link = link;
    link.tell_last();
    link.fault
}

fn socket_addr(at: Address) -> SocketAddr {
    let [a, b, c, d] = at.ip;
    SocketAddr::V4(SocketAddrV4::new(Ipv4Addr::new(a, b, c, d), at.port))
}
