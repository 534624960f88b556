//! The links of a dock in memory.

ghost use Rattle.std.specs.Prelude.{◌≡◌, ◌↔◌, [], ◌∷◌, ◌≤◌, Some, length, IsTrue, IfOk, IfErr};
ghost use Rattle.drm_links.specs.Known.{RisesWhere, HasCause, CountsCall, IfBothKnown};
ghost use Rattle.drm_links.specs.Link.{LinkReceives, LinkSends, LinkRests, KeepsAnswers, FitsBuffer};
ghost use Rattle.drm_links.specs.MemoryLink.{MemLinkReceives, MemLinkSends, IsUntouchedLink, after_rest, link_known};

use crate::{Address, Came, Link, MemLink, Sent};
use std::alloc::Global;
use std::collections::LinkedList;
use std::marker::Model;

/// A link that was closed, and its address.
#[derive(Drop)]
pub struct ClosedLink {
    pub at: Address,
    pub link: MemLink,
}

/// A link that a dock in memory gave. It brings the node with which the dock keeps it once it is closed, so that a
/// close takes no memory.
#[derive(Drop)]
pub struct DockedLink {
    link: MemLink,
    node: LinkedList<Option<ClosedLink>>,
}

impl Model for DockedLink {
    ghost use Rattle.std.specs.Prelude.{◌≡◌, length};
    ghost use Rattle.drm_links.specs.MemoryLink.{LinkState};

    ghost Value = { LinkState };

    ghost view = { λ docked. docked.link };

    ghost invariant = { λ docked. length docked.node ≡ 1 };
}

impl DockedLink {
    /// This link with a node, or the link alone where memory ran out.
    pub fn make(alloc: Global, link: MemLink) -> Result<DockedLink, MemLink>
        ensures made { IfOk result (λ docked. docked ≡ link) }
        ensures returned { IfErr result (λ returned. returned ≡ link) }
    {
        let mut node = LinkedList::new(alloc);
        match node.push_back(None) {
            Ok(()) => Ok(DockedLink { link, node }),
            Err(_) => Err(link),
        }
    }

    /// Whether no call was made on it.
    pub fn is_unused(&self) -> bool
        ensures { IsTrue result ↔ (self.now.calls ≡ 0) }
    {
        self.link.is_unused()
    }

    /// The link alone.
    pub fn into_link(self) -> MemLink
        ensures { result ≡ self }
    {
        let DockedLink { link, node: _ } = self;
        link
    }

    /// The node, which holds the link as one that was closed at this address.
    pub fn into_closed(self, at: Address) -> LinkedList<Option<ClosedLink>>
        ensures { result ≡ Some (record { at = at; link = self }) ∷ [] }
    {
        let DockedLink { link, mut node } = self;
        let Some(place) = node.front_mut() else {
            unreachable!()
        };
        *place = Some(ClosedLink { at, link });
        node
    }
}

impl Link for DockedLink {
    ghost idles = { λ link. link.idles };

    ghost known = { link_known };

    fn recv(&mut self, buf: &mut [u8]) -> Came
        requires { 65536 ≤ length buf.old }
        ensures exact { MemLinkReceives result buf.old buf.new self.old self.new }
        ensures front { FitsBuffer result buf.new }
        ensures answer { IfBothKnown (link_known self.old) (link_known self.new) (LinkReceives result buf.new) }
        ensures counts_call { CountsCall (λ traffic. traffic.calls) (link_known self.old) (link_known self.new) }
        ensures cause { HasCause (link_known self.old) (link_known self.new) (result ≡ Came.Failed) }
        ensures idle { RisesWhere self.old.idles self.new.idles (result ≡ Came.Idle) }
    {
        self.link.recv(buf)
    }

    fn send(&mut self, bytes: &[u8]) -> Sent
        ensures exact { MemLinkSends result bytes.now self.old self.new }
        ensures gone { IfBothKnown (link_known self.old) (link_known self.new) (LinkSends result bytes.now) }
        ensures kept { IfBothKnown (link_known self.old) (link_known self.new) KeepsAnswers }
        ensures counts_call { CountsCall (λ traffic. traffic.calls) (link_known self.old) (link_known self.new) }
        ensures cause { HasCause (link_known self.old) (link_known self.new) (result ≡ Sent.Failed) }
        ensures idle { self.new.idles ≡ self.old.idles }
    {
        self.link.send(bytes)
    }

    fn rest(&mut self, millis: u32)
        ensures exact { self.new ≡ after_rest millis self.old }
        ensures rested { IfBothKnown (link_known self.old) (link_known self.new) (LinkRests millis) }
        ensures counts_call { CountsCall (λ traffic. traffic.calls) (link_known self.old) (link_known self.new) }
        ensures cause { self.new.faults ≡ self.old.faults }
        ensures idle { self.new.idles ≡ self.old.idles }
    {
        self.link.rest(millis)
    }
}

/// A link that stands ready: no call was made on it yet.
#[derive(Drop)]
pub struct Standing {
    link: DockedLink,
}

impl Model for Standing {
    ghost use Rattle.drm_links.specs.MemoryLink.{LinkState, IsUntouchedLink};

    ghost Value = { LinkState };

    ghost view = { λ standing. standing.link };

    ghost invariant = { λ standing. IsUntouchedLink standing.link };
}

impl Standing {
    pub fn make(link: DockedLink) -> Standing
        requires { IsUntouchedLink link }
        ensures { result ≡ link }
    {
        Standing { link }
    }

    pub fn into_docked(self) -> DockedLink
        ensures same { result ≡ self }
        ensures untouched { IsUntouchedLink result }
    {
        let Standing { link } = self;
        link
    }
}
