//! Groups of a dock in memory, opened and closed.

ghost use Rattle.std.specs.Prelude.{◌≡◌, ◌≤◌, List, length, replicate, true, Some, None, Err, IsErr, vec_len, vec_capacity, IfOk, IfErr};
ghost use Rattle.drm_links.specs.Known.{HasCause, KnownThrough};
ghost use Rattle.drm_links.specs.Dock.{Over, AreDifferent, DockKnownThrough};
ghost use Rattle.drm_links.specs.Gathering.{DockGathers, IsFreshGroup, IsNotGathered, ReachesFew, after_reaches, after_closes, after_source_close};
ghost use Rattle.drm_links.specs.Members.{HaveLinks, AreUp, AreNew, HasGone, HaveGone};
ghost use Rattle.drm_links.specs.MemoryLink.{link_known};
ghost use Rattle.drm_links.specs.MemoryDock.{dock_known};
ghost use Rattle.drm_links.specs.MemoryGroup.{GathersOver, IsNewRoom, IsUnusedLink, group_known, ups_of};

use crate::memory_group::{GroupRoom, idle_link};
use crate::{
    Address, Addresses, DockedLink, GatheredGroup, LinkFault, MemDock, MemGroup, Member, Opened,
};
use std::alloc::Global;

impl MemDock {
    // Opens a link to each address, in their order, with memory that was taken before. Where an opening fails no further one is made,
    // and those that were opened are closed.
    fn reach_all(
        &mut self,
        room: Vec<Member<DockedLink>>,
        addresses: &Addresses,
    ) -> Result<Vec<Member<DockedLink>>, LinkFault>
        requires different { AreDifferent addresses.now }
        requires none { vec_len room ≡ 0 }
        requires capacity { length addresses.now ≤ vec_capacity room }
        ensures same_count { IfOk result (λ members. length members.items ≡ length addresses.now) }
        ensures up { IfOk result (λ members. AreUp members.items) }
        ensures new { IfOk result (λ members. AreNew link_known (λ link. link.idles) members.items) }
        ensures opened { IfOk result (λ _. KnownThrough (dock_known self.old) (dock_known self.new)
            (λ before after. after ≡ after_reaches addresses.now before)) }
        ensures links { IfOk result (λ members. DockKnownThrough (dock_known self.old) (dock_known self.new) (λ contents.
            HaveLinks link_known contents addresses.now members.items)) }
        ensures failed { IfErr result (λ _. KnownThrough (dock_known self.old) (dock_known self.new)
            (λ before after. ReachesFew addresses.now before after)) }
        ensures cause { HasCause (dock_known self.old) (dock_known self.new) (IsErr result) }
    {
        let mut members = room;
        for k in 0..addresses.len() {
            match self.open_reached(*addresses.get(k)) {
                Opened::Link(link) => {
                    let Ok(()) = members.push(Member { link, up: true }) else {
                        unreachable!()
                    };
                }
                Opened::Failed => {
                    self.close_all(addresses, members);
                    return Err(LinkFault);
                }
            }
        }
        Ok(members)
    }

    // Opens links that send to these addresses, for a group that receives over this one, which comes back where an opening fails.
    pub(crate) fn gather_to(
        &mut self,
        source: DockedLink,
        room: GroupRoom,
        to: &Addresses,
    ) -> Result<MemGroup, DockedLink>
        requires different { AreDifferent to.now }
        requires none { vec_len room.members ≡ 0 }
        requires capacity { length to.now ≤ vec_capacity room.members }
        requires room { IsNewRoom room.book (length room.page) }
        requires source { IsUnusedLink source }
        ensures up { IfOk result (λ group. ups_of group.members ≡ replicate (length to.now) true) }
        ensures faults { IfOk result (λ group. group.faults ≡ 0) }
        ensures gathered { IfOk result (λ group. KnownThrough (dock_known self.old) (dock_known self.new)
            (GathersOver source room.book.room to.now group)) }
        ensures returned { IfErr result (λ returned. returned ≡ source) }
        ensures failed { IfErr result (λ _. KnownThrough (dock_known self.old) (dock_known self.new) (ReachesFew to.now)) }
        ensures cause { HasCause (dock_known self.old) (dock_known self.new) (IsErr result) }
    {
        let GroupRoom {
            members,
            book,
            page,
        } = room;
        match self.reach_all(members, to) {
            Ok(members) => Ok(MemGroup::of(
                source,
                GroupRoom {
                    members,
                    book,
                    page,
                },
            )),
            Err(_) => Err(source),
        }
    }

    // The same behind an opening that receives.
    pub(crate) fn gather_from(
        &mut self,
        at: Address,
        room: GroupRoom,
        to: &Addresses,
    ) -> GatheredGroup<MemGroup>
        requires different { AreDifferent to.now }
        requires none { vec_len room.members ≡ 0 }
        requires capacity { length to.now ≤ vec_capacity room.members }
        requires room { IsNewRoom room.book (length room.page) }
        requires events { room.book.room ≡ self.old.room }
        ensures fresh { IsFreshGroup group_known (λ group. ups_of group.members) (length to.now) result }
        ensures gathered { KnownThrough (dock_known self.old) (dock_known self.new) (DockGathers group_known (Some at) to.now result) }
        ensures has_memory { result ≡ GatheredGroup.NoMemory → ⊥ }
        ensures cause { HasCause (dock_known self.old) (dock_known self.new) (IsNotGathered result) }
    {
        match self.open_bound(at) {
            Opened::Link(source) => match self.gather_to(source, room, to) {
                Ok(group) => GatheredGroup::Group(group),
                Err(source) => {
                    self.close_link(at, source);
                    GatheredGroup::Failed
                }
            },
            Opened::Failed => GatheredGroup::Failed,
        }
    }

    // The same without one.
    pub(crate) fn gather_idle(
        &mut self,
        alloc: Global,
        room: GroupRoom,
        to: &Addresses,
    ) -> GatheredGroup<MemGroup>
        requires different { AreDifferent to.now }
        requires none { vec_len room.members ≡ 0 }
        requires capacity { length to.now ≤ vec_capacity room.members }
        requires room { IsNewRoom room.book (length room.page) }
        requires events { room.book.room ≡ self.old.room }
        ensures fresh { IsFreshGroup group_known (λ group. ups_of group.members) (length to.now) result }
        ensures gathered { KnownThrough (dock_known self.old) (dock_known self.new) (DockGathers group_known None to.now result) }
        ensures untouched { result ≡ GatheredGroup.NoMemory → self.new ≡ self.old }
        ensures cause { HasCause (dock_known self.old) (dock_known self.new) (IsNotGathered result) }
    {
        let Ok(idle) = idle_link(alloc) else {
            return GatheredGroup::NoMemory;
        };
        match self.gather_to(idle, room, to) {
            Ok(group) => GatheredGroup::Group(group),
            Err(_) => GatheredGroup::Failed,
        }
    }

    // Closes the links that were opened at the first addresses, in their order.
    pub(crate) fn close_all(&mut self, addresses: &Addresses, members: Vec<Member<DockedLink>>)
        requires { vec_len members ≤ length addresses.now }
        ensures closed { KnownThrough (dock_known self.old) (dock_known self.new) (λ before after.
            (overs : List Over) → HaveGone link_known members.items overs → after ≡ after_closes overs addresses.now before) }
        ensures cause { self.new.faults ≡ self.old.faults }
    {
        let mut k = 0;
        for member in members {
            let Member { link, up: _ } = member;
            self.close_link(*addresses.get(k), link);
            k += 1;
        }
    }

    // Takes back a link that was received from.
    pub(crate) fn close_source(&mut self, from: Option<Address>, source: DockedLink)
        ensures closed { KnownThrough (dock_known self.old) (dock_known self.new) (λ before after.
            (over : Over) → HasGone link_known source over → after ≡ after_source_close from over before) }
        ensures cause { self.new.faults ≡ self.old.faults }
    {
        if let Some(at) = from {
            self.close_link(at, source);
        }
    }
}
