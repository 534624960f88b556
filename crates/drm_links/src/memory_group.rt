//! A group in memory.

ghost use Rattle.std.specs.Prelude.{ℕ, List, true, ◌≡◌, ◌≤◌, ◌↔◌, [], ◌∷◌, length, vec_len, vec_capacity, All, IsTrue, IfOk};
ghost use Rattle.drm_links.specs.Known.{CountsCall, IfBothKnown};
ghost use Rattle.drm_links.specs.Link.{FitsBuffer, LinkReceives, answer_of, longest_kept};
ghost use Rattle.drm_links.specs.Members.{AreNew};
ghost use Rattle.drm_links.specs.History.{Received, SentTo, RestedAt, GroupTells, failed_in, risen};
ghost use Rattle.drm_links.specs.Calls.{is_up, up_after};
ghost use Rattle.drm_links.specs.MemoryLink.{link_known};
ghost use Rattle.drm_links.specs.MemoryGroup.{AreInStep, IsNewRoom, IsUnusedLink, ahead_of, MemberChanges, MemberSends, MemberRests, NotesEvent, group_known, ups_of};

use crate::book::GroupBook;
use crate::{Came, DockedLink, Group, LONGEST_DATAGRAM, Link, MemLink, Member, Sent};
use drm_bits::NoMemory;
use std::alloc::Global;
use std::collections::LinkedList;
use std::marker::Model;

/// A group of links of a dock in memory, which writes down what happens while it has room. It brings the node with which the dock keeps
/// that once the group is closed.
#[derive(Drop)]
pub struct MemGroup {
    source: DockedLink,
    members: Vec<Member<DockedLink>>,
    book: GroupBook,
    page: LinkedList<Option<GroupBook>>,
    faults: u64,
}

impl Model for MemGroup {
    ghost use Rattle.std.specs.Prelude.{◌≡◌, true, length};
    ghost use Rattle.drm_links.specs.MemoryGroup.{GroupState, AreInStep};

    ghost Value = { GroupState };

    ghost view = { λ group. record {
      source = group.source;
      members = group.members.items;
      book = group.book;
      faults = group.faults;
    } };

    ghost invariant = { λ group. (length group.page ≡ 1)
        × (group.book.tells ≡ true → AreInStep group.source group.members.items group.book) };
}

/// What a group in memory is made of, beside the link that is received from.
#[derive(Drop)]
pub(crate) struct GroupRoom {
    pub members: Vec<Member<DockedLink>>,
    pub book: GroupBook,
    pub page: LinkedList<Option<GroupBook>>,
}

/// Takes the memory for a group of so many links, of which so many events are told.
pub(crate) fn room_for_group(
    alloc: Global,
    links: usize,
    events: u32,
) -> Result<GroupRoom, NoMemory>
    ensures none { IfOk result (λ room. vec_len room.members ≡ 0) }
    ensures capacity { IfOk result (λ room. links ≤ vec_capacity room.members) }
    ensures room { IfOk result (λ room. IsNewRoom room.book (length room.page)) }
    ensures events { IfOk result (λ room. room.book.room ≡ events) }
{
    let mut page = LinkedList::new(alloc);
    if page.push_back(None).is_err() {
        return Err(NoMemory);
    }
    Ok(GroupRoom {
        members: Vec::with_capacity(alloc, links)?,
        book: GroupBook::make(alloc, events as usize)?,
        page,
    })
}

/// A link over which nothing comes.
pub(crate) fn idle_link(alloc: Global) -> Result<DockedLink, NoMemory>
    ensures unused { IfOk result (λ link. IsUnusedLink link) }
    ensures silent { IfOk result (λ link. ahead_of (link_known link).contents ≡ []) }
{
    match DockedLink::make(alloc, MemLink::make(alloc, &[], &[], 0)?) {
        Ok(link) => Ok(link),
        Err(_) => Err(NoMemory),
    }
}

// Whether no call was made on any of these links.
fn are_unused(source: &DockedLink, members: &[Member<DockedLink>]) -> bool
    ensures { IsTrue result ↔ ((source.now.calls ≡ 0) × All (λ member. member.link.calls ≡ 0) members.now) }
{
    source.is_unused() && members.iter().all(|member| member.link.is_unused())
}

impl MemGroup {
    /// A group of links that were just opened.
    pub(crate) fn of(source: DockedLink, room: GroupRoom) -> MemGroup
        requires room { IsNewRoom room.book (length room.page) }
        requires source { IsUnusedLink source }
        requires members { AreNew link_known (λ link. link.idles) room.members.items }
        ensures source { result.source ≡ source }
        ensures members { result.members ≡ room.members.items }
        ensures events { result.book.events ≡ [] }
        ensures room { result.book.room ≡ room.book.room }
        ensures tells { All (λ member. member.link.calls ≡ 0) room.members.items → result.book.tells ≡ true }
        ensures faults { result.faults ≡ 0 }
    {
        let GroupRoom {
            members,
            mut book,
            page,
        } = room;
        if !are_unused(&source, &members) {
            book.stop();
        }
        MemGroup {
            source,
            members,
            book,
            page,
            faults: 0,
        }
    }

    /// What it is made of.
    pub(crate) fn into_parts(self) -> (DockedLink, GroupRoom)
        ensures source { result.0 ≡ self.source }
        ensures members { result.1.members.items ≡ self.members }
        ensures book { result.1.book ≡ self.book }
        ensures page { length result.1.page ≡ 1 }
        ensures step { self.book.tells ≡ true → AreInStep self.source self.members self.book }
    {
        let MemGroup {
            source,
            members,
            book,
            page,
            faults: _,
        } = self;
        (
            source,
            GroupRoom {
                members,
                book,
                page,
            },
        )
    }
}

impl Group for MemGroup {
    ghost known = { group_known };

    ghost up = { λ group. ups_of group.members };

    fn len(&self) -> usize
        ensures { result ≡ length (ups_of self.now.members) }
    {
        self.members.len()
    }

    fn is_up(&self, k: usize) -> bool
        ensures { result ≡ is_up (ups_of self.now.members) k }
    {
        k < self.members.len() && self.members[k].up
    }

    fn recv(&mut self, buf: &mut [u8]) -> Came
        requires { 65536 ≤ length buf.old }
        ensures front { FitsBuffer result buf.new }
        ensures tells { GroupTells (Received (answer_of result buf.new) ∷ []) (group_known self.old) (group_known self.new) }
        ensures up { ups_of self.new.members ≡ ups_of self.old.members }
    {
        let came = recv_front(&mut self.source, &mut self.book, buf);
        self.faults = faults_after_recv(self.faults, came);
        came
    }

    fn send(&mut self, k: usize, bytes: &[u8]) -> Sent
        requires up { is_up (ups_of self.old.members) k ≡ true }
        requires length { length bytes.now ≤ longest_kept }
        ensures tells { GroupTells (SentTo k bytes.now result ∷ []) (group_known self.old) (group_known self.new) }
        ensures up { ups_of self.new.members ≡ up_after (ups_of self.old.members) k result }
    {
        let answer = send_over(&mut self.members, k, bytes);
        self.book.note_send(k, bytes, answer);
        self.faults = faults_after_send(self.faults, answer);
        answer
    }

    fn rest(&mut self, k: usize, millis: u32)
        requires { is_up (ups_of self.old.members) k ≡ true }
        ensures tells { GroupTells (RestedAt k millis ∷ []) (group_known self.old) (group_known self.new) }
        ensures up { ups_of self.new.members ≡ ups_of self.old.members }
    {
        rest_before(&mut self.members, k, millis);
        self.book.note_rest(k, millis);
    }
}

// Receives into the front of the buffer, and writes that down.
fn recv_front(source: &mut DockedLink, book: &mut GroupBook, buf: &mut [u8]) -> Came
    requires { 65536 ≤ length buf.old }
    ensures front { FitsBuffer result buf.new }
    ensures notes { NotesEvent (Received (answer_of result buf.new)) book.old book.new }
    ensures answer { IfBothKnown (link_known source.old) (link_known source.new) (LinkReceives result buf.new) }
    ensures counts_call { CountsCall (λ traffic. traffic.calls) (link_known source.old) (link_known source.new) }
{
    recv_into(source, book, &mut buf[..LONGEST_DATAGRAM])
}

// The same into a buffer that no datagram is longer than.
fn recv_into(source: &mut DockedLink, book: &mut GroupBook, front: &mut [u8]) -> Came
    requires { length front.old ≡ 65536 }
    ensures front { FitsBuffer result front.new }
    ensures notes { NotesEvent (Received (answer_of result front.new)) book.old book.new }
    ensures answer { IfBothKnown (link_known source.old) (link_known source.new) (LinkReceives result front.new) }
    ensures counts_call { CountsCall (λ traffic. traffic.calls) (link_known source.old) (link_known source.new) }
{
    let came = source.recv(front);
    book.note_recv(came, front);
    came
}

fn faults_after_recv(faults: u64, came: Came) -> u64
    ensures { (buf : List ℕ) → result ≡ risen (failed_in (Received (answer_of came buf) ∷ [])) faults }
{
    match came {
        Came::Failed => faults.saturating_add(1),
        Came::Datagram(_) | Came::Idle => faults,
    }
}

fn faults_after_send(faults: u64, answer: Sent) -> u64
    ensures { (k : ℕ) (bytes : List ℕ) → result ≡ risen (failed_in (SentTo k bytes answer ∷ [])) faults }
{
    match answer {
        Sent::Failed => faults.saturating_add(1),
        Sent::Sent => faults,
    }
}

// Sends over the k-th.
fn send_over(members: &mut Vec<Member<DockedLink>>, k: usize, bytes: &[u8]) -> Sent
    requires { is_up (ups_of members.old.items) k ≡ true }
    ensures { MemberChanges (MemberSends result bytes.now) k members.old.items members.new.items }
{
    send_by(&mut members[k], bytes)
}

fn send_by(member: &mut Member<DockedLink>, bytes: &[u8]) -> Sent
    ensures { MemberSends result bytes.now member.old member.new }
{
    let answer = member.link.send(bytes);
    if answer == Sent::Failed {
        member.up = false;
    }
    answer
}

// Rests before the k-th.
fn rest_before(members: &mut Vec<Member<DockedLink>>, k: usize, millis: u32)
    requires { is_up (ups_of members.old.items) k ≡ true }
    ensures { MemberChanges (MemberRests millis) k members.old.items members.new.items }
{
    members[k].link.rest(millis);
}
