//! What happened at a group in memory, written down.

ghost use Rattle.std.specs.Prelude.{true, false, ◌≡◌, ◌≤◌, [], length, IfOk};
ghost use Rattle.drm_links.specs.Link.{FitsBuffer, answer_of, longest_kept};
ghost use Rattle.drm_links.specs.History.{Received, SentTo, RestedAt};
ghost use Rattle.drm_links.specs.MemoryGroup.{NotesEvent, event_of};

use crate::kept_datagram::{KeptDatagram, make_spare};
use crate::{Came, Sent};
use drm_bits::NoMemory;
use std::alloc::Global;
use std::marker::Model;

/// One event.
#[derive(Drop)]
pub enum Happened {
    Came(KeptDatagram),
    CameIdle,
    CameFailed,
    SentTo(usize, KeptDatagram, Sent),
    RestedAt(usize, u32),
}

/// Events, and room for more.
#[derive(Drop)]
pub struct GroupBook {
    happened: Vec<Happened>,
    spare: Vec<KeptDatagram>,
    tells: bool,
}

impl Model for GroupBook {
    ghost use Rattle.std.specs.Prelude.{◌+◌, ◌≤◌, map, vec_len, vec_capacity};
    ghost use Rattle.drm_links.specs.MemoryGroup.{GroupBookState, event_of};

    ghost Value = { GroupBookState };

    ghost view = { λ book. record {
      events = map event_of book.happened.items;
      room = vec_len book.spare;
      tells = book.tells;
    } };

    ghost invariant = { λ book. vec_len book.happened + vec_len book.spare ≤ vec_capacity book.happened };
}

impl GroupBook {
    /// An empty book with room for so many events.
    pub fn make(alloc: Global, room: usize) -> Result<GroupBook, NoMemory>
        ensures { IfOk result (λ book. book ≡ record { events = []; room = room; tells = true }) }
    {
        Ok(GroupBook {
            happened: Vec::with_capacity(alloc, room)?,
            spare: make_spare(alloc, room)?,
            tells: true,
        })
    }

    /// Whether all that happened is written down.
    pub fn tells(&self) -> bool
        ensures { result ≡ self.now.tells }
    {
        self.tells
    }

    /// Tells nothing any more.
    pub fn stop(&mut self)
        ensures { self.new ≡ record self.old { tells = false } }
    {
        self.tells = false;
    }

    /// Writes down a recv that gave this.
    pub fn note_recv(&mut self, came: Came, buf: &[u8])
        requires front { FitsBuffer came buf.now }
        requires length { length buf.now ≤ 65536 }
        ensures { NotesEvent (Received (answer_of came buf.now)) self.old self.new }
    {
        match came {
            Came::Datagram(len) => {
                let Some(mut room) = self.spare.pop() else {
                    self.tells = false;
                    return;
                };
                room.fill(&buf[..len]);
                let Ok(()) = self.happened.push(Happened::Came(room)) else {
                    unreachable!()
                };
            }
            Came::Idle => self.note(Happened::CameIdle),
            Came::Failed => self.note(Happened::CameFailed),
        }
    }

    /// Writes down a send.
    pub fn note_send(&mut self, k: usize, bytes: &[u8], answer: Sent)
        requires { length bytes.now ≤ longest_kept }
        ensures { NotesEvent (SentTo k bytes.now answer) self.old self.new }
    {
        let Some(mut room) = self.spare.pop() else {
            self.tells = false;
            return;
        };
        room.fill(bytes);
        let Ok(()) = self.happened.push(Happened::SentTo(k, room, answer)) else {
            unreachable!()
        };
    }

    /// Writes down a rest.
    pub fn note_rest(&mut self, k: usize, millis: u32)
        ensures { NotesEvent (RestedAt k millis) self.old self.new }
    {
        self.note(Happened::RestedAt(k, millis));
    }

    fn note(&mut self, happened: Happened)
        ensures { NotesEvent (event_of happened) self.old self.new }
    {
        let Some(_) = self.spare.pop() else {
            self.tells = false;
            return;
        };
        let Ok(()) = self.happened.push(happened) else {
            unreachable!()
        };
    }
}
