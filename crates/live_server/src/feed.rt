//! An input, and links over which frames are sent.

ghost use Rattle.std.specs.Prelude.{ℕ, List, Bool, Option, None, true, false, ◌≡◌, ◌≤◌, ◌∷◌, [], length, take, IfOk, IfErr, OnErr, Err};
ghost use Rattle.std.specs.Borrow.{GName};
ghost use Rattle.drm_links.specs.Known.{Known, HasCause};
ghost use Rattle.drm_links.specs.Source.{Input};
ghost use Rattle.drm_links.specs.History.{History};
ghost use Rattle.drm_links.specs.Calls.{is_up, NoneUp};
ghost use Rattle.cmd_input.specs.Input.{ReadsFirstBytes, FailsBehind};
ghost use Rattle.drm_server.specs.Serving.{ServesFrame};
ghost use Rattle.live_server.specs.Turns.{FeedTurn, Asks, Sends, with_turns};

use cmd_faults::Fault;
use cmd_input::read_front;
use drm_links::{Group, Source, none_up};
use drm_server::{Server, serve_frame};

/// An input that is read piece by piece, alone or beside something else.
pub trait Pieces {
    /// What is known of the input.
    ghost input: { Self → Known Input };

    /// What was asked for, and what else happened, in one order, where that is told.
    ghost turns: { Self → Option (List FeedTurn) };

    /// What stands beside the input was left as it was.
    ghost leaves: { Self → Self → Type 0 };

    /// Reads a piece of input into the front of the room, until input ends or the room is full. Answers how many bytes came.
    fn read_piece(&mut self, piece: &mut [u8]) -> Result<usize, Fault>
        ensures read { IfOk result (λ len. (len ≤ length piece.old)
            × ReadsFirstBytes (length piece.old) (take len piece.new) (input self.old) (input self.new)) }
        ensures failed { OnErr result (FailsBehind (length piece.old) (input self.old) (input self.new)) }
        ensures fault { IfErr result (λ fault. fault ≡ Fault.Read) }
        ensures cause { HasCause (input self.old) (input self.new) (result ≡ Err Fault.Read) }
        ensures turns { turns self.new ≡ with_turns (Asks (length piece.old) ∷ []) (turns self.old) }
        ensures leaves { leaves self.old self.new };

    ghost nothing: { (a : Self) → leaves a a };
}

impl<I: Source> Pieces for I {
    ghost input = { I.known };

    ghost turns = { λ input. None };

    ghost leaves = { λ a b. Unit {0} };

    ghost nothing = { λ a. tt };

    fn read_piece(&mut self, piece: &mut [u8]) -> Result<usize, Fault> {
        read_front(self, piece)
    }
}

/// An input and links, with one order of what is read and what is sent.
pub trait LiveFeed<I>: Pieces {
    /// The input.
    ghost source: { Self → I };

    /// What is known of the links.
    ghost history: { Self → Known History };

    /// Which of the links haven't failed.
    ghost up: { Self → List Bool };

    /// The references that it holds to the input and to the links, if it holds any.
    ghost source_name: { Self → GName };

    ghost links_name: { Self → GName };

    /// Whether each link has failed.
    fn none_left(&self) -> bool
        ensures yes { result ≡ true → NoneUp (up self.now) }
        ensures no { result ≡ false → (k : ℕ) × (is_up (up self.now) k ≡ true) };

    /// Sends the frame that is loaded, the one behind `n` others, over each link that hasn't failed, with its rests.
    fn send_frame(&mut self, server: &Server<'_>, n: u32, pace: u32)
        ensures made { ServesFrame server.now.plan server.now.frame pace n
            (up self.old) (up self.new) (history self.old) (history self.new) }
        ensures same_count { length (up self.new) ≡ length (up self.old) }
        ensures source { source self.new ≡ source self.old }
        ensures input { Self.input self.new ≡ Self.input self.old }
        ensures turns { Self.turns self.new ≡ with_turns (Sends n ∷ []) (Self.turns self.old) }
        ensures same_source { source_name self.new ≡ source_name self.old }
        ensures same_links { links_name self.new ≡ links_name self.old };

    /// A piece that is read leaves the links as they are.
    ghost links_stay: { (a b : Self) → Self.leaves a b → (history b ≡ history a) × (up b ≡ up a)
        × (source_name b ≡ source_name a) × (links_name b ≡ links_name a) };
}

/// An input and a group that know nothing of each other, so no order of both is told.
#[derive(Drop)]
pub(crate) struct Apart<'a, I, G> {
    pub input: &'a mut I,
    pub group: &'a mut G,
}

impl<'a, I: Source, G: Group> Pieces for Apart<'a, I, G> {
    ghost use Rattle.std.proofs.Common.{refl};

    ghost input = { λ feed. I.known feed.input.now };

    ghost turns = { λ feed. None };

    ghost leaves = { λ a b. (G.known b.group.now ≡ G.known a.group.now) × (G.up b.group.now ≡ G.up a.group.now)
        × (b.input.ghost_name ≡ a.input.ghost_name) × (b.group.ghost_name ≡ a.group.ghost_name) };

    ghost nothing = { λ a. (refl, refl, refl, refl) };

    fn read_piece(&mut self, piece: &mut [u8]) -> Result<usize, Fault> {
        read_front(&mut *self.input, piece)
    }
}

impl<'a, I: Source, G: Group> LiveFeed<I> for Apart<'a, I, G> {
    ghost source = { λ feed. feed.input.now };

    ghost history = { λ feed. G.known feed.group.now };

    ghost up = { λ feed. G.up feed.group.now };

    ghost source_name = { λ feed. feed.input.ghost_name };

    ghost links_name = { λ feed. feed.group.ghost_name };

    ghost links_stay = { λ a b same. same };

    fn none_left(&self) -> bool {
        none_up(&*self.group)
    }

    fn send_frame(&mut self, server: &Server<'_>, n: u32, pace: u32) {
        serve_frame(server, n, pace, &mut *self.group);
    }
}
