//! The walker.

ghost use Rattle.std.specs.Prelude.{◌≡◌, ◌≤◌, ◌<◌, ◌+◌, ◌-◌, ◌^◌, ◌++◌, ℕ, [], length, take, drop, min, IfOk};
ghost use Rattle.std.specs.Borrow.{sem};
ghost use Rattle.circular_buffer.specs.Buffer.{Buffer, buffer};
ghost use Rattle.capture_reader.specs.Front.{Front, Packet as PacketFront, BytesBegin};
ghost use Rattle.capture_reader.specs.Looking.{front_of};
ghost use Rattle.capture_reader.specs.Walking.{new_walker, after_put, most_held, IsPacketCut, WalkerGives, IsDue, WalkEnds};
ghost use Rattle.capture_reader.specs.Lending.{WalkerAfterNext};

use crate::look::{BytesFront, MOST_HEAD, look};
use crate::{CaptureFault, CaptureField, Packet};
use circular_buffer::HeapCircularBuffer;
use drm_bits::{NoMemory, put_at, zeros};
use drm_links::LONGEST_DATAGRAM;
use std::alloc::Global;
use std::marker::Model;

/// The bytes that a walker holds at most.
const MOST_HELD: usize = 131_072;

/// Cuts the packets out of a capture that comes in pieces.
#[derive(Drop)]
pub struct Walker {
    // The bytes that were put and are in no packet given.
    pipe: HeapCircularBuffer<u8>,
    // The bytes of the next packet, if it is known that one is next.
    found: Option<usize>,
    // The last packet that was given.
    packet: Vec<u8>,
    // The place of the next one.
    at: u64,
}

impl Model for Walker {
    ghost use Rattle.std.specs.Prelude.{◌≡◌, ◌<◌, ◌+◌, ◌^◌, length, IfSome};
    ghost use Rattle.capture_reader.specs.Front.{Packet, BytesBegin};
    ghost use Rattle.capture_reader.specs.Walking.{WalkerState, most_held};

    ghost Value = { WalkerState };

    ghost view = { λ w. record { at = w.at; held = w.pipe.items } };

    ghost invariant = { λ w. (w.pipe.capacity ≡ most_held) × (length w.packet.items ≡ 65536) × (w.at + length w.pipe.items < 2 ^ 62)
        × IfSome w.found (λ size. BytesBegin w.pipe.items (Packet size)) };
}

impl Walker {
    /// At the start of a capture.
    pub fn make(alloc: Global) -> Result<Walker, NoMemory>
        ensures { IfOk result (λ walker. walker ≡ new_walker) }
    {
        let pipe = HeapCircularBuffer::with_capacity(alloc, MOST_HELD)?;
        let packet = zeros(alloc, LONGEST_DATAGRAM)?;
        Ok(Walker {
            pipe,
            found: None,
            packet,
            at: 0,
        })
    }

    /// Takes a copy of the next bytes of the capture, of as many as fit, and answers how many these are.
    pub fn put(&mut self, bytes: &[u8]) -> usize
        requires { self.old.at + length self.old.held + length bytes.now < 2 ^ 62 }
        ensures count { result ≡ min (length bytes.now) (most_held - length self.old.held) }
        ensures after { self.new ≡ after_put (take result bytes.now) self.old }
    {
        self.found = None;
        self.pipe.fill_from_slice(bytes)
    }

    /// The next packet, or none where the bytes end before it does. What is wrong stays wrong.
    pub fn next_packet(&mut self) -> Result<Option<Packet<'_>>, CaptureFault>
        ensures gives { WalkerGives result self.old }
        ensures due { (front : Front) → BytesBegin self.old.held front → IsDue front result self.old }
        ensures* after { sem 𝓛 (WalkerAfterNext result self.entry) }
    {
        match self.front() {
            BytesFront::Packet(size) => {
                let at = self.at;
                self.found = None;
                move_out(&mut self.pipe, &mut self.packet, size);
                self.at = at + size as u64;
                Ok(Some(Packet {
                    at,
                    bytes: &self.packet[..size],
                }))
            }
            BytesFront::Wrong(field) => Err(self.fault(field)),
            BytesFront::Cut(_) => Ok(None),
        }
    }

    /// Whether the capture may end here. No packet was left to be given, and no byte was put since.
    pub fn end(&self) -> Result<(), CaptureFault>
        requires { IsPacketCut self.now }
        ensures { WalkEnds result self.now }
    {
        if self.pipe.is_empty() {
            return Ok(());
        }
        match self.front() {
            BytesFront::Packet(_) => Ok(()),
            BytesFront::Wrong(field) | BytesFront::Cut(field) => Err(self.fault(field)),
        }
    }

    /// What the bytes held begin with.
    pub(crate) fn front(&self) -> BytesFront
        ensures { BytesBegin self.now.held (front_of result) }
    {
        match self.found {
            Some(size) => BytesFront::Packet(size),
            None => self.look(),
        }
    }

    /// Keeps in mind that a packet of so many bytes is next, so that its head isn't looked at again.
    pub(crate) fn remember(&mut self, size: usize)
        requires { BytesBegin self.old.held (PacketFront size) }
        ensures { self.new ≡ self.old }
    {
        self.found = Some(size);
    }

    // Looks at the first bytes that are held.
    fn look(&self) -> BytesFront
        ensures { BytesBegin self.now.held (front_of result) }
    {
        let mut head = [0; MOST_HEAD];
        let len = copy_front(&self.pipe, &mut head);
        look(&head[..len], self.pipe.len())
    }

    /// This fault at the place of the next packet.
    pub(crate) fn fault(&self, field: CaptureField) -> CaptureFault
        ensures { result ≡ record { at = self.now.at; field = field } }
    {
        CaptureFault { at: self.at, field }
    }

    /// How many bytes of the capture were put.
    pub(crate) fn taken(&self) -> u64
        ensures { result ≡ self.now.at + length self.now.held }
    {
        self.at + self.pipe.len() as u64
    }
}

// Copies the first bytes that are held, as many as there are and there is room for.
fn copy_front(pipe: &HeapCircularBuffer<u8>, head: &mut [u8]) -> usize
    ensures count { result ≡ min (length head.old) (length pipe.now.items) }
    ensures copied { take result head.new ≡ take result pipe.now.items }
{
    let (front, back) = pipe.as_slices();
    let from_front = front.len().min(head.len());
    put_at(head, 0, &front[..from_front]);
    let from_back = back.len().min(head.len() - from_front);
    put_at(head, from_front, &back[..from_back]);
    from_front + from_back
}

// Moves the first bytes that are held to the front of `packet`.
fn move_out(pipe: &mut HeapCircularBuffer<u8>, packet: &mut [u8], size: usize)
    requires whole { size ≤ length pipe.old.items }
    requires room { size ≤ length packet.old }
    ensures held { pipe.new ≡ buffer (drop size pipe.old.items) pipe.old.capacity }
    ensures packet { take size packet.new ≡ take size pipe.old.items }
{
    pipe.read_into(&mut packet[..size]);
}
