//! A reader of packets.

ghost use Rattle.std.specs.Prelude.{◌≡◌, ◌≤◌, ◌<◌, ◌+◌, ◌-◌, ◌^◌, ◌++◌, ◌∷◌, ℕ, List, [], true, false, length, take, drop, min, IfOk, IfErr};
ghost use Rattle.std.specs.Borrow.{sem};
ghost use Rattle.drm_links.specs.Known.{Known, HasCause, CountsCall, IfBothKnown};
ghost use Rattle.drm_links.specs.Source.{Input, InputsBytes, ReadsSome, SourceTakes};
ghost use Rattle.capture_reader.specs.Front.{BytesBegin, IsWhole};
ghost use Rattle.capture_reader.specs.Capture.{End, IsCaptureOf};
ghost use Rattle.capture_reader.specs.Walking.{new_walker, IsPacketCut};
ghost use Rattle.capture_reader.specs.Reading.{HasRead, HasNext, ReadingStops};
ghost use Rattle.capture_reader.specs.Fetching.{FetchesBytes, FindsPacket, EndsReading, ReadsFew};
ghost use Rattle.capture_reader.specs.Lending.{GivesOne};

use crate::look::BytesFront;
use crate::{CaptureFault, Packet, Walker};
use drm_bits::{NoMemory, zeros};
use drm_links::{ReadOut, Source};
use std::alloc::Global;
use std::marker::Model;

/// The most bytes that are read at once.
const ROOM: usize = 65_536;

/// The most bytes of a capture.
const MOST_BYTES: u64 = 4_294_967_295;

/// Why no more packets are read.
#[derive(Clone, Copy, Debug, PartialEq, Eq)]
pub enum CaptureStop {
    /// The input failed.
    Read,
    /// The input is no capture.
    Capture(CaptureFault),
    /// The input has more bytes than a capture may have, and the packets before them are read.
    TooLong,
}

/// Reads the packets of an input, one after another.
#[derive(Drop)]
pub struct Packets {
    walker: Walker,
    scratch: Vec<u8>,
}

impl Model for Packets {
    ghost use Rattle.std.specs.Prelude.{◌≡◌, ◌≤◌, ◌+◌, length};
    ghost use Rattle.capture_reader.specs.Capture.{most_bytes};
    ghost use Rattle.capture_reader.specs.Walking.{WalkerState};

    ghost Value = { WalkerState };

    ghost view = { λ p. p.walker };

    ghost invariant = { λ p. (length p.scratch.items ≡ 65536) × (p.walker.at + length p.walker.held ≤ most_bytes) };
}

impl Packets {
    /// At the start of an input. All memory that the reading wants is taken here.
    pub fn make(alloc: Global) -> Result<Packets, NoMemory>
        ensures { IfOk result (λ packets. packets ≡ new_walker) }
    {
        let walker = Walker::make(alloc)?;
        let scratch = zeros(alloc, ROOM)?;
        Ok(Packets { walker, scratch })
    }

    /// Reads until the next packet is whole, or the input ends behind the last one: whether there is a next packet. Where it is
    /// whole already nothing is read, so a packet that came over a pipe doesn't wait for what comes behind it.
    pub fn find<I: Source>(&mut self, input: &mut I) -> Result<bool, CaptureStop>
        ensures more { (packets : List (List ℕ)) (before : Known Input) → HasRead packets self.old before (I.known input.old)
            → (result ≡ Err CaptureStop.TooLong → ⊥) → HasRead packets self.new before (I.known input.new) }
        ensures found { result ≡ Ok true → HasNext self.new }
        ensures still { HasNext self.old → (result ≡ Ok true) × (self.new ≡ self.old) × (input.new ≡ input.old) }
        ensures ended { (packets : List (List ℕ)) (before : Known Input) → HasRead packets self.old before (I.known input.old)
            → result ≡ Ok false → InputsBytes before (I.known input.new) (λ left rest. IsCaptureOf left packets End) }
        ensures stops { (packets : List (List ℕ)) (before : Known Input) → HasRead packets self.old before (I.known input.old)
            → IfErr result (λ stop. ReadingStops packets stop before (I.known input.new)) }
        ensures cause { HasCause (I.known input.old) (I.known input.new) (result ≡ Err CaptureStop.Read) }
    {
        self.seek(input)
    }

    /// The next packet, which `find` has found.
    pub fn next(&mut self) -> Packet<'_>
        requires found { HasNext self.old }
        ensures at { result.at ≡ self.old.at }
        ensures whole { IsWhole result.bytes.now }
        ensures bytes { self.old.held ≡ result.bytes.now ++ drop (length result.bytes.now) self.old.held }
        ensures* after { sem 𝓛 (GivesOne result self.entry) }
    {
        match self.walker.next_packet() {
            Ok(Some(packet)) => packet,
            _ => unreachable!(),
        }
    }

    // Reads until it is known what becomes of the bytes held.
    fn seek<I: Source>(&mut self, input: &mut I) -> Result<bool, CaptureStop>
        ensures finds { FindsPacket result self.old self.new (I.known input.old) (I.known input.new) }
        ensures still { HasNext self.old → (result ≡ Ok true) × (self.new ≡ self.old) × (input.new ≡ input.old) }
        ensures cause { HasCause (I.known input.old) (I.known input.new) (result ≡ Err CaptureStop.Read) }
    {
        let _ = &self.walker;
        loop {
            match self.walker.front() {
                BytesFront::Packet(size) => {
                    self.walker.remember(size);
                    return Ok(true);
                }
                BytesFront::Wrong(field) => return Err(CaptureStop::Capture(
                    self.walker.fault(field),
                )),
                BytesFront::Cut(_) => {}
            }
            if !self.fetch(input)? {
                return self.ended();
            }
        }
    }

    // Reads more bytes: whether any came.
    fn fetch<I: Source>(&mut self, input: &mut I) -> Result<bool, CaptureStop>
        requires cut { IsPacketCut self.old }
        ensures fetches { FetchesBytes result self.old self.new (I.known input.old) (I.known input.new) }
        ensures cause { HasCause (I.known input.old) (I.known input.new) (result ≡ Err CaptureStop.Read) }
    {
        let left = MOST_BYTES - self.walker.taken();
        match read_some(input, &mut self.scratch, left) {
            ReadOut::Got(_) if left == 0 => Err(CaptureStop::TooLong),
            ReadOut::Got(n) => {
                self.walker.put(&self.scratch[..n]);
                Ok(true)
            }
            ReadOut::End => Ok(false),
            ReadOut::Failed => Err(CaptureStop::Read),
        }
    }

    // How the packets end where no more bytes come.
    fn ended(&self) -> Result<bool, CaptureStop>
        requires cut { IsPacketCut self.now }
        ensures { EndsReading result self.now }
    {
        match self.walker.end() {
            Ok(()) => Ok(false),
            Err(fault) => Err(CaptureStop::Capture(fault)),
        }
    }
}

// Reads at most so many bytes, or where that is none, one.
fn read_some<I: Source>(input: &mut I, scratch: &mut [u8], most: u64) -> ReadOut
    requires { length scratch.old ≡ 65536 }
    ensures moves_bytes { ReadsSome result scratch.new }
    ensures within_limit { ReadsFew result most }
    ensures bytes { IfBothKnown (I.known input.old) (I.known input.new) (SourceTakes result scratch.new) }
    ensures counts_call { CountsCall (λ contents. contents.calls) (I.known input.old) (I.known input.new) }
    ensures cause { HasCause (I.known input.old) (I.known input.new) (result ≡ ReadOut.Failed) }
{
    let count = most.min(ROOM as u64) as usize;
    // A sum and no `max`: where clang 22 knows that a buffer has room, it takes the end of a stream for bytes that came.
    input.read(&mut scratch[..count + usize::from(count == 0)])
}
