//! Single fields of a format: taken from the front of a bit list, and put behind those that are written.

ghost use Rattle.std.specs.Prelude.{◌≡◌, ◌+◌, ◌≤◌, ◌<◌, ◌^◌, length, drop};
ghost use Rattle.std.specs.Int.{from_bool};
ghost use Rattle.drm_bits.specs.Bits.{digits, front, bit};
ghost use Rattle.drm_bits.specs.Sink.{WroteBits, unwritten};

use crate::{BitSink, Bits};

impl<'a> Bits<'a> {
    /// Takes a field of one bit.
    pub fn take_flag(&mut self) -> bool
        requires { 1 ≤ length self.old }
        ensures bit { result ≡ bit self.old }
        ensures number { front 1 self.old ≡ from_bool result }
        ensures rest { self.new ≡ drop 1 self.old }
        ensures remaining { length self.new + 1 ≡ length self.old }
    {
        self.take_u32(1) == 1
    }

    /// Takes a field of at most eight bits.
    pub fn take_u8(&mut self, width: u32) -> u8
        requires narrow { width ≤ 8 }
        requires enough { width ≤ length self.old }
        ensures number { result ≡ front width self.old }
        ensures fits { result < 2 ^ width }
        ensures rest { self.new ≡ drop width self.old }
        ensures remaining { length self.new + width ≡ length self.old }
    {
        self.take_u32(width) as u8
    }

    /// Takes a field of at most sixteen bits.
    pub fn take_u16(&mut self, width: u32) -> u16
        requires narrow { width ≤ 16 }
        requires enough { width ≤ length self.old }
        ensures number { result ≡ front width self.old }
        ensures fits { result < 2 ^ width }
        ensures rest { self.new ≡ drop width self.old }
        ensures remaining { length self.new + width ≡ length self.old }
    {
        self.take_u32(width) as u16
    }

    /// Takes a field of at most 32 bits.
    pub fn take_u32(&mut self, width: u32) -> u32
        requires narrow { width ≤ 32 }
        requires enough { width ≤ length self.old }
        ensures number { result ≡ front width self.old }
        ensures fits { result < 2 ^ width }
        ensures rest { self.new ≡ drop width self.old }
        ensures remaining { length self.new + width ≡ length self.old }
    {
        match self.take(width) {
            Ok(number) => number as u32,
            Err(_) => unreachable!(),
        }
    }
}

impl<'a> BitSink<'a> {
    /// Puts a field of one bit.
    pub fn put_flag(&mut self, set: bool)
        requires { 1 ≤ length (unwritten self.old) }
        ensures wrote { WroteBits (digits 1 (from_bool set)) self.old self.new }
        ensures remaining { length (unwritten self.new) + 1 ≡ length (unwritten self.old) }
    {
        self.put_u32(u32::from(set), 1);
    }

    /// Puts a field of at most eight bits.
    pub fn put_u8(&mut self, number: u8, width: u32)
        requires narrow { width ≤ 8 }
        requires fits { number < 2 ^ width }
        requires room { width ≤ length (unwritten self.old) }
        ensures wrote { WroteBits (digits width number) self.old self.new }
        ensures remaining { length (unwritten self.new) + width ≡ length (unwritten self.old) }
    {
        self.put_u32(u32::from(number), width);
    }

    /// Puts a field of at most sixteen bits.
    pub fn put_u16(&mut self, number: u16, width: u32)
        requires narrow { width ≤ 16 }
        requires fits { number < 2 ^ width }
        requires room { width ≤ length (unwritten self.old) }
        ensures wrote { WroteBits (digits width number) self.old self.new }
        ensures remaining { length (unwritten self.new) + width ≡ length (unwritten self.old) }
    {
        self.put_u32(u32::from(number), width);
    }

    /// Puts a field of at most 32 bits.
    pub fn put_u32(&mut self, number: u32, width: u32)
        requires narrow { width ≤ 32 }
        requires fits { number < 2 ^ width }
        requires room { width ≤ length (unwritten self.old) }
        ensures wrote { WroteBits (digits width number) self.old self.new }
        ensures remaining { length (unwritten self.new) + width ≡ length (unwritten self.old) }
    {
        match self.put(u64::from(number), width) {
            Ok(()) => {}
            Err(_) => unreachable!(),
        }
    }
}
