//! The front of an input.

ghost use Rattle.std.specs.Prelude.{ℕ, ◌≡◌, IfOk, OnErr, IsErr, length};
ghost use Rattle.drm_links.specs.Known.{HasCause};
ghost use Rattle.cmd_show.specs.Input.{ReadsHead, FailsWithin};

use cmd_faults::Fault;
use drm_links::{ReadOut, Source};
use std::marker::Model;

const HEAD_SIZE: usize = 10;

/// A source failed.
#[derive(Clone, Copy, Debug, PartialEq, Eq)]
pub struct ReadFault;

impl From<ReadFault> for Fault {
    ghost use Rattle.std.specs.Prelude.{◌≡◌};
    ghost use Rattle.cmd_faults.specs.declared.fault.Fault.TheVariants.{Read};

    ghost from_gives = { λ _ fault. fault ≡ Read };

    fn from(_: ReadFault) -> Self {
        Fault::Read
    }
}

/// The first ten bytes of an input, or all of them.
#[derive(Drop)]
pub struct InputHead {
    bytes: [u8; HEAD_SIZE],
    len: usize,
}

impl Model for InputHead {
    ghost use Rattle.std.specs.Prelude.{List, ℕ, take, ◌≤◌};

    ghost Value = { List ℕ };

    ghost view = { λ head. take head.len head.bytes };

    ghost invariant = { λ head. head.len ≤ 10 };
}

impl InputHead {
    ghost use Rattle.std.specs.Prelude.{IsSome, ◌↔◌, IfSome};

    pub fn len(&self) -> usize
        ensures { result ≡ length self.now }
    {
        self.len
    }

    /// The bytes, where there are nine.
    pub fn nine(&self) -> Option<[u8; 9]>
        ensures nine { IsSome result ↔ (length self.now ≡ 9) }
        ensures bytes { IfSome result (λ bytes. bytes ≡ self.now) }
    {
        if self.len == 9 {
            self.bytes.first_chunk().copied()
        } else {
            None
        }
    }
}

/// Reads until the input ends or a tenth byte came.
pub fn read_head<I: Source>(input: &mut I) -> Result<InputHead, ReadFault>
    ensures read { IfOk result (λ head. ReadsHead head (I.known input.old) (I.known input.new)) }
    ensures failed { OnErr result
        ((taken : ℕ) × FailsWithin taken (I.known input.old) (I.known input.new)) }
    ensures cause { HasCause (I.known input.old) (I.known input.new) (IsErr result) }
{
    let mut bytes = [0u8; HEAD_SIZE];
    let mut len = 0;
    while len < HEAD_SIZE {
        match input.read(&mut bytes[len..]) {
            ReadOut::Got(n) => len += n,
            ReadOut::End => break,
            ReadOut::Failed => return Err(ReadFault),
        }
    }
    Ok(InputHead { bytes, len })
}
