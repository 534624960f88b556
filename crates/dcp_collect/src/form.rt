//! What the heads of the fragments of a packet say alike, and where a slot has their bytes.

ghost use Rattle.std.specs.Prelude.{◌≡◌, ◌≢◌, ◌<◌, ℕ, true};
ghost use Rattle.dcp_collect.specs.Fragments.{agree};
ghost use Rattle.dcp_collect.specs.Slots.{IsFormOf, head_at, start_at, step_at, IsOfForm, IsIndexOf};
ghost use Rattle.dcp_pft.specs.Limits.{most_fragments};

use crate::Head;
use crate::sizes::MOST_BYTES;
use dcp_pft::Rs;

// What the heads of the fragments of a packet say alike.
#[derive(Clone, Copy)]
pub(crate) struct Form {
    pub(crate) whole: bool,
    pub(crate) count: u32,
    pub(crate) rs: Option<Rs>,
    // The bytes of each fragment; without a code, of each but the last.
    pub(crate) len: u16,
    // Without a code, the bytes of the last one.
    pub(crate) last: u16,
}

impl Form {
    // The form with the length that this head says.
    pub(crate) fn with(self, head: Head) -> Form
        requires { IsOfForm self head }
        ensures form { IsFormOf result head }
        ensures head { head_at result head.index ≡ head }
        ensures others { (i : ℕ) → i ≢ head.index → agree (head_at self i) head ≡ true → head_at result i ≡ head_at self i }
    {
        if head.rs.is_none() && head.index + 1 == head.count {
            Form {
                last: head.len,
                ..self
            }
        } else {
            Form {
                len: head.len,
                ..self
            }
        }
    }

    // The head of the fragment with this index.
    pub(crate) fn head(self, index: u32) -> Head
        requires { index < most_fragments }
        ensures { result ≡ head_at self index }
    {
        let is_last = index + 1 == self.count;
        Head {
            whole: self.whole,
            count: self.count,
            index,
            len: if self.rs.is_none() && is_last {
                self.last
            } else {
                self.len
            },
            rs: self.rs,
        }
    }

    // Whether all fragments of this form agree with this head: where this is one of their heads, and the last one is not longer
    // than the others.
    pub(crate) fn suits(self, head: Head) -> bool
        requires { head.index < most_fragments }
        ensures { result ≡ true → (i : ℕ) → agree (head_at self i) head ≡ true }
    {
        self.head(head.index).agrees_with(head) && self.last <= self.len
    }

    // Where the first byte of the fragment with this index stands.
    pub(crate) fn start(self, index: u32) -> usize
        requires { IsIndexOf self index }
        ensures { result ≡ start_at self index }
    {
        match self.rs {
            Some(_) => index as usize,
            None => index as usize * (MOST_BYTES / self.count as usize),
        }
    }

    // How far behind each byte of a fragment the next one stands.
    pub(crate) fn step(self) -> usize
        ensures { result ≡ step_at self }
    {
        match self.rs {
            Some(_) => self.count as usize,
            None => 1,
        }
    }
}
