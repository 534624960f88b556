//! Where bytes are read from.

ghost use Rattle.std.specs.Prelude.{ℕ, ◌≡◌, ◌<◌, Option, length};
ghost use Rattle.drm_links.specs.Known.{Known, HasCause, CountsCall, IfBothKnown};
ghost use Rattle.drm_links.specs.Source.{Input, ReadsSome, SourceTakes};

#[derive(Clone, Copy, Debug, PartialEq, Eq)]
pub enum ReadOut {
    /// This many bytes stand at the front of the buffer.
    Got(usize),
    /// No byte is left.
    End,
    /// Nothing was taken.
    Failed,
}

pub trait Source {
    /// How often a call has failed, and the bytes that are left, where the source tells them.
    ghost known: { Self → Known Input };

    /// Reads into the front of the buffer.
    fn read(&mut self, buf: &mut [u8]) -> ReadOut
        requires { 0 < length buf.old }
        ensures moves_bytes { ReadsSome result buf.old }
        ensures bytes { IfBothKnown (known self.old) (known self.new) (SourceTakes result buf.new) }
        ensures counts_call { CountsCall (λ input. input.calls) (known self.old) (known self.new) }
        ensures cause { HasCause (known self.old) (known self.new) (result ≡ ReadOut.Failed) };
}
