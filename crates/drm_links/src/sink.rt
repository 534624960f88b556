//! Where bytes are written to.

ghost use Rattle.std.specs.Prelude.{ℕ, ◌≡◌, ◌<◌, Option, length};
ghost use Rattle.drm_links.specs.Known.{Known, HasCause, CountsCall, IfBothKnown};
ghost use Rattle.drm_links.specs.Sink.{Output, WritesSome, SinkAppends};

#[derive(Clone, Copy, Debug, PartialEq, Eq)]
pub enum WriteOut {
    /// This many bytes from the front were appended.
    Wrote(usize),
    /// Nothing was appended.
    Failed,
}

/// A sink failed.
#[derive(Clone, Copy, Debug, PartialEq, Eq)]
pub struct WriteFault;

pub trait Sink {
    /// How often a call has failed, and what was written, where the sink tells it.
    ghost known: { Self → Known Output };

    /// Writes some bytes from the front.
    fn write(&mut self, bytes: &[u8]) -> WriteOut
        requires { 0 < length bytes.now }
        ensures moves_bytes { WritesSome result bytes.now }
        ensures appended { IfBothKnown (known self.old) (known self.new) (SinkAppends result bytes.now) }
        ensures counts_call { CountsCall (λ output. output.calls) (known self.old) (known self.new) }
        ensures cause { HasCause (known self.old) (known self.new) (result ≡ WriteOut.Failed) };
}
