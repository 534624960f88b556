//! Why a receiver stops before its report is whole.

use drm_links::WriteFault;

#[derive(Clone, Copy, Debug, PartialEq, Eq)]
pub enum ReceiveError {
    Link,
    Write,
    NoMemory,
}

impl From<WriteFault> for ReceiveError {
    ghost use Rattle.std.specs.Prelude.{◌≡◌};
    ghost use Rattle.recv_report.specs.declared.stop.ReceiveError.TheVariants.{Write};

    ghost from_gives = { λ _ stop. stop ≡ Write };

    fn from(_: WriteFault) -> Self {
        ReceiveError::Write
    }
}
