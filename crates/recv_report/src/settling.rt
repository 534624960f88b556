//! What becomes of receivers that ended.

ghost use Rattle.std.specs.Prelude.{◌≡◌, Err};
ghost use Rattle.drm_links.specs.Known.{HasCause};
ghost use Rattle.recv_report.specs.Settling.{ReceiversSettle};

use crate::receiver::{Receiver, all_clean, all_done, none_failed, write_texts};
use crate::stop::ReceiveError;
use drm_links::{Link, Sink};

/// Writes the reports of receivers that ended, unless one of them failed.
pub fn settle<L: Link, O: Sink>(
    receivers: &[Receiver<L>],
    out: &mut O,
) -> Result<bool, ReceiveError>
    ensures settles { ReceiversSettle receivers.now result O.known out.old out.new }
    ensures cause { HasCause (O.known out.old) (O.known out.new) (result ≡ Err ReceiveError.Write) }
{
    if !none_failed(receivers) {
        return Err(ReceiveError::Link);
    }
    if !all_done(receivers) {
        return Err(ReceiveError::NoMemory);
    }
    write_texts(receivers, out)?;
    Ok(all_clean(receivers))
}
