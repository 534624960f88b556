//! The front of an input.

ghost use Rattle.std.specs.Prelude.{◌≡◌, ◌≤◌, IfOk, IfErr, OnErr, Err, length, take};
ghost use Rattle.drm_links.specs.Known.{HasCause};
ghost use Rattle.cmd_input.specs.Input.{ReadsFirstBytes, FailsBehind};

use cmd_faults::Fault;
use drm_links::{ReadOut, Source};

/// Reads an input into the front of the room, until it ends or the room is full. Answers how many bytes came.
pub fn read_front<I: Source>(input: &mut I, buffer: &mut [u8]) -> Result<usize, Fault>
    ensures read { IfOk result (λ len. (len ≤ length buffer.old)
        × ReadsFirstBytes (length buffer.old) (take len buffer.new) (I.known input.old) (I.known input.new)) }
    ensures failed { OnErr result (FailsBehind (length buffer.old) (I.known input.old) (I.known input.new)) }
    ensures fault { IfErr result (λ fault. fault ≡ Fault.Read) }
    ensures cause { HasCause (I.known input.old) (I.known input.new) (result ≡ Err Fault.Read) }
{
    let mut len = 0;
    while len < buffer.len() {
        match input.read(&mut buffer[len..]) {
            ReadOut::Got(n) => len += n,
            ReadOut::End => break,
            ReadOut::Failed => return Err(Fault::Read),
        }
    }
    Ok(len)
}
