//! Whole texts to a sink, which may take them in parts.

ghost use Rattle.drm_links.specs.Sink.{WritesWhole};

use crate::{Sink, WriteFault, WriteOut};

/// Writes all of the bytes, in as many calls as the sink wants.
pub fn write_all<O: Sink>(out: &mut O, bytes: &[u8]) -> Result<(), WriteFault>
    ensures { WritesWhole result (O.known out.old) (O.known out.new) bytes.now }
{
    let mut rest = bytes;
    while !rest.is_empty() {
        match out.write(rest) {
            WriteOut::Wrote(n) => rest = &rest[n..],
            WriteOut::Failed => return Err(WriteFault),
        }
    }
    Ok(())
}
