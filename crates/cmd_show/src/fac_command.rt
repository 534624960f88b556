//! The command `fac`.

ghost use Rattle.std.specs.Prelude.{◌≡◌, IfOk, IsErrOf};
ghost use Rattle.drm_links.specs.Known.{HasCause};
ghost use Rattle.drm_fac.specs.Fac.{FacFits};
ghost use Rattle.cmd_show.specs.Fac.{ReadsFac, FacRun};

use crate::head::read_head;
use cmd_faults::Fault;
use drm_fac::{Fac, decode};
use drm_links::{Sink, Source};
use report_text::write_fac;

/// Reads a FAC and writes its line.
pub fn fac<I: Source, O: Sink>(input: &mut I, out: &mut O) -> Result<(), Fault>
    ensures run { FacRun result I.known input.old input.new O.known out.old out.new }
    // The words were judged before, and nothing here takes memory or opens a link.
    ensures link { IsErrOf result Fault.Link → ⊥ }
    ensures words { IsErrOf result Fault.Words → ⊥ }
    ensures memory { IsErrOf result Fault.NoMemory → ⊥ }
{
    let fac = read_fac(input)?;
    write_fac(out, &fac)?;
    Ok(())
}

/// Reads a FAC, all the bytes of the input.
fn read_fac<I: Source>(input: &mut I) -> Result<Fac, Fault>
    ensures reads { ReadsFac result (I.known input.old) (I.known input.new) }
    ensures fits { IfOk result FacFits }
    ensures cause { HasCause (I.known input.old) (I.known input.new) (result ≡ Err Fault.Read) }
{
    let head = read_head(input)?;
    match head.nine() {
        Some(bytes) => Ok(decode(&bytes)?),
        None if head.len() < 9 => Err(Fault::FacLength(head.len())),
        None => Err(Fault::FacOver),
    }
}
