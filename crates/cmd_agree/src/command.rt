//! The command `agree`.

ghost use Rattle.std.specs.Prelude.{◌≡◌, IsErrOf};
ghost use Rattle.cmd_agree.specs.Run.{AgreeRun};

use crate::line::line_of;
use crate::pair::read_pair;
use cmd_faults::Fault;
use drm_links::{Shelf, Sink, write_all};
use std::alloc::Global;

/// Reads two schedules, and writes how many of their super frames, from the first one on, have the same datagrams.
pub fn agree<S: Shelf, O: Sink>(
    alloc: Global,
    name: &str,
    other: &str,
    shelf: &mut S,
    out: &mut O,
) -> Result<(), Fault>
    ensures run { AgreeRun name.now other.now result S.known shelf.old shelf.new
        O.known out.old out.new }
    // The words were judged before, and memory is taken before the first write.
    ensures link { IsErrOf result Fault.Link → ⊥ }
    ensures words { IsErrOf result Fault.Words → ⊥ }
    ensures memory { IsErrOf result Fault.NoMemory → out.new ≡ out.old }
{
    let pair = read_pair(alloc, shelf, name, other)?;
    let line = line_of(alloc, &pair)?;
    write_all(out, line.as_slice())?;
    Ok(())
}
