//! The command `capacity`.

ghost use Rattle.std.specs.Prelude.{◌≡◌, IsErrOf};
ghost use Rattle.drm_links.specs.Known.{HasCause};
ghost use Rattle.cmd_capacity.specs.Run.{CapacityRun};

use crate::report::{all_fit, write_report};
use cmd_faults::Fault;
use cmd_load::read_schedule;
use drm_links::{Shelf, Sink, write_all};
use std::alloc::Global;

/// Reads a schedule, and writes what each of its configurations uses of its channel. Answers whether all fits.
pub fn capacity<S: Shelf, O: Sink>(
    alloc: Global,
    name: &str,
    shelf: &mut S,
    out: &mut O,
) -> Result<bool, Fault>
    ensures run { CapacityRun name.now result S.known shelf.old shelf.new
        O.known out.old out.new }
    // One load, or one write, failed where the run ended by it.
    ensures read { HasCause (S.known shelf.old) (S.known shelf.new) (IsErrOf result Fault.Read) }
    ensures write { HasCause (O.known out.old) (O.known out.new) (IsErrOf result Fault.Write) }
    // The words were judged before, and memory is taken before the first write.
    ensures link { IsErrOf result Fault.Link → ⊥ }
    ensures words { IsErrOf result Fault.Words → ⊥ }
    ensures memory { IsErrOf result Fault.NoMemory → out.new ≡ out.old }
{
    let schedule = read_schedule(alloc, shelf, name)?;
    let text = write_report(alloc, &schedule)?;
    write_all(out, text.as_slice())?;
    Ok(all_fit(&schedule))
}
