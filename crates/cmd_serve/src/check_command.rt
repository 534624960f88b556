//! The command `check`.

ghost use Rattle.std.specs.Prelude.{◌≡◌, IsErrOf};
ghost use Rattle.cmd_serve.specs.Check.{CheckRun};

use cmd_faults::Fault;
use cmd_load::read_schedule;
use drm_links::{Shelf, Sink, write_all};
use drm_plan::write_plan;
use std::alloc::Global;

/// Reads a schedule, and writes its canonical text.
pub fn check<S: Shelf, O: Sink>(
    alloc: Global,
    name: &str,
    shelf: &mut S,
    out: &mut O,
) -> Result<(), Fault>
    ensures run { CheckRun name.now result S.known shelf.old shelf.new
        O.known out.old out.new }
    // The words were judged before, and memory is taken before the first write.
    ensures link { IsErrOf result Fault.Link → ⊥ }
    ensures words { IsErrOf result Fault.Words → ⊥ }
    ensures memory { IsErrOf result Fault.NoMemory → out.new ≡ out.old }
{
    let schedule = read_schedule(alloc, shelf, name)?;
    let text = write_plan(alloc, &schedule)?;
    write_all(out, text.as_slice())?;
    Ok(())
}
