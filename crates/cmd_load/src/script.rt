//! The script of a text on a shelf.

ghost use Rattle.std.specs.Prelude.{◌≡◌, Err, IfOk};
ghost use Rattle.drm_links.specs.Known.{HasCause};
ghost use Rattle.plan_script.specs.Script.{IsScript};
ghost use Rattle.cmd_load.specs.Loading.{ReadBy};
ghost use Rattle.cmd_load.specs.Scripts.{script_named};
ghost use Rattle.cmd_load.specs.Faults.{fault_of_script};

use crate::loading::{ScheduleFault, load};
use cmd_faults::Fault;
use drm_links::Shelf;
use drm_schedule::Schedule;
use plan_script::{Script, ScriptFault, read_script};
use std::alloc::Global;
use text_lines::LONGEST_TEXT;

impl From<ScriptFault> for ScheduleFault {
    ghost use Rattle.std.specs.Prelude.{◌≡◌};
    ghost use Rattle.cmd_load.specs.ScriptFaults.{text_fault_of};

    ghost from_gives = { λ refused fault. fault ≡ text_fault_of refused };

    fn from(refused: ScriptFault) -> Self {
        match refused {
            ScriptFault::Line { line, reason } => ScheduleFault::Line { line, reason },
            ScriptFault::NoMemory => ScheduleFault::NoMemory,
        }
    }
}

/// The script whose text has this name, for a schedule.
pub fn read_script_named<S: Shelf>(
    alloc: Global,
    shelf: &mut S,
    name: &str,
    plan: &Schedule,
) -> Result<Script, ScheduleFault>
    ensures reads { ReadBy (script_named plan.now name.now) result (S.known shelf.old) (S.known shelf.new) }
    ensures script { IfOk result (IsScript plan.now) }
    ensures cause { HasCause (S.known shelf.old) (S.known shelf.new) (result ≡ Err ScheduleFault.Read) }
{
    let text = load(alloc, shelf, 0, name, LONGEST_TEXT)?;
    Ok(read_script(alloc, text.as_slice(), plan)?)
}

/// The fault of a run that a fault of a script becomes.
pub fn script_fault(fault: ScheduleFault) -> Fault
    ensures { result ≡ fault_of_script fault }
{
    match fault {
        ScheduleFault::NoMemory => Fault::NoMemory,
        ScheduleFault::Line { line, reason } => Fault::Script { line, reason },
        ScheduleFault::Read => Fault::Read,
    }
}
