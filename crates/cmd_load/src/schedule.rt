//! The schedule of a text on a shelf.

ghost use Rattle.std.specs.Prelude.{◌≡◌, length};
ghost use Rattle.drm_links.specs.Known.{HasCause};
ghost use Rattle.cmd_load.specs.Loading.{ReadBy, GivesUnlessMemory};
ghost use Rattle.cmd_load.specs.Schedule.{by_lines, with_files, by_validity, schedule_named};
ghost use Rattle.drm_plan.specs.Draft.{valid_of};
ghost use Rattle.drm_plan.specs.Text.{draft_of};

use crate::loading::{ScheduleFault, load};
use drm_links::Shelf;
use drm_plan::{Draft, PlanFault, read_plan};
use drm_schedule::Schedule;
use std::alloc::Global;
use text_lines::LONGEST_TEXT;

const LONGEST_FILE: usize = 4_194_304;

impl From<PlanFault> for ScheduleFault {
    ghost use Rattle.std.specs.Prelude.{◌≡◌};
    ghost use Rattle.cmd_load.specs.PlanFaults.{schedule_fault_of};

    ghost from_gives = { λ refused fault. fault ≡ schedule_fault_of refused };

    fn from(refused: PlanFault) -> Self {
        match refused {
            PlanFault::Line { line, reason } => ScheduleFault::Line { line, reason },
            PlanFault::NoMemory => ScheduleFault::NoMemory,
        }
    }
}

/// The schedule whose text has this name, with its files.
pub fn read_schedule<S: Shelf>(
    alloc: Global,
    shelf: &mut S,
    name: &str,
) -> Result<Schedule, ScheduleFault>
    ensures reads { ReadBy (schedule_named name.now) result
        (S.known shelf.old) (S.known shelf.new) }
    ensures cause { HasCause (S.known shelf.old) (S.known shelf.new)
        (result ≡ Err ScheduleFault.Read) }
{
    let text = load(alloc, shelf, 0, name, LONGEST_TEXT)?;
    let draft = read_draft(alloc, text.as_slice())?;
    let whole = read_files(alloc, shelf, draft)?;
    checked(whole)
}

// What a text gives.
fn read_draft(alloc: Global, text: &[u8]) -> Result<Draft, ScheduleFault>
    ensures gives { GivesUnlessMemory result (by_lines (draft_of text.now)) }
    ensures fault { result ≡ Err ScheduleFault.Read → ⊥ }
{
    Ok(read_plan(alloc, text)?)
}

// Loads the files of a draft, in the order of their lines.
fn read_files<S: Shelf>(alloc: Global, shelf: &mut S, draft: Draft) -> Result<Draft, ScheduleFault>
    ensures reads { ReadBy (with_files (length draft.files) 0 draft) result
        (S.known shelf.old) (S.known shelf.new) }
    ensures cause { HasCause (S.known shelf.old) (S.known shelf.new)
        (result ≡ Err ScheduleFault.Read) }
{
    let mut draft = draft;
    let files = draft.files();
    for k in 0..files {
        let line = draft.file_line(k);
        let bytes = load(alloc, shelf, line, draft.file_name(k), LONGEST_FILE)?;
        draft.attach(k, bytes);
    }
    Ok(draft)
}

fn checked(draft: Draft) -> Result<Schedule, ScheduleFault>
    ensures gives { result ≡ by_validity (valid_of draft) }
    ensures fault { result ≡ Err ScheduleFault.Read → ⊥ }
{
    Ok(draft.valid()?)
}
