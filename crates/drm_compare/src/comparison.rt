//! How far two schedules have the same datagrams.

ghost use Rattle.std.specs.Prelude.{ℕ, ◌≡◌, ◌<◌, ◌≤◌, ◌↔◌, IsTrue, IfOk};
ghost use Rattle.drm_timeline.specs.Numbers.{frame_count};
ghost use Rattle.drm_compare.specs.Agreement.{SameDatagrams, IsAgreement};

use drm_bits::NoMemory;
use drm_schedule::Schedule;
use drm_server::CutFrame;
use std::alloc::Global;

/// How many super frames of two schedules, from the first one on, have the same datagrams.
pub fn agreement(alloc: Global, plan: &Schedule, other: &Schedule) -> Result<u32, NoMemory>
    ensures { IfOk result (λ n. IsAgreement plan.now other.now n) }
{
    let mut mine = CutFrame::first(alloc, plan)?;
    let mut theirs = CutFrame::first(alloc, other)?;
    // A super frame agrees where its three frames do.
    Ok(same_frames(&mut mine, &mut theirs) / 3)
}

// How many frames, from the first one on, have the same datagrams.
fn same_frames(mine: &mut CutFrame<'_>, theirs: &mut CutFrame<'_>) -> u32
    ensures within { result ≤ frame_count mine.old.plan }
    ensures within_other { result ≤ frame_count theirs.old.plan }
    ensures same { (t : ℕ) → t < result → SameDatagrams mine.old.plan theirs.old.plan t }
    ensures first_other { result < frame_count mine.old.plan → result < frame_count theirs.old.plan
        → SameDatagrams mine.old.plan theirs.old.plan result → ⊥ }
{
    let frames = mine.frames().min(theirs.frames());
    for t in 0..frames {
        mine.load(t);
        theirs.load(t);
        if !have_same_datagrams(mine, theirs) {
            return t;
        }
    }
    frames
}

// Whether two frames with the same number have the same datagrams: where they have the same packet, cut in the same way.
fn have_same_datagrams(mine: &CutFrame<'_>, theirs: &CutFrame<'_>) -> bool
    requires { theirs.now.frame ≡ mine.now.frame }
    ensures { IsTrue result ↔ SameDatagrams mine.now.plan theirs.now.plan mine.now.frame }
{
    // For their clause alone: the schedules are valid.
    mine.schedule().always_valid();
    theirs.schedule().always_valid();
    mine.packet() == theirs.packet() && mine.cut() == theirs.cut()
}
