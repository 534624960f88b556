//! The command `exercise`.

ghost use Rattle.std.specs.Prelude.{◌≡◌, ◌≤◌, Err};
ghost use Rattle.cmd_exercise.specs.Run.{ExerciseRun};

use crate::line::write_line;
use crate::schedule::schedule_of;
use crate::script::script_of;
use cmd_air::air_over;
use cmd_faults::Fault;
use drm_bits::crc16;
use drm_links::Sink;
use report_text::ReportBuffer;
use std::alloc::Global;
use std::thread::Threads;

/// In packets.
const WINDOW: u8 = 8;

/// Receives what is delivered of the generated schedule, and writes one line on the report. Answers whether no frame is
/// missing or bad.
pub fn exercise<R: Threads + Sync, O: Sink>(
    rt: &R,
    alloc: Global,
    n: u32,
    out: &mut O,
) -> Result<bool, Fault>
    requires at_least_one { 1 ≤ n }
    requires within_limit { n ≤ 1000 }
    ensures run { ExerciseRun n result O.known out.old out.new }
{
    let plan = schedule_of(alloc, n)?;
    let script = script_of(alloc, n, &plan)?;
    let mut report = ReportBuffer::new(alloc);
    // A text in memory fails for want of memory alone.
    let Ok(clean) = air_over(rt, alloc, &plan, &script, WINDOW, &mut report) else {
        return Err(Fault::NoMemory);
    };
    if !report.is_complete() {
        return Err(Fault::NoMemory);
    }
    let delivered = script.deliveries(0).len() as u64;
    write_line(out, n, delivered, report.bytes(), crc16(report.bytes()))?;
    Ok(clean)
}
