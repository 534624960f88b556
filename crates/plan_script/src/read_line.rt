//! What a line says by itself.

ghost use Rattle.std.specs.Prelude.{◌≡◌, true, map, IfOk};
ghost use Rattle.plan_script.specs.Script.{says, has_packet, in_range, reason_of, line_said};
ghost use Rattle.plan_script.specs.Steps.{ReadsScript};

use crate::fault::{ScriptFault, fault_at_line};
use crate::line::{Delivers, ScriptLine};
use crate::packet::SchedulePacket;
use crate::table::TABLE;
use drm_schedule::{Reason, Schedule};
use drm_timeline::frame_count;
use plan_rows::{Keyword, LineValue, RowFault, Wrong, keyword_in, number_at};
use std::alloc::Global;

// What a line of these values says.
fn made(keyword: Keyword, values: &[LineValue]) -> ScriptLine
    ensures { result ≡ says keyword values.now }
{
    let (first, second) = (number_at(values, 0), number_at(values, 1));
    match keyword {
        Keyword::Take => ScriptLine::Deliver(Delivers::Take {
            packet: first,
            fragment: second,
        }),
        Keyword::Packet => ScriptLine::Deliver(Delivers::Packet(first)),
        Keyword::Packets => ScriptLine::Deliver(Delivers::Packets {
            first,
            last: second,
        }),
        Keyword::Back => ScriptLine::Deliver(Delivers::Back(first)),
        _ => ScriptLine::Feed,
    }
}

fn has_packet(plan: &Schedule, packet: u32) -> bool
    ensures { result ≡ has_packet plan.now packet }
{
    packet < frame_count(plan)
}

// Whether the schedule has what a line delivers.
#[tactic(auto, unfolding(crate::specs::Script::in_schedule))]
fn in_range(plan: &Schedule, line: ScriptLine) -> bool
    ensures { result ≡ in_range plan.now line }
{
    match line {
        ScriptLine::Feed => true,
        ScriptLine::Deliver(Delivers::Take { packet, fragment }) => {
            has_packet(plan, packet) && fragment < SchedulePacket::of(plan, packet).count()
        }
        ScriptLine::Deliver(Delivers::Packets { first, last }) => {
            first <= last && has_packet(plan, last)
        }
        ScriptLine::Deliver(Delivers::Packet(packet) | Delivers::Back(packet)) => {
            has_packet(plan, packet)
        }
    }
}

fn reason_of(wrong: Wrong) -> Reason
    ensures { result ≡ reason_of wrong }
{
    match wrong {
        Wrong::Word => Reason::Word,
        Wrong::Number => Reason::Number,
        Wrong::Range => Reason::Range,
    }
}

/// What line `n` says, by the whole line, its first word, and those after it. The fault is `Word` where the words aren't
/// those of a line, else `Number` where one isn't spelled as a number, else `Range`.
#[tactic(auto, unfolding(crate::specs::Script::line_said))]
pub fn read_line(
    alloc: Global,
    plan: &Schedule,
    n: u32,
    line: &str,
    first: &str,
    words: &[&str],
) -> Result<ScriptLine, ScriptFault>
    ensures said { ReadsScript result (line_said plan.now n line.now first.now (map (λ w. w.now) words.now)) }
    ensures within { IfOk result (λ line. in_range plan.now line ≡ true) }
{
    let Some(keyword) = keyword_in(&TABLE, 1, first) else {
        return Err(fault_at_line(n, Reason::Word));
    };
    match plan_rows::read_line(alloc, &TABLE, 1, keyword, line, words) {
        Ok(values) if in_range(plan, made(keyword, &values)) => Ok(made(keyword, &values)),
        Ok(_) => Err(fault_at_line(n, Reason::Range)),
        Err(RowFault::Broken(wrong)) => Err(fault_at_line(n, reason_of(wrong))),
        Err(RowFault::NoMemory) => Err(ScriptFault::NoMemory),
    }
}
