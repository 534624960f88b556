//! The rules of the lines, judged in their order.

ghost use Rattle.std.specs.Prelude.{◌≡◌, ◌+◌, ◌-◌, ◌<◌, ◌≤◌, ◌^◌, ◌∷◌, [], true, length, map, Err, IfOk, OnOk};
ghost use Rattle.plan_script.specs.Script.{delivered, in_range, in_schedule, script_of, IsScript};
ghost use Rattle.plan_script.specs.Steps.{AreCounted, KeepsPackets, ReadsScript, ReadsFeeds, ScriptSteps, feeds_in, feeds_after, line_after, lines_after, with_all, words_after};
ghost use Rattle.plan_script.specs.declared.fault.ScriptFault.TheVariants as faults;

use crate::fault::{ScriptFault, fault_at_line};
use crate::feeds::Feeds;
use crate::line::{Delivers, ScriptLine};
use crate::read_line::read_line;
use crate::script::Script;
use drm_schedule::{Reason, Schedule};
use std::alloc::Global;
use text_lines::{is_comment, words};

impl Feeds {
    // What is delivered at line `n`, for the last feed.
    fn add(&mut self, plan: &Schedule, n: u32, delivers: Delivers) -> Result<(), ScriptFault>
        requires counted { AreCounted plan.now self.old }
        requires within { in_schedule plan.now delivers ≡ true }
        ensures none { self.old.current ≡ None → result ≡ Err (faults.Line n Reason.Missing) }
        ensures open { (self.old.current ≡ None → ⊥)
            → KeepsPackets result n self.new (with_all plan.now (delivered plan.now delivers) self.old) }
    {
        if self.current.is_none() {
            return Err(fault_at_line(n, Reason::Missing));
        }
        self.deliver(plan, n, delivers)
    }

    // Line `n`, which by itself says this.
    fn judge(
        &mut self,
        alloc: Global,
        plan: &Schedule,
        n: u32,
        line: ScriptLine,
    ) -> Result<(), ScriptFault>
        requires counted { AreCounted plan.now self.old }
        requires within { in_range plan.now line ≡ true }
        ensures steps { ScriptSteps result (feeds_in self.new) (feeds_after plan.now (feeds_in self.old) n line) }
        ensures counted { OnOk result (AreCounted plan.now self.new) }
    {
        match line {
            ScriptLine::Feed => self.begin(alloc, n),
            ScriptLine::Deliver(delivers) => self.add(plan, n, delivers),
        }
    }

    fn take_words(
        &mut self,
        alloc: Global,
        plan: &Schedule,
        n: u32,
        line: &str,
        words: &[&str],
    ) -> Result<(), ScriptFault>
        requires counted { AreCounted plan.now self.old }
        ensures steps { ScriptSteps result (feeds_in self.new)
            (words_after plan.now (feeds_in self.old) n line.now (map (λ w. w.now) words.now)) }
        ensures counted { OnOk result (AreCounted plan.now self.new) }
    {
        let [first, words @ ..] = words else {
            return Ok(());
        };
        if is_comment(first) {
            return Ok(());
        }
        let said = read_line(alloc, plan, n, line, first, words)?;
        self.judge(alloc, plan, n, said)
    }

    /// Reads line `n`, from 1.
    pub fn take(
        &mut self,
        alloc: Global,
        plan: &Schedule,
        n: u32,
        line: &str,
    ) -> Result<(), ScriptFault>
        requires counted { AreCounted plan.now self.old }
        ensures steps { ScriptSteps result (feeds_in self.new)
            (line_after plan.now (feeds_in self.old) n line.now) }
        ensures counted { OnOk result (AreCounted plan.now self.new) }
    {
        let words = words(alloc, line)?;
        self.take_words(alloc, plan, n, line, &words)
    }
}

// What the lines give, with no look at what is missing at their end.
fn read_all(alloc: Global, plan: &Schedule, lines: &[&str]) -> Result<Feeds, ScriptFault>
    requires { length lines.now < 2 ^ 32 - 1 }
    ensures steps { ReadsFeeds result (lines_after plan.now [] 1 (map (λ line. line.now) lines.now)) }
    ensures counted { IfOk result (AreCounted plan.now) }
{
    let mut feeds = Feeds::new(alloc);
    for (i, line) in lines.iter().enumerate() {
        feeds.take(alloc, plan, i as u32 + 1, line)?;
    }
    Ok(feeds)
}

/// What the lines give.
pub fn read_lines(alloc: Global, plan: &Schedule, lines: &[&str]) -> Result<Script, ScriptFault>
    requires { length lines.now < 2 ^ 32 - 1 }
    ensures read { ReadsScript result (script_of plan.now (map (λ line. line.now) lines.now)) }
    ensures script { IfOk result (IsScript plan.now) }
{
    let feeds = read_all(alloc, plan, lines)?;
    feeds.finish(lines.len() as u32)
}
