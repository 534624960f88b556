//! The rules of the lines, judged in their order.

ghost use Rattle.std.specs.Prelude.{◌≡◌, ◌||◌, ◌<◌, ◌^◌, ◌-◌, false, length, map, List, ℕ, ◌∷◌, All, Result, IfOk, OnOk};
ghost use Rattle.text_lines.specs.Lines.{words_of};
ghost use Rattle.plan_grammar.specs.Gives.{ReaderGives};
ghost use Rattle.plan_grammar.specs.Said.{LineInLines, keyword_said};
ghost use Rattle.plan_rules.specs.InLines.{IsSingle, ReadInLines, EndsComplete};
ghost use Rattle.plan_grammar.specs.Says.{line_said};
ghost use Rattle.plan_rules.specs.ParsedLine.{nothing};
ghost use Rattle.plan_rules.specs.Rules.{version_in, reads_as, keyword_in, is_misplaced, in_current, is_second, is_too_many, is_17th, ends_incomplete, current_line, said_after, said_words, said_line, said_from, said};
ghost use Rattle.plan_rules.specs.Steps.{LinesStep, ReadsLines, check_of, refused_of, end_check};

use crate::counts;
use crate::fault::{PlanFault, fault_at_line};
use crate::keywords::{is_front, keyword_at};
use crate::said::ParsedText;
use crate::version::is_one;
use drm_schedule::Reason;
use plan_grammar::TABLE;
use plan_lines::{Keyword, Line, LineFault, Version, read_line};
use plan_rows::keyword_in;
use std::alloc::Global;
use text_lines::{is_comment, words};

impl ParsedText {
    // The version that the first line says.
    fn version(&self) -> Option<Version>
        ensures { result ≡ version_in self.now.front }
    {
        match self.front.as_slice() {
            [first, ..] => match &first.says {
                Line::Version(version) => Some(*version),
                _ => None,
            },
            [] => None,
        }
    }

    // The version by whose rows its lines are read.
    fn reads_as(&self) -> Version
        ensures { result ≡ reads_as (version_in self.now.front) }
    {
        if is_one(self.version()) {
            Version::One
        } else {
            Version::Two
        }
    }

    // The keyword that a word is in a text of this version.
    #[tactic(auto, unfolding(crate::specs::Rules::keyword_in))]
    fn keyword_in(&self, word: &str) -> Option<Keyword>
        ensures { result ≡ keyword_in (version_in self.now.front) word.now }
    {
        keyword_in(&TABLE, self.reads_as().number(), word)
    }

    fn is_misplaced(&self, keyword: Keyword) -> bool
        ensures { result ≡ is_misplaced self.now keyword }
    {
        match &self.current {
            None => !keyword.is(keyword_at(self.front.len())),
            Some(block) => {
                is_front(keyword)
                    || counts::is_out_of_order(self.version(), keyword, block.lines.as_slice())
            }
        }
    }

    fn is_second(&self, keyword: Keyword) -> bool
        ensures { result ≡ in_current (is_second keyword) self.now.current }
    {
        match &self.current {
            None => false,
            Some(block) => counts::is_second(keyword, block.lines.as_slice()),
        }
    }

    fn is_full(&self, keyword: Keyword) -> bool
        ensures { result ≡ in_current (is_too_many keyword) self.now.current }
    {
        match &self.current {
            None => false,
            Some(block) => counts::is_too_many(keyword, block.lines.as_slice()),
        }
    }

    fn is_17th(&self, keyword: Keyword) -> bool
        ensures { result ≡ is_17th self.now keyword }
    {
        keyword.is(Keyword::Config) && self.closed.len() >= 15
    }

    fn ends_incomplete(&self, keyword: Keyword) -> bool
        ensures { result ≡ ends_incomplete self.now keyword }
    {
        match &self.current {
            None => false,
            Some(block) => {
                keyword.is(Keyword::Config)
                    && counts::is_incomplete(self.version(), block.lines.as_slice())
            }
        }
    }

    fn current_line(&self) -> u32
        ensures { result ≡ current_line self.now.current }
    {
        match &self.current {
            None => 0,
            Some(block) => block.line,
        }
    }

    // What is wrong with a line of this keyword, whose words are right.
    #[tactic(auto, unfolding(crate::specs::Steps::check_of))]
    fn check(&self, n: u32, keyword: Keyword) -> Result<(), PlanFault>
        ensures { result ≡ check_of self.now n keyword }
    {
        if self.is_misplaced(keyword) {
            return Err(fault_at_line(n, Reason::Order));
        }
        if self.is_second(keyword) {
            return Err(fault_at_line(n, Reason::Twice));
        }
        if self.is_full(keyword) || self.is_17th(keyword) {
            return Err(fault_at_line(n, Reason::TooLong));
        }
        Ok(())
    }

    // The fault of a line that has this fault by itself.
    #[tactic(auto, unfolding(crate::specs::Steps::refused_of))]
    fn refused(&self, n: u32, keyword: Keyword, reason: Reason) -> PlanFault
        ensures { result ≡ refused_of self.now n keyword reason }
    {
        match reason {
            Reason::Word => fault_at_line(n, Reason::Word),
            _ if self.is_misplaced(keyword) => fault_at_line(n, Reason::Order),
            _ => fault_at_line(n, reason),
        }
    }

    fn judge(
        &mut self,
        alloc: Global,
        n: u32,
        keyword: Keyword,
        line: Result<Line, LineFault>,
    ) -> Result<(), PlanFault>
        requires { ends_incomplete self.old keyword ≡ false }
        ensures steps { (says : Result Line Reason) → ReaderGives line says
            → LinesStep result self.new (said_after self.old n keyword says) }
        ensures kept { IfOk line LineInLines → IfOk line (λ l. keyword_said l ≡ keyword) → ReadInLines self.old
            → OnOk result (ReadInLines self.new) }
    {
        match line {
            Ok(line) => {
                self.check(n, keyword)?;
                self.add(alloc, n, line)?;
                Ok(())
            }
            Err(fault) => match fault {
                LineFault::NoMemory => Err(PlanFault::NoMemory),
                LineFault::Broken(reason) => Err(self.refused(n, keyword, reason)),
            },
        }
    }

    fn take_known(
        &mut self,
        alloc: Global,
        n: u32,
        keyword: Keyword,
        line: &str,
        words: &[&str],
    ) -> Result<(), PlanFault>
        ensures steps { LinesStep result self.new
            (said_after self.old n keyword (line_said (reads_as (version_in self.old.front)) keyword line.now (map (λ w. w.now) words.now))) }
        ensures kept { (first : List ℕ) → words_of line.now ≡ first ∷ map (λ w. w.now) words.now → IsSingle line.now
            → ReadInLines self.old → OnOk result (ReadInLines self.new) }
    {
        if self.ends_incomplete(keyword) {
            return Err(fault_at_line(self.current_line(), Reason::Missing));
        }
        let read = read_line(alloc, self.reads_as(), keyword, line, words);
        self.judge(alloc, n, keyword, read)
    }

    fn take_words(
        &mut self,
        alloc: Global,
        n: u32,
        line: &str,
        words: &[&str],
    ) -> Result<(), PlanFault>
        ensures steps { LinesStep result self.new
            (said_words self.old n line.now (map (λ w. w.now) words.now)) }
        ensures kept { words_of line.now ≡ map (λ w. w.now) words.now → IsSingle line.now
            → ReadInLines self.old → OnOk result (ReadInLines self.new) }
    {
        let [first, words @ ..] = words else {
            return Ok(());
        };
        if is_comment(first) {
            return Ok(());
        }
        match self.keyword_in(first) {
            None => Err(fault_at_line(n, Reason::Word)),
            Some(keyword) => self.take_known(alloc, n, keyword, line, words),
        }
    }

    /// Reads line `n`, from 1.
    #[tactic(auto, unfolding(crate::specs::Rules::said_line))]
    pub fn take(&mut self, alloc: Global, n: u32, line: &str) -> Result<(), PlanFault>
        ensures steps { LinesStep result self.new (said_line self.old n line.now) }
        ensures kept { IsSingle line.now → ReadInLines self.old → OnOk result (ReadInLines self.new) }
    {
        let words = words(alloc, line)?;
        self.take_words(alloc, n, line, &words)
    }

    // What the end of a text of `n` lines shows to be missing.
    #[tactic(auto, unfolding(crate::specs::Steps::end_check))]
    fn check_end(&self, n: u32) -> Result<(), PlanFault>
        requires { n < 2 ^ 32 - 1 }
        ensures { result ≡ end_check (version_in self.now.front) self.now.current n }
    {
        match &self.current {
            None => Err(fault_at_line(n + 1, Reason::Missing)),
            Some(block) => {
                if counts::is_incomplete(self.version(), block.lines.as_slice()) {
                    return Err(fault_at_line(block.line, Reason::Missing));
                }
                Ok(())
            }
        }
    }
}

// What the lines say, with no look at what is missing at their end.
fn read_all(alloc: Global, lines: &[&str]) -> Result<ParsedText, PlanFault>
    requires { length lines.now < 2 ^ 32 - 1 }
    ensures said { ReadsLines result (said_from nothing 1 (map (λ line. line.now) lines.now)) }
    ensures kept { All (λ line. IsSingle line.now) lines.now → IfOk result ReadInLines }
{
    let mut read = ParsedText::new(alloc);
    for (i, line) in lines.iter().enumerate() {
        read.take(alloc, i as u32 + 1, line)?;
    }
    Ok(read)
}

/// What the lines of a text say.
pub fn read_lines(alloc: Global, lines: &[&str]) -> Result<ParsedText, PlanFault>
    requires { length lines.now < 2 ^ 32 - 1 }
    ensures said { ReadsLines result (said (map (λ line. line.now) lines.now)) }
    ensures kept { All (λ line. IsSingle line.now) lines.now → IfOk result ReadInLines }
    ensures whole { IfOk result EndsComplete }
{
    let read = read_all(alloc, lines)?;
    read.check_end(lines.len() as u32)?;
    Ok(read)
}
