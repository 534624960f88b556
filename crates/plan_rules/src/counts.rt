//! What the lines of a configuration have, and lack.

ghost use Rattle.std.specs.Prelude.{◌≡◌, ◌==◌, length};
ghost use Rattle.std.specs.List.{list_any};
ghost use Rattle.plan_rows.specs.Keywords.{same};
ghost use Rattle.plan_grammar.specs.Said.{keyword_said};
ghost use Rattle.plan_rules.specs.ParsedLine.{count};
ghost use Rattle.plan_rows.specs.declared.keyword.Keyword.TheVariants as keywords;
ghost use Rattle.plan_rules.specs.Rules.{count_entities, is_out_of_order, lacks_a_line, is_incomplete, is_second, is_too_many};

use crate::keywords::{is_entity, is_setting, is_single};
use crate::said::ParsedLine;
use crate::version::is_two;
use plan_lines::{Keyword, Version};

fn count(keyword: Keyword, lines: &[ParsedLine]) -> usize
    ensures { result ≡ count keyword lines.now }
{
    lines
        .iter()
        .filter(|said| said.says.keyword().is(keyword))
        .count()
}

// How many entity lines stand behind the last block line, which is looked for from behind: a block has few lines, a configuration many.
fn count_entities(lines: &[ParsedLine]) -> usize
    ensures { result ≡ count_entities 0 lines.now }
{
    let mut count = 0;
    let mut left = lines;
    while let [more @ .., said] = left {
        let keyword = said.says.keyword();
        if keyword.is(Keyword::Block) {
            return count;
        }
        if is_entity(keyword) {
            count += 1;
        }
        left = more;
    }
    count
}

fn has(keyword: Keyword, lines: &[ParsedLine]) -> bool
    ensures { result ≡ list_any (λ said. same (keyword_said said.says) keyword) lines.now }
{
    lines.iter().any(|said| said.says.keyword().is(keyword))
}

fn lacks(keyword: Keyword, lines: &[ParsedLine]) -> bool
    ensures { result ≡ (count keyword lines.now == 0) }
{
    !has(keyword, lines)
}

/// Whether there is no block line.
pub fn has_no_block(lines: &[ParsedLine]) -> bool
    ensures { result ≡ (count keywords.Block lines.now == 0) }
{
    lacks(Keyword::Block, lines)
}

/// Whether an entity line stands before the first block line, or a line from mode to clock behind it.
pub fn is_out_of_order(version: Option<Version>, keyword: Keyword, lines: &[ParsedLine]) -> bool
    ensures { result ≡ is_out_of_order version keyword lines.now }
{
    if !is_two(version) {
        return false;
    }
    if has_no_block(lines) {
        is_entity(keyword)
    } else {
        is_setting(keyword)
    }
}

/// Whether a setting, a service or a stream is missing, or in version 2 a block.
pub fn is_incomplete(version: Option<Version>, lines: &[ParsedLine]) -> bool
    ensures { result ≡ is_incomplete version lines.now }
{
    lacks_a_line(lines) || (is_two(version) && has_no_block(lines))
}

#[tactic(auto, unfolding(crate::specs::Rules::lacks_a_line))]
fn lacks_a_line(lines: &[ParsedLine]) -> bool
    ensures { result ≡ lacks_a_line lines.now }
{
    lacks(Keyword::Mode, lines)
        || lacks(Keyword::Occupancy, lines)
        || lacks(Keyword::Depth, lines)
        || lacks(Keyword::Msc, lines)
        || lacks(Keyword::Sdc, lines)
        || lacks(Keyword::Protection, lines)
        || lacks(Keyword::Room, lines)
        || lacks(Keyword::Service, lines)
        || lacks(Keyword::Stream, lines)
}

/// Whether a line of this keyword is there that may stand only once.
#[tactic(auto, unfolding(crate::specs::Rules::is_second))]
pub fn is_second(keyword: Keyword, lines: &[ParsedLine]) -> bool
    ensures { result ≡ is_second keyword lines.now }
{
    is_single(keyword) && count(keyword, lines) > 0
}

/// Whether there are as many lines of this keyword as there may be.
#[tactic(auto, unfolding(crate::specs::Rules::is_too_many))]
pub fn is_too_many(keyword: Keyword, lines: &[ParsedLine]) -> bool
    ensures { result ≡ is_too_many keyword lines.now }
{
    match keyword {
        Keyword::Stream => count(keyword, lines) >= 4,
        Keyword::Block => count(keyword, lines) >= 64,
        _ => is_entity(keyword) && count_entities(lines) >= 64,
    }
}
