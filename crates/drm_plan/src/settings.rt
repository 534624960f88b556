//! What the lines of a configuration say of its settings.

ghost use Rattle.std.specs.Prelude.{◌≡◌, Option, Some, None};
ghost use Rattle.drm_plan.specs.Projection.{first_said, first_line, line_of, mode_in, occupancy_in, short_depth_in, msc_in, qam4_in, prot_a_in, prot_b_in, room_in, clock_in, carry_in, seq_in, dlfc_in, length_in};
ghost use Rattle.plan_rows.specs.declared.keyword.Keyword.TheVariants as keywords;
ghost use Rattle.drm_plan.specs.Settings.{said_by, line_by};

use drm_schedule::{Carry, Clock, Mode};
use plan_lines::{Keyword, Line};
use plan_rules::ParsedLine;

/// The first line of this keyword.
fn find(keyword: Keyword, lines: &[ParsedLine]) -> Option<&ParsedLine>
    ensures { said_by result ≡ first_said keyword lines.now }
{
    let mut left = lines;
    while let [said, rest @ ..] = left {
        if said.says.keyword().is(keyword) {
            return Some(said);
        }
        left = rest;
    }
    None
}

/// What it says.
fn says(keyword: Keyword, lines: &[ParsedLine]) -> Option<&Line>
    ensures { line_by result ≡ first_line keyword lines.now }
{
    Some(&find(keyword, lines)?.says)
}

/// The number of the first line of this keyword, 0 where there is none.
pub fn line_of(keyword: Keyword, lines: &[ParsedLine]) -> u32
    ensures { result ≡ line_of keyword lines.now }
{
    match find(keyword, lines) {
        Some(said) => said.line,
        None => 0,
    }
}

pub fn mode(lines: &[ParsedLine]) -> Mode
    ensures { result ≡ mode_in (first_line keywords.Mode lines.now) }
{
    match says(Keyword::Mode, lines) {
        Some(Line::Mode(mode)) => *mode,
        _ => Mode::A,
    }
}

pub fn occupancy(lines: &[ParsedLine]) -> u8
    ensures { result ≡ occupancy_in (first_line keywords.Occupancy lines.now) }
{
    match says(Keyword::Occupancy, lines) {
        Some(Line::Occupancy(occupancy)) => *occupancy,
        _ => 0,
    }
}

pub fn short_depth(lines: &[ParsedLine]) -> bool
    ensures { result ≡ short_depth_in (first_line keywords.Depth lines.now) }
{
    match says(Keyword::Depth, lines) {
        Some(Line::Depth { short }) => *short,
        _ => false,
    }
}

pub fn msc(lines: &[ParsedLine]) -> u8
    ensures { result ≡ msc_in (first_line keywords.Msc lines.now) }
{
    match says(Keyword::Msc, lines) {
        Some(Line::Msc(msc)) => *msc,
        _ => 0,
    }
}

pub fn qam4(lines: &[ParsedLine]) -> bool
    ensures { result ≡ qam4_in (first_line keywords.Sdc lines.now) }
{
    match says(Keyword::Sdc, lines) {
        Some(Line::Sdc { qam4 }) => *qam4,
        _ => false,
    }
}

pub fn prot_a(lines: &[ParsedLine]) -> u8
    ensures { result ≡ prot_a_in (first_line keywords.Protection lines.now) }
{
    match says(Keyword::Protection, lines) {
        Some(Line::Protection { a, .. }) => *a,
        _ => 0,
    }
}

pub fn prot_b(lines: &[ParsedLine]) -> u8
    ensures { result ≡ prot_b_in (first_line keywords.Protection lines.now) }
{
    match says(Keyword::Protection, lines) {
        Some(Line::Protection { b, .. }) => *b,
        _ => 0,
    }
}

pub fn room(lines: &[ParsedLine]) -> u16
    ensures { result ≡ room_in (first_line keywords.Room lines.now) }
{
    match says(Keyword::Room, lines) {
        Some(Line::Room(room)) => *room,
        _ => 0,
    }
}

pub fn clock(lines: &[ParsedLine]) -> Option<Clock>
    ensures { result ≡ clock_in (first_line keywords.Clock lines.now) }
{
    match says(Keyword::Clock, lines) {
        Some(Line::Clock(clock)) => Some(*clock),
        _ => None,
    }
}

pub fn carry(lines: &[ParsedLine]) -> Carry
    ensures { result ≡ carry_in (first_line keywords.Carry lines.now) }
{
    match says(Keyword::Carry, lines) {
        Some(Line::Carry(carry)) => *carry,
        _ => Carry::Plain,
    }
}

pub fn seq(lines: &[ParsedLine]) -> u16
    ensures { result ≡ seq_in (first_line keywords.First lines.now) }
{
    match says(Keyword::First, lines) {
        Some(Line::First { seq, .. }) => *seq,
        _ => 0,
    }
}

pub fn dlfc(lines: &[ParsedLine]) -> u32
    ensures { result ≡ dlfc_in (first_line keywords.First lines.now) }
{
    match says(Keyword::First, lines) {
        Some(Line::First { dlfc, .. }) => *dlfc,
        _ => 0,
    }
}

pub fn length(lines: &[ParsedLine]) -> u32
    ensures { result ≡ length_in (first_line keywords.Length lines.now) }
{
    match says(Keyword::Length, lines) {
        Some(Line::Length(length)) => *length,
        _ => 1,
    }
}
