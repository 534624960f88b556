//! Which keywords may stand where, and how often.

ghost use Rattle.std.specs.Prelude.{◌≡◌};
ghost use Rattle.plan_rules.specs.Rules.{keyword_at, is_front, is_single, is_setting, is_entity};

use plan_lines::Keyword;

/// The keyword of the line behind so many lines, where no configuration has begun.
pub fn keyword_at(lines: usize) -> Keyword
    ensures { result ≡ keyword_at lines }
{
    match lines {
        0 => Keyword::Drmplan,
        1 => Keyword::Carry,
        2 => Keyword::First,
        3 => Keyword::Length,
        _ => Keyword::Config,
    }
}

/// A keyword of the four first lines.
pub fn is_front(keyword: Keyword) -> bool
    ensures { result ≡ is_front keyword }
{
    match keyword {
        Keyword::Drmplan | Keyword::Carry | Keyword::First | Keyword::Length => true,
        _ => false,
    }
}

/// What a configuration has at most once.
pub fn is_single(keyword: Keyword) -> bool
    ensures { result ≡ is_single keyword }
{
    match keyword {
        Keyword::Mode
        | Keyword::Occupancy
        | Keyword::Depth
        | Keyword::Msc
        | Keyword::Sdc
        | Keyword::Protection
        | Keyword::Room
        | Keyword::Clock => true,
        _ => false,
    }
}

/// An entity line.
pub fn is_entity(keyword: Keyword) -> bool
    ensures { result ≡ is_entity keyword }
{
    match keyword {
        Keyword::Label
        | Keyword::Freq
        | Keyword::When
        | Keyword::App
        | Keyword::Audio
        | Keyword::Language
        | Keyword::Raw => true,
        _ => false,
    }
}

/// A line from mode to clock.
pub fn is_setting(keyword: Keyword) -> bool
    ensures { result ≡ is_setting keyword }
{
    !(is_front(keyword)
        || keyword.is(Keyword::Config)
        || keyword.is(Keyword::Block)
        || is_entity(keyword))
}
