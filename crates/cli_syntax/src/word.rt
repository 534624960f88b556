//! What kind of word a word is.

ghost use Rattle.std.specs.Prelude.{◌≡◌};
ghost use Rattle.cli_syntax.specs.Arguing.{kind_said, kind_of, behind_one, behind_two};

use crate::cuts::cut;

/// An option and its value.
#[derive(Clone, Copy)]
pub struct Named<'a> {
    pub name: &'a str,
    pub value: &'a str,
}

/// A word behind a command.
#[derive(Clone, Copy)]
pub(crate) enum WordKind<'a> {
    /// `--`: behind it all words are plain.
    Dashes,
    Plain,
    /// `--name=value`.
    Joined(Named<'a>),
    /// `--name`, with its value in the next word.
    Apart(&'a str),
    /// It begins with a dash and is none of these.
    Stray,
}

// By what stands behind two dashes.
fn behind_two(option: &str) -> WordKind<'_>
    ensures { kind_said result ≡ behind_two option.now }
{
    if option.is_empty() {
        return WordKind::Dashes;
    }
    match cut(option, '=') {
        Some((name, value)) => WordKind::Joined(Named { name, value }),
        None => WordKind::Apart(option),
    }
}

// By what stands behind one dash.
fn behind_one(rest: &str) -> WordKind<'_>
    ensures { kind_said result ≡ behind_one rest.now }
{
    if rest.is_empty() {
        return WordKind::Plain;
    }
    match rest.strip_prefix('-') {
        Some(option) => behind_two(option),
        None => WordKind::Stray,
    }
}

pub(crate) fn kind(word: &str) -> WordKind<'_>
    ensures { kind_said result ≡ kind_of word.now }
{
    match word.strip_prefix('-') {
        Some(rest) => behind_one(rest),
        None => WordKind::Plain,
    }
}
