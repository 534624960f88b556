//! A mistake in words, and how it is said.

use crate::commands::{Command, commands};
use crate::value::Allowed;
use std::fmt::{self, Display, Formatter};

/// The word that has no place, or the last one before the place in which one is missing, and what could stand there. It is
/// `None` where there is no word at all.
#[derive(Clone, Copy, Drop)]
pub struct Mistake<'a> {
    pub word: Option<&'a str>,
    pub expected: Expected<'a>,
}

impl<'a> Mistake<'a> {
    pub(crate) fn new(word: Option<&'a str>, expected: Expected<'a>) -> Self {
        Mistake { word, expected }
    }
}

/// What could stand there.
#[derive(Clone, Copy, Drop)]
pub enum Expected<'a> {
    /// A command.
    Command,
    /// This plain word, which is missing.
    Missing { word: Allowed },
    /// Another word for this one.
    Value { word: Allowed },
    /// Another value of this option.
    OptionValue { option: Allowed },
    /// Another option, or none.
    Option { of: Command },
    /// A value behind the option.
    Something,
    /// No second option of this name.
    NoSecond,
    /// No plain word.
    Nothing { of: Command },
    /// No plain word; the value of the option before it is one word.
    Joined { of: Command },
    /// No plain word; what it names comes on standard input.
    Input { of: Command, file: &'a str },
    /// An address, or no plain word; what it names comes on standard input.
    AddressOrInput { word: Allowed, file: &'a str },
    /// Three words as one.
    Pft { m: &'a str, mtu: &'a str },
}

impl Display for Expected<'_> {
    fn fmt<W: fmt::Write>(&self, f: &mut Formatter<W>) -> fmt::Result {
        match *self {
            Expected::Command => write_commands(f),
            Expected::Missing { word } => write!(f, "{} is missing: {}", word.name, word.value),
            Expected::Value { word } => write!(f, "{}: {}", word.name, word.value),
            Expected::OptionValue { option } => write!(f, "--{}: {}", option.name, option.value),
            Expected::Option { of } => write_options(f, of),
            Expected::Something => write!(f, "this option has a value behind it"),
            Expected::NoSecond => write!(f, "this option is given twice"),
            Expected::Nothing { of } => write!(f, "{} takes no further word", of.name),
            Expected::Joined { of } => write!(
                f,
                "{} takes no further word; several addresses, or streams, are one word, joined by commas",
                of.name
            ),
            Expected::Input { of, file } => {
                write!(f, "{} reads standard input: < {file}", of.name)
            }
            Expected::AddressOrInput { word, file } => {
                write!(
                    f,
                    "{}: {}; a capture comes on standard input: < {file}",
                    word.name, word.value
                )
            }
            Expected::Pft { m, mtu } => write!(f, "this is one word: pft:{m}:{mtu}"),
        }
    }
}

fn write_commands<W: fmt::Write>(f: &mut Formatter<W>) -> fmt::Result {
    write!(f, "a command comes first, one of")?;
    for command in commands() {
        write!(f, " {}", command.name)?;
    }
    Ok(())
}

fn write_options<W: fmt::Write>(f: &mut Formatter<W>, of: Command) -> fmt::Result {
    if of.options.is_empty() {
        return write!(f, "{} has no options", of.name);
    }
    write!(f, "the options of {} are", of.name)?;
    for option in of.options {
        write!(f, " --{}", option.name)?;
    }
    Ok(())
}
