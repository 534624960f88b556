//! The first mistake in words.

use crate::commands::{Command, PATHS, commands};
use crate::mistake::{Expected, Mistake};
use crate::value::{Allowed, Value};
use cli_syntax::{
    Named, WordsFault, address, carry, read_addresses, read_arguments, read_live, within,
};
use std::alloc::Global;

/// What is wrong with words that `drmcast` refused. None where memory runs out, or nothing is found.
pub fn words_mistake(alloc: Global, words: &[String]) -> Option<Mistake<'_>> {
    let Some((name, others)) = words.split_first() else {
        return Some(Mistake::new(None, Expected::Command));
    };
    let name = name.as_str();
    match commands().iter().find(|it| it.name == name) {
        Some(command) => mistake_of(alloc, *command, name, others),
        None => Some(Mistake::new(Some(name), Expected::Command)),
    }
}

/// What is wrong with words that `drmpaths` refused. None where memory runs out, or nothing is found.
pub fn paths_mistake(alloc: Global, words: &[String]) -> Option<Mistake<'_>> {
    mistake_of(alloc, PATHS, PATHS.name, words)
}

// What is wrong with the words behind a command.
fn mistake_of<'a>(
    alloc: Global,
    command: Command,
    name: &'a str,
    words: &'a [String],
) -> Option<Mistake<'a>> {
    match read_arguments(alloc, words) {
        Ok(arguments) => match option_mistake(alloc, command, words, &arguments.options) {
            Some(mistake) => Some(mistake),
            None => word_mistake(alloc, command, name, &arguments.texts),
        },
        Err(WordsFault::Words) => stray_mistake(command, words),
        Err(WordsFault::NoMemory) => None,
    }
}

fn is_stray(word: &str) -> bool {
    word.starts_with('-') && word.len() > 1 && !word.starts_with("--")
}

fn is_option(word: &str) -> bool {
    word.starts_with("--") && word.len() > 2
}

// The word that begins with one dash, or else the option without a value.
fn stray_mistake(command: Command, words: &[String]) -> Option<Mistake<'_>> {
    if let Some(stray) = words.iter().find(|it| is_stray(it)) {
        let expected = Expected::Option { of: command };
        return Some(Mistake::new(Some(stray.as_str()), expected));
    }
    let option = words.iter().rfind(|it| is_option(it))?;
    Some(Mistake::new(Some(option.as_str()), Expected::Something))
}

// The word that names an option, the last one that does.
fn word_of<'a>(words: &'a [String], name: &'a str) -> &'a str {
    match words.iter().rfind(|it| names(it, name)) {
        Some(word) => word.as_str(),
        None => name,
    }
}

// Whether a word is this option, with or without its value.
fn names(word: &str, name: &str) -> bool {
    match word.strip_prefix("--") {
        Some(option) => option == name || option.split_once('=').is_some_and(|it| it.0 == name),
        None => false,
    }
}

// The first option that the command doesn't have, that stands twice, or whose value is no such value.
fn option_mistake<'a>(
    alloc: Global,
    command: Command,
    words: &'a [String],
    given: &[Named<'a>],
) -> Option<Mistake<'a>> {
    for (k, option) in given.iter().enumerate() {
        let mistake = mistake_in(alloc, command, words, *option, &given[..k]);
        if mistake.is_some() {
            return mistake;
        }
    }
    None
}

// What is wrong with an option behind these ones.
fn mistake_in<'a>(
    alloc: Global,
    command: Command,
    words: &'a [String],
    option: Named<'a>,
    before: &[Named<'a>],
) -> Option<Mistake<'a>> {
    let Some(known) = command.options.iter().find(|it| it.name == option.name) else {
        let expected = Expected::Option { of: command };
        return Some(Mistake::new(Some(word_of(words, option.name)), expected));
    };
    if before.iter().any(|it| it.name == option.name) {
        let word = word_of(words, option.name);
        return Some(Mistake::new(Some(word), Expected::NoSecond));
    }
    if fits(alloc, known.value, option.value) {
        return None;
    }
    let expected = Expected::OptionValue { option: *known };
    Some(Mistake::new(Some(option.value), expected))
}

// The first plain word that is no such word, that is too many, or that is missing.
fn word_mistake<'a>(
    alloc: Global,
    command: Command,
    name: &'a str,
    given: &[&'a str],
) -> Option<Mistake<'a>> {
    for (word, text) in command.words.iter().zip(given) {
        if !fits(alloc, word.value, text) {
            let expected = another(command, *word, text, given);
            return Some(Mistake::new(Some(text), expected));
        }
    }
    match (
        command.words.get(given.len()),
        given.get(command.words.len()),
    ) {
        (_, Some(text)) => Some(Mistake::new(Some(text), beyond(command, text))),
        (Some(word), None) if !is_optional(command, word.value) => {
            let before = given.last().copied().unwrap_or(name);
            Some(Mistake::new(Some(before), Expected::Missing { word: *word }))
        }
        _ => None,
    }
}

// Whether the command reads its input where no such word stands.
fn is_optional(command: Command, value: Value) -> bool {
    command.reads_input && matches!(value, Value::Address | Value::Addresses { .. })
}

// What a word means where none has a place.
fn beyond(command: Command, text: &str) -> Expected<'_> {
    if command.reads_input {
        Expected::Input {
            of: command,
            file: text,
        }
    } else if address(text).is_some() || within(text, 0, 3).is_some() {
        Expected::Joined { of: command }
    } else {
        Expected::Nothing { of: command }
    }
}

// What could stand in the place of a text that is no such word.
fn another<'a>(command: Command, word: Allowed, text: &'a str, given: &[&'a str]) -> Expected<'a> {
    match (word.value, given) {
        (Value::Carry, [.., "pft", m, mtu]) => Expected::Pft { m, mtu },
        (Value::Address | Value::Addresses { .. }, [_]) if command.reads_input => {
            Expected::AddressOrInput { word, file: text }
        }
        _ => Expected::Value { word },
    }
}

// Whether a text is such a value. Where memory runs out nothing is said against it.
fn fits(alloc: Global, value: Value, text: &str) -> bool {
    match value {
        Value::Name => true,
        Value::Address => address(text).is_some(),
        Value::Addresses { least, most } => match read_addresses(alloc, text) {
            Ok(addresses) => least <= addresses.len() && addresses.len() <= most,
            Err(fault) => fault == WordsFault::NoMemory,
        },
        Value::Carry => carry(text).is_some(),
        Value::Streams => read_live(alloc, text).is_ok(),
        Value::Number { least, most } => within(text, least, most).is_some(),
    }
}
