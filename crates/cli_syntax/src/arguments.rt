//! The words behind a command, as plain words and options.

ghost use Rattle.std.specs.Prelude.{◌≡◌, ◌++◌, map, string_bytes, OnOk, IfErr};
ghost use Rattle.cli_syntax.specs.Arguing.{ArgumentFollows, IsValued, read, sorted};
ghost use Rattle.cli_syntax.specs.Gives.{GivesBy};

use crate::fault::WordsFault;
use crate::word::{Named, WordKind, kind};
use std::alloc::Global;

/// The plain words and the options, each in their order.
#[derive(Drop)]
pub struct Arguments<'a> {
    pub texts: Vec<&'a str>,
    pub options: Vec<Named<'a>>,
}

/// What stands first among words, and the words behind it.
#[derive(Clone, Copy)]
pub(crate) enum NextArgument<'a> {
    End,
    Text(&'a str, &'a [String]),
    Option(Named<'a>, &'a [String]),
    /// All these words are plain.
    Behind(&'a [String]),
    Refused,
}

// An option whose value is the next word.
fn valued<'a>(name: &'a str, words: &'a [String]) -> NextArgument<'a>
    ensures { IsValued name.now (map string_bytes words.now) result }
{
    let Some((value, rest)) = words.split_first() else {
        return NextArgument::Refused;
    };
    let value = value.as_str();
    if value == "--" {
        return NextArgument::Refused;
    }
    NextArgument::Option(Named { name, value }, rest)
}

fn first_of(words: &[String]) -> NextArgument<'_>
    ensures { ArgumentFollows (map string_bytes words.now) result }
{
    let Some((word, rest)) = words.split_first() else {
        return NextArgument::End;
    };
    let word = word.as_str();
    match kind(word) {
        WordKind::Dashes => NextArgument::Behind(rest),
        WordKind::Plain => NextArgument::Text(word, rest),
        WordKind::Joined(option) => NextArgument::Option(option, rest),
        WordKind::Apart(name) => valued(name, rest),
        WordKind::Stray => NextArgument::Refused,
    }
}

// Puts words behind the plain words.
fn put_words<'a>(texts: &mut Vec<&'a str>, words: &'a [String]) -> Result<(), WordsFault>
    ensures ok { OnOk result (map (λ text. text.now) texts.new.items
        ≡ map (λ text. text.now) texts.old.items ++ map string_bytes words.now) }
    ensures err { IfErr result (λ fault. fault ≡ WordsFault.NoMemory) }
{
    for word in words {
        texts.push(word.as_str())?;
    }
    Ok(())
}

/// The plain words and options of all words behind a command.
pub fn read_arguments(alloc: Global, words: &[String]) -> Result<Arguments<'_>, WordsFault>
    ensures { GivesBy sorted result (read (map string_bytes words.now)) }
{
    let mut texts = Vec::new(alloc);
    let mut options = Vec::new(alloc);
    let mut rest = words;
    loop {
        match first_of(rest) {
            NextArgument::End => break,
            NextArgument::Text(text, behind) => {
                texts.push(text)?;
                rest = behind;
            }
            NextArgument::Option(option, behind) => {
                options.push(option)?;
                rest = behind;
            }
            NextArgument::Behind(words) => {
                put_words(&mut texts, words)?;
                break;
            }
            NextArgument::Refused => return Err(WordsFault::Words),
        }
    }
    Ok(Arguments { texts, options })
}
