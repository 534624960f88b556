//! The texts of a command line, as `clap` gives them.

ghost use Rattle.std.specs.Prelude.{◌≡◌, ◌≢◌, ◌↔◌, map, string_bytes};
ghost use Rattle.clap.specs.Values.{kind_of};
ghost use Rattle.cli_paths.specs.CommandTexts.{parse_of};
ghost use Rattle.cli_syntax.specs.Gives.{GivesBy};
ghost use Rattle.cli_paths.specs.Said.{texts_said};

use crate::command::command;
use clap::Error;
use clap::error::ErrorKind;
use cli_syntax::WordsFault;
use std::alloc::Global;

/// The texts of a command line.
#[derive(Clone, Copy)]
pub(crate) struct Texts<'a> {
    pub(crate) addresses: &'a str,
    pub(crate) window: Option<&'a str>,
    pub(crate) reach: Option<&'a str>,
    pub(crate) first: Option<&'a str>,
    pub(crate) frames: Option<&'a str>,
    pub(crate) idle: Option<&'a str>,
    pub(crate) limit: Option<&'a str>,
}

// What a refusal of the parse means.
fn refusal(error: &Error) -> WordsFault
    ensures { (result ≡ WordsFault.Words) ↔ (kind_of error.now ≢ ErrorKind.OutOfMemory) }
{
    match error.kind() {
        ErrorKind::OutOfMemory => WordsFault::NoMemory,
        _ => WordsFault::Words,
    }
}

/// The texts of a command line.
pub(crate) fn read_texts<'a>(alloc: Global, words: &'a [String]) -> Result<Texts<'a>, WordsFault>
    ensures { GivesBy texts_said result (parse_of (map string_bytes words.now)) }
{
    let command = command(alloc)?;
    match command.try_get_matches_from(words) {
        Err(error) => Err(refusal(&error)),
        Ok(matches) => {
            let Some(addresses) = matches.get_str("addresses") else {
                return Err(WordsFault::Words);
            };
            let window = matches.get_str("window");
            let reach = matches.get_str("reach");
            let first = matches.get_str("first");
            let frames = matches.get_str("frames");
            let idle = matches.get_str("idle");
            let limit = matches.get_str("limit");
            Ok(Texts {
                addresses,
                window,
                reach,
                first,
                frames,
                idle,
                limit,
            })
        }
    }
}
