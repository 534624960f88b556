//! The request of words.

ghost use Rattle.std.specs.Prelude.{◌≡◌, ◌⊎◌, Err, IfOk, map, string_bytes};
ghost use Rattle.drm_words.specs.Line.{IsLine, HasOneRequest};
ghost use Rattle.drm_words.specs.Table.{HasTextNames};
ghost use Rattle.drm_words.specs.Whole.{line_of};
ghost use Rattle.cli_syntax.specs.Gives.{ParserGives};
ghost use Rattle.cli_syntax.specs.declared.fault.WordsFault.TheVariants as faults;
ghost use Rattle.drm_words.specs.declared.request.Request.{Request};

use crate::commands::request;
use crate::request::Request;
use cli_syntax::{WordsFault, read_arguments};
use std::alloc::Global;

fn read_line(alloc: Global, words: &[String]) -> Result<Request, WordsFault>
    ensures gives { ParserGives result (line_of (map string_bytes words.now)) }
    ensures text { IfOk result HasTextNames }
{
    let Some((command, behind)) = words.split_first() else {
        return Err(WordsFault::Words);
    };
    let arguments = read_arguments(alloc, behind)?;
    request(
        alloc,
        command.as_str(),
        &arguments.texts,
        &arguments.options,
    )
}

/// The request of a command line: the words that stand behind the program's name.
/// Example: `exercise 7` asks for `Request::Exercise { n: 7 }`.
pub fn read_words(alloc: Global, words: &[String]) -> Result<Request, WordsFault>
    // A request is answered only where it fits the words.
    ensures found { IfOk result (λ request. IsLine (map string_bytes words.now) request) }
    // Words that some request fits are never refused: unless memory runs out, that request is the answer.
    ensures only { (request : Request) → IsLine (map string_bytes words.now) request
        → (result ≡ Ok request) ⊎ (result ≡ Err faults.NoMemory) }
    // Words are refused as such only where no request fits them, ..
    ensures refused { result ≡ Err faults.Words
        → (request : Request) → IsLine (map string_bytes words.now) request → ⊥ }
    // .. and where none does they are, unless memory runs out.
    ensures exact { ((request : Request) → IsLine (map string_bytes words.now) request → ⊥)
        → (result ≡ Err faults.Words) ⊎ (result ≡ Err faults.NoMemory) }
    // The names of a request are UTF-8.
    ensures text { IfOk result HasTextNames }
{
    read_line(alloc, words)
}

/// At most one request fits the words.
pub fn one_request()
    ensures { HasOneRequest }
{}
