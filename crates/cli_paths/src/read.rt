//! The request of words.

ghost use Rattle.std.specs.Prelude.{◌≡◌, ◌⊎◌, Err, IfOk, map, string_bytes};
ghost use Rattle.cli_paths.specs.Line.{IsPathsLine, HasOnePathsRequest};
ghost use Rattle.cli_paths.specs.Asking.{line_of, several_of, number_or, number_or_none, request_of};
ghost use Rattle.cli_paths.specs.Said.{texts_said};
ghost use Rattle.cli_syntax.specs.Gives.{ParserGives};
ghost use Rattle.cli_syntax.specs.declared.fault.WordsFault.TheVariants as faults;
ghost use Rattle.cli_paths.specs.declared.request.PathsRequest.{PathsRequest};

use crate::numbers::{number_or, number_or_none};
use crate::request::PathsRequest;
use crate::texts::{Texts, read_texts};
use cli_syntax::{WordsFault, read_addresses};
use drm_links::Addresses;
use drm_schedule::MOST_FRAMES;
use std::alloc::Global;

/// The fewest paths of a run.
const FEWEST_PATHS: usize = 2;
/// The most paths of a run.
const MOST_PATHS: usize = 4;

// Two to four addresses that a text spells, joined by commas.
fn several(alloc: Global, text: &str) -> Result<Addresses, WordsFault>
    ensures { ParserGives result (several_of text.now) }
{
    let addresses = read_addresses(alloc, text)?;
    if addresses.len() < FEWEST_PATHS || MOST_PATHS < addresses.len() {
        return Err(WordsFault::Words);
    }
    Ok(addresses)
}

// The request of the texts.
#[tactic(auto, unfolding(crate::specs::Asking::request_of))]
fn request(alloc: Global, texts: Texts<'_>) -> Result<PathsRequest, WordsFault>
    ensures { ParserGives result (request_of (texts_said texts.entry)) }
{
    let addresses = several(alloc, texts.addresses)?;
    let Some(window) = number_or(8, 1, 64, texts.window) else {
        return Err(WordsFault::Words);
    };
    let Some(reach) = number_or(32_767, 1, 32_767, texts.reach) else {
        return Err(WordsFault::Words);
    };
    let Some(first) = number_or_none(0, 65_535, texts.first) else {
        return Err(WordsFault::Words);
    };
    let Some(frames) = number_or_none(1, MOST_FRAMES, texts.frames) else {
        return Err(WordsFault::Words);
    };
    let Some(idle) = number_or(50, 1, 1_000_000, texts.idle) else {
        return Err(WordsFault::Words);
    };
    let Some(limit) = number_or(1_000_000, 1, 1_000_000, texts.limit) else {
        return Err(WordsFault::Words);
    };
    Ok(PathsRequest {
        addresses,
        window: window as u8,
        reach: reach as u16,
        first: first.map(|n| n as u16),
        frames,
        idle: idle as u32,
        limit: limit as u32,
    })
}

fn read_line(alloc: Global, words: &[String]) -> Result<PathsRequest, WordsFault>
    ensures { ParserGives result (line_of (map string_bytes words.now)) }
{
    let texts = read_texts(alloc, words)?;
    request(alloc, texts)
}

/// The request of the words that stand behind the program's name.
pub fn read_paths(alloc: Global, words: &[String]) -> Result<PathsRequest, WordsFault>
    // A request is answered only where it fits the words.
    ensures found { IfOk result (λ request. IsPathsLine (map string_bytes words.now) request) }
    // Words that some request fits are never refused: unless memory runs out, that request is the answer.
    ensures only { (request : PathsRequest) → IsPathsLine (map string_bytes words.now) request
        → (result ≡ Ok request) ⊎ (result ≡ Err faults.NoMemory) }
    // Words are refused as such only where no request fits them, ..
    ensures refused { result ≡ Err faults.Words
        → (request : PathsRequest) → IsPathsLine (map string_bytes words.now) request → ⊥ }
    // .. and where none does they are, unless memory runs out.
    ensures exact { ((request : PathsRequest) → IsPathsLine (map string_bytes words.now) request → ⊥)
        → (result ≡ Err faults.Words) ⊎ (result ≡ Err faults.NoMemory) }
{
    read_line(alloc, words)
}

/// At most one request fits the words.
pub fn one_request()
    ensures { HasOnePathsRequest }
{}
