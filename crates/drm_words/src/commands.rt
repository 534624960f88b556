//! The commands: the plain words and options of each.

ghost use Rattle.std.specs.Prelude.{◌≡◌, IfOk, map};
ghost use Rattle.cli_syntax.specs.Arguing.{option_said};
ghost use Rattle.drm_words.specs.Asking.{is_bare, bare_of, request_of};
ghost use Rattle.cli_syntax.specs.Gives.{ParserGives};
ghost use Rattle.drm_words.specs.Table.{HasTextNames};

use crate::packets::{messages, pack, unpack};
use crate::receiving::{convert, count, gate, receive};
use crate::request::Request;
use crate::sending::{agree, air, capacity, check, exercise, serve};
use cli_syntax::{Named, WordsFault};
use std::alloc::Global;

// Nothing stands behind the command.
fn is_bare(texts: &[&str], options: &[Named<'_>]) -> bool
    ensures { result ≡ is_bare (map (λ text. text.now) texts.now) (map option_said options.now) }
{
    texts.is_empty() && options.is_empty()
}

fn bare(request: Request, texts: &[&str], options: &[Named<'_>]) -> Result<Request, WordsFault>
    requires { HasTextNames request }
    ensures gives { ParserGives result (bare_of request (map (λ text. text.now) texts.now) (map option_said options.now)) }
    ensures text { IfOk result HasTextNames }
{
    if is_bare(texts, options) {
        Ok(request)
    } else {
        Err(WordsFault::Words)
    }
}

/// The request of a command with these plain words and options.
#[tactic(auto, unfolding(crate::specs::Asking::request_of))]
pub(crate) fn request(
    alloc: Global,
    command: &str,
    texts: &[&str],
    options: &[Named<'_>],
) -> Result<Request, WordsFault>
    ensures gives { ParserGives result (request_of command.now (map (λ text. text.now) texts.now)
        (map option_said options.now)) }
    ensures text { IfOk result HasTextNames }
{
    match command {
        "fac" => bare(Request::Fac, texts, options),
        "check" => check(alloc, texts, options),
        "capacity" => capacity(alloc, texts, options),
        "agree" => agree(alloc, texts, options),
        "serve" => serve(alloc, texts, options),
        "receive" => receive(alloc, texts, options),
        "count" => count(texts, options),
        "air" => air(alloc, texts, options),
        "show" => bare(Request::Show, texts, options),
        "convert" => convert(texts, options),
        "exercise" => exercise(texts, options),
        "gate" => gate(alloc, texts, options),
        "pack" => pack(texts, options),
        "unpack" => unpack(texts, options),
        "texts" => messages(texts, options),
        _ => Err(WordsFault::Words),
    }
}
