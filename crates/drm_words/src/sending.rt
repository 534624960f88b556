//! The commands that read a schedule.

ghost use Rattle.std.specs.Prelude.{◌≡◌, IfOk, IfSome, IsUtf8, map};
ghost use Rattle.cli_syntax.specs.Arguing.{option_said};
ghost use Rattle.drm_words.specs.Asking.{check_of, capacity_of, agree_of, serve_with, serve_of, air_with, air_of, exercise_with, exercise_of};
ghost use Rattle.cli_syntax.specs.Gives.{ParserGives};
ghost use Rattle.drm_words.specs.Table.{HasTextNames};

use crate::asked::{asked, octets};
use crate::options::{are_of, from, live, pace, to, until, window};
use crate::request::Request;
use cli_syntax::{Named, WordsFault, within};
use drm_bits::Octets;
use drm_links::Addresses;
use drm_schedule::Live;
use std::alloc::Global;

// check NAME
#[tactic(auto, unfolding(crate::specs::Asking::check_of))]
pub(crate) fn check(
    alloc: Global,
    texts: &[&str],
    options: &[Named<'_>],
) -> Result<Request, WordsFault>
    ensures gives { ParserGives result (check_of (map (λ text. text.now) texts.now) (map option_said options.now)) }
    ensures text { IfOk result HasTextNames }
{
    let [name] = texts else {
        return Err(WordsFault::Words);
    };
    if !are_of(&[], options) {
        return Err(WordsFault::Words);
    }
    let name = octets(alloc, name)?;
    Ok(Request::Check { name })
}

// capacity NAME
#[tactic(auto, unfolding(crate::specs::Asking::capacity_of))]
pub(crate) fn capacity(
    alloc: Global,
    texts: &[&str],
    options: &[Named<'_>],
) -> Result<Request, WordsFault>
    ensures gives { ParserGives result (capacity_of (map (λ text. text.now) texts.now) (map option_said options.now)) }
    ensures text { IfOk result HasTextNames }
{
    let [name] = texts else {
        return Err(WordsFault::Words);
    };
    if !are_of(&[], options) {
        return Err(WordsFault::Words);
    }
    let name = octets(alloc, name)?;
    Ok(Request::Capacity { name })
}

// agree NAME OTHER
#[tactic(auto, unfolding(crate::specs::Asking::agree_of))]
pub(crate) fn agree(
    alloc: Global,
    texts: &[&str],
    options: &[Named<'_>],
) -> Result<Request, WordsFault>
    ensures gives { ParserGives result (agree_of (map (λ text. text.now) texts.now) (map option_said options.now)) }
    ensures text { IfOk result HasTextNames }
{
    let [name, other] = texts else {
        return Err(WordsFault::Words);
    };
    if !are_of(&[], options) {
        return Err(WordsFault::Words);
    }
    let name = octets(alloc, name)?;
    let other = octets(alloc, other)?;
    Ok(Request::Agree { name, other })
}

fn serve_with(name: Octets, to: Addresses, live: Live, options: &[Named<'_>]) -> Option<Request>
    requires { IsUtf8 name }
    ensures value { result ≡ serve_with name to live (map option_said options.now) }
    ensures text { IfSome result HasTextNames }
{
    let pace = pace(options)?;
    let from = from(options)?;
    let until = until(options)?;
    Some(Request::Serve {
        name,
        to,
        pace,
        from,
        until,
        live,
    })
}

// serve NAME [--to ADDRS] [--pace MS] [--from N] [--until M] [--live LIST]
#[tactic(auto, unfolding(crate::specs::Asking::serve_of))]
pub(crate) fn serve(
    alloc: Global,
    texts: &[&str],
    options: &[Named<'_>],
) -> Result<Request, WordsFault>
    ensures gives { ParserGives result (serve_of (map (λ text. text.now) texts.now) (map option_said options.now)) }
    ensures text { IfOk result HasTextNames }
{
    let [name] = texts else {
        return Err(WordsFault::Words);
    };
    if !are_of(&["to", "pace", "from", "until", "live"], options) {
        return Err(WordsFault::Words);
    }
    let name = octets(alloc, name)?;
    let to = to(alloc, options)?;
    let live = live(alloc, options)?;
    asked(serve_with(name, to, live, options))
}

fn air_with(name: Octets, script: Octets, options: &[Named<'_>]) -> Option<Request>
    requires name { IsUtf8 name }
    requires script { IsUtf8 script }
    ensures value { result ≡ air_with name script (map option_said options.now) }
    ensures text { IfSome result HasTextNames }
{
    let window = window(options)?;
    Some(Request::Air {
        name,
        script,
        window,
    })
}

// air NAME SCRIPT [--window W]
#[tactic(auto, unfolding(crate::specs::Asking::air_of))]
pub(crate) fn air(
    alloc: Global,
    texts: &[&str],
    options: &[Named<'_>],
) -> Result<Request, WordsFault>
    ensures gives { ParserGives result (air_of (map (λ text. text.now) texts.now) (map option_said options.now)) }
    ensures text { IfOk result HasTextNames }
{
    let [name, script] = texts else {
        return Err(WordsFault::Words);
    };
    if !are_of(&["window"], options) {
        return Err(WordsFault::Words);
    }
    let name = octets(alloc, name)?;
    let script = octets(alloc, script)?;
    asked(air_with(name, script, options))
}

fn exercise_with(text: &str) -> Option<Request>
    ensures value { result ≡ exercise_with text.now }
    ensures text { IfSome result HasTextNames }
{
    let n = within(text, 1, 1000)?;
    Some(Request::Exercise { n: n as u32 })
}

// exercise N
#[tactic(auto, unfolding(crate::specs::Asking::exercise_of))]
pub(crate) fn exercise(texts: &[&str], options: &[Named<'_>]) -> Result<Request, WordsFault>
    ensures gives { ParserGives result (exercise_of (map (λ text. text.now) texts.now) (map option_said options.now)) }
    ensures text { IfOk result HasTextNames }
{
    let [text] = texts else {
        return Err(WordsFault::Words);
    };
    if !are_of(&[], options) {
        return Err(WordsFault::Words);
    }
    asked(exercise_with(text))
}
