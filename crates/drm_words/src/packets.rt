//! The commands of packets and of text messages.

ghost use Rattle.std.specs.Prelude.{◌≡◌, IfOk, IfSome, map};
ghost use Rattle.cli_syntax.specs.Arguing.{option_said};
ghost use Rattle.drm_words.specs.Asking.{pack_with, pack_of, unpack_with, unpack_of, texts_with, texts_of};
ghost use Rattle.cli_syntax.specs.Gives.{ParserGives};
ghost use Rattle.drm_words.specs.Table.{HasTextNames};

use crate::asked::asked;
use crate::options::{are_of, are_of_stretch, packets_of};
use crate::request::Request;
use cli_syntax::{Named, WordsFault, within};

fn pack_with(pid: &str, length: &str) -> Option<Request>
    ensures value { result ≡ pack_with pid.now length.now }
    ensures text { IfSome result HasTextNames }
{
    let pid = within(pid, 0, 3)? as u8;
    let length = within(length, 1, 255)? as u8;
    Some(Request::Pack { pid, length })
}

// pack PID LENGTH
#[tactic(auto, unfolding(crate::specs::Asking::pack_of))]
pub(crate) fn pack(texts: &[&str], options: &[Named<'_>]) -> Result<Request, WordsFault>
    ensures gives { ParserGives result (pack_of (map (λ text. text.now) texts.now) (map option_said options.now)) }
    ensures text { IfOk result HasTextNames }
{
    let [pid, length] = texts else {
        return Err(WordsFault::Words);
    };
    if !are_of(&[], options) {
        return Err(WordsFault::Words);
    }
    asked(pack_with(pid, length))
}

fn unpack_with(stream: &str, pid: &str, length: &str, options: &[Named<'_>]) -> Option<Request>
    ensures value { result ≡ unpack_with stream.now pid.now length.now (map option_said options.now) }
    ensures text { IfSome result HasTextNames }
{
    let stream = within(stream, 0, 3)? as u8;
    let pid = within(pid, 0, 3)? as u8;
    let length = within(length, 1, 255)? as u8;
    let packets = packets_of(options)?;
    Some(Request::Unpack {
        stream,
        pid,
        length,
        window: packets.window,
        reach: packets.reach,
        first: packets.first,
        frames: packets.frames,
    })
}

// unpack STREAM PID LENGTH [--window W] [--reach A] [--first N] [--frames N]
#[tactic(auto, unfolding(crate::specs::Asking::unpack_of))]
pub(crate) fn unpack(texts: &[&str], options: &[Named<'_>]) -> Result<Request, WordsFault>
    ensures gives { ParserGives result (unpack_of (map (λ text. text.now) texts.now) (map option_said options.now)) }
    ensures text { IfOk result HasTextNames }
{
    let [stream, pid, length] = texts else {
        return Err(WordsFault::Words);
    };
    if !are_of_stretch(options) {
        return Err(WordsFault::Words);
    }
    asked(unpack_with(stream, pid, length, options))
}

fn texts_with(stream: &str, options: &[Named<'_>]) -> Option<Request>
    ensures value { result ≡ texts_with stream.now (map option_said options.now) }
    ensures text { IfSome result HasTextNames }
{
    let stream = within(stream, 0, 3)? as u8;
    let packets = packets_of(options)?;
    Some(Request::Texts {
        stream,
        window: packets.window,
        reach: packets.reach,
        first: packets.first,
        frames: packets.frames,
    })
}

// texts STREAM [--window W] [--reach A] [--first N] [--frames N]
#[tactic(auto, unfolding(crate::specs::Asking::texts_of))]
pub(crate) fn messages(texts: &[&str], options: &[Named<'_>]) -> Result<Request, WordsFault>
    ensures gives { ParserGives result (texts_of (map (λ text. text.now) texts.now) (map option_said options.now)) }
    ensures text { IfOk result HasTextNames }
{
    let [stream] = texts else {
        return Err(WordsFault::Words);
    };
    if !are_of_stretch(options) {
        return Err(WordsFault::Words);
    }
    asked(texts_with(stream, options))
}
