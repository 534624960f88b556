//! The pieces of text messages. The check values are from Python.

ghost use Rattle.std.specs.Prelude.{◌≤◌, length};

use crate::wrong::has_none;
use drm_text::{TextJoiner, text_piece};

// The pieces of a message.
const HI: &[[u8; 4]] = &[[0xff; 4], *b"a\0Hi", *b"-\xb3\0\0"];

// With the other toggle, in two segments.
const LONGER: &[[u8; 4]] = &[
    [0xff; 4],
    *b"\xcf\0Ra",
    *b"dio ",
    *b"Nord",
    *b" 12 ",
    *b"Uh\x87\x14",
    [0xff; 4],
    *b"\xa0\x10r\xd3",
    *b"Y\0\0\0",
];

// Whether it is this piece of the message.
fn is_piece(message: &str, toggle: bool, k: usize, piece: [u8; 4]) -> bool
    requires at_least_one { 1 ≤ length message.now }
    requires within_limit { length message.now ≤ 128 }
{
    text_piece(message, toggle, k) == Some(piece)
}

#[test]
fn cuts_messages(rt: HostRuntime) {
    for (k, piece) in HI.iter().enumerate() {
        assert!(rt; is_piece("Hi", false, k, *piece), "piece {k}");
    }
    assert!(rt; text_piece("Hi", false, 3).is_none());
    for (k, piece) in LONGER.iter().enumerate() {
        assert!(rt; is_piece("Radio Nord 12 Uhr", true, k, *piece), "piece {k}");
    }
    assert!(rt; text_piece("Radio Nord 12 Uhr", true, 9).is_none());
}

/// A call of a joiner, and what it answers.
#[derive(Clone, Copy)]
enum JoinerCall<'a> {
    Nothing([u8; 4]),
    Gives([u8; 4], &'a str),
    Gap,
}

// The pieces of `Hi`.
const START: [u8; 4] = [0xff; 4];

const HEAD: [u8; 4] = *b"a\0Hi";

const END: [u8; 4] = *b"-\xb3\0\0";

const WHOLE: &[JoinerCall<'static>] = &[
    JoinerCall::Nothing(START),
    JoinerCall::Nothing(HEAD),
    JoinerCall::Gives(END, "Hi"),
    JoinerCall::Nothing(START),
    JoinerCall::Nothing(*b"\xcf\0Ra"),
    JoinerCall::Nothing(*b"dio "),
    JoinerCall::Nothing(*b"Nord"),
    JoinerCall::Nothing(*b" 12 "),
    JoinerCall::Nothing(*b"Uh\x87\x14"),
    JoinerCall::Nothing(START),
    JoinerCall::Nothing(*b"\xa0\x10r\xd3"),
    JoinerCall::Gives(*b"Y\0\0\0", "Radio Nord 12 Uhr"),
];

// A gap, another start and a piece of none break off what was begun.
const BROKEN: &[JoinerCall<'static>] = &[
    JoinerCall::Nothing(START),
    JoinerCall::Nothing(HEAD),
    JoinerCall::Gap,
    JoinerCall::Nothing(END),
    JoinerCall::Nothing(START),
    JoinerCall::Nothing(HEAD),
    JoinerCall::Nothing(START),
    JoinerCall::Nothing(END),
    JoinerCall::Nothing(HEAD),
    JoinerCall::Nothing(START),
    JoinerCall::Nothing(HEAD),
    JoinerCall::Gives(END, "Hi"),
];

// Whether the call answers so.
fn answers(joiner: &mut TextJoiner, step: &JoinerCall<'_>) -> bool {
    match step {
        JoinerCall::Nothing(piece) => joiner.piece(*piece).is_none(),
        JoinerCall::Gives(piece, message) => joiner.piece(*piece) == Some(*message),
        JoinerCall::Gap => {
            joiner.gap();
            true
        }
    }
}

// The first call that answers otherwise, if one does.
fn wrong_step(steps: &[JoinerCall<'_>]) -> Option<usize> {
    let mut joiner = TextJoiner::new();
    for (k, step) in steps.iter().enumerate() {
        if !answers(&mut joiner, step) {
            return Some(k);
        }
    }
    None
}

#[test]
fn joins_pieces(rt: HostRuntime) {
    has_none(&rt, wrong_step(WHOLE));
    has_none(&rt, wrong_step(BROKEN));
}
