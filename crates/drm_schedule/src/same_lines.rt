//! Whether the audio lines and the app lines of a block are those of the first one.

ghost use Rattle.std.specs.Prelude.{◌≡◌, ◌<◌, ◌++◌, ◌∷◌, [], bytes_eq, false, true, length, IfSome, MatchOption};
ghost use Rattle.drm_schedule.specs.declared.announcement.Repeated.TheVariants as repeated;
ghost use Rattle.drm_schedule.specs.SameLines as same;
ghost use Rattle.drm_schedule.specs.SameLines.{is_of, numbers_of, those_of, say_the_same};

use crate::announcement::Repeated;
use crate::{AppMode, Body, Config, Entity, Timed};

// What an audio entity says: numbers, and its config bytes.
fn audio_numbers(body: &Body) -> Option<([u8; 10], &[u8])>
    ensures said { MatchOption result (is_of repeated.Audio body.now ≡ false) (λ r. numbers_of body.now ≡ r.0 ++ r.1.now) }
    ensures count { IfSome result (λ r. length r.0 ≡ 10) }
{
    match body {
        Body::Audio {
            short,
            stream,
            coding,
            sbr,
            mode,
            rate,
            text,
            enhancement,
            coder,
            spare,
            config,
        } => Some((
            [
                *short,
                *stream,
                *coding,
                u8::from(*sbr),
                *mode,
                *rate,
                u8::from(*text),
                u8::from(*enhancement),
                *coder,
                u8::from(*spare),
            ],
            config.as_slice(),
        )),
        _ => None,
    }
}

fn mode_numbers(mode: AppMode) -> [u8; 4]
    ensures { result ≡ same.mode_numbers mode }
{
    match mode {
        AppMode::Sync { spare } => [0, spare, 0, 0],
        AppMode::Packet { unit, pid, length } => [1, u8::from(unit), pid, length],
    }
}

// What an app entity says: numbers, and its bytes.
fn app_numbers(body: &Body) -> Option<([u8; 8], &[u8])>
    ensures said { MatchOption result (is_of repeated.App body.now ≡ false) (λ r. numbers_of body.now ≡ r.0 ++ r.1.now) }
    ensures count { IfSome result (λ r. length r.0 ≡ 8) }
{
    match body {
        Body::App {
            short,
            stream,
            packet,
            enhancement,
            domain,
            bytes,
        } => {
            let [kind, first, second, third] = mode_numbers(*packet);
            Some((
                [
                    *short,
                    *stream,
                    kind,
                    first,
                    second,
                    third,
                    u8::from(*enhancement),
                    *domain,
                ],
                bytes.as_slice(),
            ))
        }
        _ => None,
    }
}

fn same_audio(first: &Body, second: &Body) -> bool
    requires first { is_of repeated.Audio first.now ≡ true }
    requires second { is_of repeated.Audio second.now ≡ true }
    ensures { result ≡ bytes_eq (numbers_of first.now) (numbers_of second.now) }
{
    let Some(one) = audio_numbers(first) else {
        return false;
    };
    let Some(other) = audio_numbers(second) else {
        return false;
    };
    let numbers = one.0;
    let others = other.0;
    numbers == others && one.1 == other.1
}

fn same_app(first: &Body, second: &Body) -> bool
    requires first { is_of repeated.App first.now ≡ true }
    requires second { is_of repeated.App second.now ≡ true }
    ensures { result ≡ bytes_eq (numbers_of first.now) (numbers_of second.now) }
{
    let Some(one) = app_numbers(first) else {
        return false;
    };
    let Some(other) = app_numbers(second) else {
        return false;
    };
    let numbers = one.0;
    let others = other.0;
    numbers == others && one.1 == other.1
}

// Whether two entities of a kind say the same.
fn say_one_thing(repeated: Repeated, first: &Entity, second: &Entity) -> bool
    requires first { is_of repeated first.now.body ≡ true }
    requires second { is_of repeated second.now.body ≡ true }
    ensures { result ≡ say_the_same first.now second.now }
{
    match repeated {
        Repeated::Audio => same_audio(&first.body, &second.body),
        Repeated::App => same_app(&first.body, &second.body),
    }
}

// The first entity of a kind, and all those behind it.
fn next_of(repeated: Repeated, entities: &[Entity]) -> Option<(&Entity, &[Entity])>
    ensures first { MatchOption result (those_of repeated entities.now ≡ []) (λ r. those_of repeated entities.now ≡ r.0.now ∷ those_of repeated r.1.now) }
    ensures kind { IfSome result (λ r. is_of repeated r.0.now.body ≡ true) }
    ensures fewer { IfSome result (λ r. length r.1.now < length entities.now) }
{
    let mut left = entities;
    while let [entity, more @ ..] = left {
        if repeated.is_of(&entity.body) {
            return Some((entity, more));
        }
        left = more;
    }
    None
}

// Whether the lines of a kind aren't, in their order, those of another list.
fn differ(repeated: Repeated, first: &[Entity], other: &[Entity]) -> bool
    ensures { result ≡ same.differ repeated first.now other.now }
{
    let mut left = first;
    let mut others = other;
    while let Some((entity, more)) = next_of(repeated, left) {
        let Some((second, rest)) = next_of(repeated, others) else {
            return true;
        };
        if !say_one_thing(repeated, entity, second) {
            return true;
        }
        left = more;
        others = rest;
    }
    next_of(repeated, others).is_some()
}

/// Whether the audio lines, or the app lines, of a block aren't those of the first one.
pub fn tells_others(config: &Config, block: &Timed) -> bool
    ensures { result ≡ same.tells_others config.now block.now }
{
    let first = config.first_entities();
    let entities = block.entities.as_slice();
    differ(Repeated::Audio, first, entities) || differ(Repeated::App, first, entities)
}
