//! Options and what they tell: each with its range, and its default where it has one.

ghost use Rattle.std.specs.Prelude.{◌≡◌, ◌≤◌, IfSome, map, option_map, codes};
ghost use Rattle.cli_syntax.specs.Arguing.{option_said};
ghost use Rattle.cli_syntax.specs.Gives.{ParserGives};
ghost use Rattle.drm_words.specs.Table.{value_of, packet_names, reading_names};
ghost use Rattle.drm_words.specs.Asking.{is_one_of, are_of, number_or, number_or_none, window_of, reach_of, first_of, frames_of, packets_of, reading_of, idle_of, limit_of, pace_of, from_of, until_of, to_of, live_option};

use cli_syntax::{Named, WordsFault, read_addresses, read_live, within};
use drm_links::Addresses;
use drm_schedule::{Live, MOST_FRAMES};
use std::alloc::Global;

/// Which packets are read, and how many frames of them.
#[derive(Clone, Copy)]
pub(crate) struct PacketOptions {
    /// In packets.
    pub(crate) window: u8,
    /// How far one may be ahead of the newest packet.
    pub(crate) reach: u16,
    /// The first sequence number.
    pub(crate) first: Option<u16>,
    pub(crate) frames: Option<u64>,
}

/// A stretch, and when a link has brought enough of it.
#[derive(Clone, Copy)]
pub(crate) struct ReadingOptions {
    pub(crate) packets: PacketOptions,
    /// How many idle answers in a row end a report.
    pub(crate) idle: u32,
    /// The most datagrams.
    pub(crate) limit: u32,
}

// The value of an option, where it is told.
fn value_of<'a>(options: &[Named<'a>], name: &str) -> Option<&'a str>
    ensures { option_map (λ value. value.now) result ≡ value_of name.now (map option_said options.now) }
{
    for option in options {
        if option.name == name {
            return Some(option.value);
        }
    }
    None
}

fn is_one_of(names: &[&str], name: &str) -> bool
    ensures { result ≡ is_one_of (map (λ known. known.now) names.now) name.now }
{
    for known in names {
        if name == *known {
            return true;
        }
    }
    false
}

/// Whether each option has one of these names, and no name comes twice.
#[tactic(auto, unfolding(crate::specs::Asking::are_of))]
pub(crate) fn are_of(names: &[&str], options: &[Named<'_>]) -> bool
    ensures { result ≡ are_of (map (λ known. known.now) names.now) (map option_said options.now) }
{
    let Some((option, others)) = options.split_first() else {
        return true;
    };
    is_one_of(names, option.name)
        && value_of(others, option.name).is_none()
        && are_of(names, others)
}

/// Whether these are options of a stretch, none twice.
pub(crate) fn are_of_stretch(options: &[Named<'_>]) -> bool
    ensures { result ≡ are_of packet_names (map option_said options.now) }
{
    are_of(&["window", "reach", "first", "frames"], options)
}

/// Whether these are options of a reading, none twice.
pub(crate) fn are_of_reading(options: &[Named<'_>]) -> bool
    ensures { result ≡ are_of reading_names (map option_said options.now) }
{
    are_of(
        &["window", "reach", "first", "frames", "idle", "limit"],
        options,
    )
}

fn number_or(default: u64, least: u64, greatest: u64, value: Option<&str>) -> Option<u64>
    requires { default ≤ greatest }
    ensures value { result ≡ number_or default least greatest (option_map (λ text. text.now) value.entry) }
    ensures bound { IfSome result (λ n. n ≤ greatest) }
{
    match value {
        Some(text) => within(text, least, greatest),
        None => Some(default),
    }
}

/// The packets of a window.
#[tactic(auto, unfolding(crate::specs::Asking::window_of))]
pub(crate) fn window(options: &[Named<'_>]) -> Option<u8>
    ensures { result ≡ window_of (map option_said options.now) }
{
    let number = number_or(8, 1, 64, value_of(options, "window"))?;
    Some(number as u8)
}

// How far a packet may be ahead of the newest one.
#[tactic(auto, unfolding(crate::specs::Asking::reach_of))]
fn reach(options: &[Named<'_>]) -> Option<u16>
    ensures { result ≡ reach_of (map option_said options.now) }
{
    let number = number_or(32_767, 1, 32_767, value_of(options, "reach"))?;
    Some(number as u16)
}

// The first sequence number.
#[tactic(auto, unfolding(crate::specs::Asking::first_of))]
fn first(options: &[Named<'_>]) -> Option<Option<u16>>
    ensures { result ≡ first_of (map option_said options.now) }
{
    let Some(text) = value_of(options, "first") else {
        return Some(None);
    };
    let number = within(text, 0, 65_535)?;
    Some(Some(number as u16))
}

// The number of frames.
#[tactic(auto, unfolding(crate::specs::Asking::frames_of))]
fn frames(options: &[Named<'_>]) -> Option<Option<u64>>
    ensures { result ≡ frames_of (map option_said options.now) }
{
    let Some(text) = value_of(options, "frames") else {
        return Some(None);
    };
    let number = within(text, 1, MOST_FRAMES)?;
    Some(Some(number))
}

// How many idle answers in a row end a report.
#[tactic(auto, unfolding(crate::specs::Asking::idle_of))]
fn idle(options: &[Named<'_>]) -> Option<u32>
    ensures { result ≡ idle_of (map option_said options.now) }
{
    let number = number_or(50, 1, 1_000_000, value_of(options, "idle"))?;
    Some(number as u32)
}

// The most datagrams.
#[tactic(auto, unfolding(crate::specs::Asking::limit_of))]
fn limit(options: &[Named<'_>]) -> Option<u32>
    ensures { result ≡ limit_of (map option_said options.now) }
{
    let number = number_or(4_294_967_295, 1, 4_294_967_295, value_of(options, "limit"))?;
    Some(number as u32)
}

/// Which packets are read, for each command that reads packets.
#[tactic(auto, unfolding(crate::specs::Asking::packets_of))]
pub(crate) fn packets_of(options: &[Named<'_>]) -> Option<PacketOptions>
    ensures { result ≡ packets_of (map option_said options.now) }
{
    let window = window(options)?;
    let reach = reach(options)?;
    let first = first(options)?;
    let frames = frames(options)?;
    Some(PacketOptions {
        window,
        reach,
        first,
        frames,
    })
}

/// The same, and when a link has brought enough.
#[tactic(auto, unfolding(crate::specs::Asking::reading_of))]
pub(crate) fn reading_of(options: &[Named<'_>]) -> Option<ReadingOptions>
    ensures { result ≡ reading_of (map option_said options.now) }
{
    let packets = packets_of(options)?;
    let idle = idle(options)?;
    let limit = limit(options)?;
    Some(ReadingOptions {
        packets,
        idle,
        limit,
    })
}

/// The milliseconds between packets.
#[tactic(auto, unfolding(crate::specs::Asking::pace_of))]
pub(crate) fn pace(options: &[Named<'_>]) -> Option<u32>
    ensures { result ≡ pace_of (map option_said options.now) }
{
    let number = number_or(0, 0, 10_000, value_of(options, "pace"))?;
    Some(number as u32)
}

/// The super frame from which on datagrams are sent or written.
#[tactic(auto, unfolding(crate::specs::Asking::from_of))]
pub(crate) fn from(options: &[Named<'_>]) -> Option<u32>
    ensures { result ≡ from_of (map option_said options.now) }
{
    let number = number_or(0, 0, 1_000_000, value_of(options, "from"))?;
    Some(number as u32)
}

/// The super frame from which on no datagrams are sent or written.
#[tactic(auto, unfolding(crate::specs::Asking::until_of))]
pub(crate) fn until(options: &[Named<'_>]) -> Option<Option<u32>>
    ensures { result ≡ until_of (map option_said options.now) }
{
    let Some(text) = value_of(options, "until") else {
        return Some(None);
    };
    let number = within(text, 0, 1_000_000)?;
    Some(Some(number as u32))
}

/// Where datagrams are sent.
#[tactic(auto, unfolding(crate::specs::Asking::to_of))]
pub(crate) fn to(alloc: Global, options: &[Named<'_>]) -> Result<Addresses, WordsFault>
    ensures { ParserGives result (to_of (map option_said options.now)) }
{
    match value_of(options, "to") {
        Some(text) => read_addresses(alloc, text),
        None => Ok(Addresses::new(alloc)),
    }
}

/// The streams that take their bytes from input.
#[tactic(auto, unfolding(crate::specs::Asking::live_option))]
pub(crate) fn live(alloc: Global, options: &[Named<'_>]) -> Result<Live, WordsFault>
    ensures { ParserGives result (live_option (map option_said options.now)) }
{
    match value_of(options, "live") {
        Some(text) => read_live(alloc, text),
        None => Ok(Live::none()),
    }
}
