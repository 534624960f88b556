//! What is wrong with a plan.

ghost use Rattle.std.specs.Prelude.{◌≡◌, ◌+◌, ◌-◌, ◌*◌, ◌<◌, ◌≤◌, ◌^◌, length, All, IfSome, Option, None, Some};
ghost use Rattle.std.specs.Option.{option_copied};
ghost use Rattle.drm_schedule.specs.Ranges.{InLines, ConfigInLines, StreamInLines};
ghost use Rattle.drm_schedule.specs.Announcement as announcement;
ghost use Rattle.drm_schedule.specs.Valid as valid;
ghost use Rattle.drm_schedule.specs.Services as services;
ghost use Rattle.drm_schedule.specs.Sizes.{has_no_room};
ghost use Rattle.drm_schedule.specs.Valid.{first_fault, rows, place_rows, channel_rows, carried_rows, beginning_rows, block_rows, content_rows, first_invalid_from};

use crate::announcement::can_be_announced;
use crate::service_rules::{block_disagrees, disagree};
use crate::sizes::{is_too_small, packet_len, stream_len};
use crate::{Config, Content, Invalid, Mode, Place, Plan, Reason, Stream, Timed};
use dcp_pft::most_packet;

fn starts_wrongly(length: u32, before: Option<&Config>, config: &Config) -> bool
    ensures { result ≡ valid.starts_wrongly length (option_copied before.entry) config.now }
{
    match before {
        None => config.start != 0,
        Some(before) => config.start <= before.start || length <= config.start,
    }
}

fn counts_wrongly(before: Option<&Config>, config: &Config) -> bool
    requires { IfSome (option_copied before) ConfigInLines }
    ensures { result ≡ valid.counts_wrongly (option_copied before.entry) config.now }
{
    match before {
        None => config.countdown != 0,
        Some(before) => {
            config.countdown == 0 || config.start < before.start + u32::from(config.countdown)
        }
    }
}

fn begins_wrongly(config: &Config, end: u32, before: Option<&Timed>, block: &Timed) -> bool
    requires config { config.now.start < 2 ^ 20 }
    requires block { block.now.from < 2 ^ 20 }
    ensures { result ≡ valid.begins_wrongly config.now end (option_copied before.entry) block.now }
{
    match before {
        None => block.from != 0,
        Some(before) => block.from <= before.from || end <= config.start + block.from,
    }
}

// The first block that begins wrongly.
fn beginning_fault(k: usize, config: &Config, end: u32) -> Option<Invalid>
    requires { ConfigInLines config.now }
    ensures { result ≡ first_fault (beginning_rows k 0 config.now end None config.now.blocks) }
{
    let mut j = 0;
    let mut before = None;
    let mut left = config.blocks.as_slice();
    while let [block, more @ ..] = left {
        if begins_wrongly(config, end, before, block) {
            return fault(k, Place::Block(j), Reason::Block);
        }
        j += 1;
        before = Some(block);
        left = more;
    }
    None
}

// The first block whose lines disagree with the rest.
fn disagreeing_fault(k: usize, config: &Config) -> Option<Invalid>
    requires { ConfigInLines config.now }
    ensures { result ≡ first_fault (block_rows k 0 (services.block_disagrees config.now) Reason.Services config.now.blocks) }
{
    let mut j = 0;
    let mut left = config.blocks.as_slice();
    while let [block, more @ ..] = left {
        if block_disagrees(config, block) {
            return fault(k, Place::Block(j), Reason::Services);
        }
        j += 1;
        left = more;
    }
    None
}

// The first block that has no room.
fn room_fault(k: usize, config: &Config) -> Option<Invalid>
    requires { ConfigInLines config.now }
    ensures { result ≡ first_fault (block_rows k 0 (has_no_room config.now) Reason.Fit config.now.blocks) }
{
    let mut j = 0;
    let mut left = config.blocks.as_slice();
    while let [block, more @ ..] = left {
        if is_too_small(config, block) {
            return fault(k, Place::Block(j), Reason::Fit);
        }
        j += 1;
        left = more;
    }
    None
}

fn has_no_such_occupancy(config: &Config) -> bool
    ensures { result ≡ valid.has_no_such_occupancy config.now }
{
    match config.mode {
        Mode::A | Mode::B => false,
        Mode::C | Mode::D => config.occupancy != 3 && config.occupancy != 5,
    }
}

fn is_hierarchical(config: &Config) -> bool
    ensures { result ≡ valid.is_hierarchical config.now }
{
    config.msc == 1 || config.msc == 2
}

fn lacks_announcement(before: Option<&Config>, config: &Config) -> bool
    requires before { IfSome (option_copied before) ConfigInLines }
    requires config { ConfigInLines config.now }
    ensures { result ≡ announcement.lacks_announcement (option_copied before.entry) config.now }
{
    match before {
        None => false,
        Some(before) => !can_be_announced(before, config),
    }
}

fn is_short(frames: u64, stream: &Stream) -> bool
    requires { frames < 2 ^ 34 }
    ensures { result ≡ valid.is_short frames stream.now }
{
    match &stream.content {
        Content::Fill(_) => false,
        Content::File { bytes, .. } => {
            (bytes.as_slice().len() as u64) < u64::from(stream_len(stream)) * frames
        }
    }
}

// The first stream whose file is too short.
fn content_fault(config: usize, frames: u64, streams: &[Stream]) -> Option<Invalid>
    requires { frames < 2 ^ 34 }
    ensures { result ≡ first_fault (content_rows config 0 frames streams.now) }
{
    let mut j = 0;
    let mut left = streams;
    while let [stream, more @ ..] = left {
        if is_short(frames, stream) {
            let place = Place::Stream(j);
            let reason = Reason::ContentShort;
            return Some(Invalid {
                config,
                place,
                reason,
            });
        }
        j += 1;
        left = more;
    }
    None
}

fn fault(config: usize, place: Place, reason: Reason) -> Option<Invalid>
    ensures { result ≡ Some (record { config = config; place = place; reason = reason }) }
{
    Some(Invalid {
        config,
        place,
        reason,
    })
}

// What is wrong with the place of a configuration, behind another.
fn place_fault(plan: &Plan, k: usize, before: Option<&Config>, config: &Config) -> Option<Invalid>
    requires { IfSome (option_copied before) ConfigInLines }
    ensures { result ≡ first_fault (place_rows plan.now k (option_copied before.entry) config.now) }
{
    if starts_wrongly(plan.length, before, config) {
        return fault(k, Place::Config, Reason::Order);
    }
    if counts_wrongly(before, config) {
        return fault(k, Place::Config, Reason::Countdown);
    }
    None
}

// What is wrong with its own lines.
fn channel_fault(k: usize, config: &Config) -> Option<Invalid>
    ensures { result ≡ first_fault (channel_rows k config.now) }
{
    if has_no_such_occupancy(config) {
        return fault(k, Place::Occupancy, Reason::Occupancy);
    }
    if is_hierarchical(config) {
        return fault(k, Place::Msc, Reason::Hierarchical);
    }
    if disagree(config) {
        return fault(k, Place::Config, Reason::Services);
    }
    None
}

// What is wrong with its announcement, its packets and its files.
fn carried_fault(
    plan: &Plan,
    k: usize,
    before: Option<&Config>,
    config: &Config,
    more: &[Config],
) -> Option<Invalid>
    requires before { IfSome (option_copied before) ConfigInLines }
    requires config { ConfigInLines config.now }
    ensures { result ≡ first_fault (carried_rows plan.now k (option_copied before.entry) config.now more.now) }
{
    if lacks_announcement(before, config) {
        return fault(k, Place::Config, Reason::Fit);
    }
    if packet_len(config, true) as usize > most_packet(plan.carry) {
        return fault(k, Place::Config, Reason::PacketSize);
    }
    let end = next_start(plan.length, more).min(plan.length);
    let frames = 3 * u64::from(end.saturating_sub(config.start));
    content_fault(k, frames, config.streams.as_slice())
}

// What is wrong with the configuration of this number, behind another and in front of these.
fn config_fault(
    plan: &Plan,
    k: usize,
    before: Option<&Config>,
    config: &Config,
    more: &[Config],
) -> Option<Invalid>
    requires before { IfSome (option_copied before) ConfigInLines }
    requires config { ConfigInLines config.now }
    ensures { result ≡ first_fault (rows plan.now k (option_copied before.entry) config.now more.now) }
{
    let placed = place_fault(plan, k, before, config);
    if placed.is_some() {
        return placed;
    }
    let begun = beginning_fault(k, config, next_start(plan.length, more));
    if begun.is_some() {
        return begun;
    }
    let channel = channel_fault(k, config);
    if channel.is_some() {
        return channel;
    }
    let disagreeing = disagreeing_fault(k, config);
    if disagreeing.is_some() {
        return disagreeing;
    }
    let fitting = room_fault(k, config);
    if fitting.is_some() {
        return fitting;
    }
    carried_fault(plan, k, before, config, more)
}

fn next_start(length: u32, more: &[Config]) -> u32
    ensures { result ≡ valid.next_start length more.now }
{
    match more {
        [] => length,
        [next, ..] => next.start,
    }
}

/// The first fault of a plan, configuration by configuration; `None` where it is valid.
#[tactic(auto, unfolding(crate::specs::Valid::first_invalid_from))]
pub fn first_invalid(plan: &Plan) -> Option<Invalid>
    requires { InLines plan.now }
    ensures { result ≡ valid.first_invalid plan.now }
{
    let mut before = None;
    let mut left = plan.configs.as_slice();
    let mut k = 0;
    while let [config, more @ ..] = left {
        let found = config_fault(plan, k, before, config, more);
        if found.is_some() {
            return found;
        }
        before = Some(config);
        left = more;
        k += 1;
    }
    None
}
