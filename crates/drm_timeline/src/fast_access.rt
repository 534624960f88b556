//! The FAC of each frame.

ghost use Rattle.std.specs.Prelude.{◌≡◌, ◌*◌, ◌/◌, ◌%◌, ◌==◌, ◌≤◌, ◌<◌, length, filter, slice_get, option_map, All, IsSome, Some};
ghost use Rattle.drm_fac.specs.Fac.{FacFits};
ghost use Rattle.drm_fac.specs.Pattern.{service_at};
ghost use Rattle.drm_schedule.specs.Ranges.{ConfigInLines, ServiceInLines};
ghost use Rattle.plan_packing.specs.Packing.{chain};
ghost use Rattle.drm_timeline.specs.Standing.{config_of};
ghost use Rattle.drm_timeline.specs.FastAccess as fast_access;
ghost use Rattle.drm_timeline.specs.FastAccess.{audio_services, data_services, is_of_kind, services_of, service_of, service_in, channel_of, fac_of, fac_under};

use crate::configuration::{index_at, standing};
use drm_fac::{Channel, Fac, Slot, pattern, services_code};
use drm_schedule::{Config, Schedule, Service};

/// The FAC of a frame, counted from 0 at the schedule's start.
pub fn fac_at(plan: &Schedule, t: u32) -> Fac
    ensures fac { Some result ≡ fac_of plan.now t }
    ensures fits { FacFits result }
{
    let sf = t / 3;
    fac_under(standing(plan, sf), index_at(plan, sf), t)
}

// The FAC of a frame of a configuration, under this index.
fn fac_under(config: &Config, index: u8, t: u32) -> Fac
    requires fits { ConfigInLines config.now }
    requires services { IsSome (services_of config.now) }
    requires index { index < 8 }
    requires started { 3 * config.now.start ≤ t }
    ensures fac { Some result ≡ fast_access.fac_under config.now index t }
    ensures fits { FacFits result }
{
    let services = code(config);
    Fac {
        channel: channel(config, services, index, (t % 3) as u8),
        service: service_at(config, t - 3 * config.start),
    }
}

/// The code of the numbers of services of a configuration.
pub fn code(config: &Config) -> u8
    requires { IsSome (services_of config.now) }
    ensures code { Some result ≡ services_of config.now }
    ensures in_range { result < 16 }
{
    let (audio, data_count) = counts(config);
    match services_code(audio, data_count) {
        Some(code) => code,
        None => unreachable!(),
    }
}

// The service whose parameters stand in the frame of this phase.
fn service_at(config: &Config, phase: u32) -> Service
    requires fits { ConfigInLines config.now }
    requires services { IsSome (services_of config.now) }
    ensures service { Some result ≡ service_of config.now phase }
    ensures fits { ServiceInLines result }
{
    let (audio, data_count) = counts(config);
    match service(config, pattern(audio, data_count, u64::from(phase))) {
        Some(service) => service,
        None => unreachable!(),
    }
}

// The numbers of audio and of data services.
fn counts(config: &Config) -> (u8, u8)
    requires { IsSome (services_of config.now) }
    ensures audio { result.0 ≡ length (audio_services config.now) }
    ensures data_count { result.1 ≡ length (data_services config.now) }
{
    let services = config.services.as_slice();
    (count(services, false), count(services, true))
}

// How many of the services are data services, or are not.
fn count(services: &[Service], is_data: bool) -> u8
    requires { length (filter (is_of_kind is_data) services.now) ≤ 4 }
    ensures { result ≡ length (filter (is_of_kind is_data) services.now) }
{
    let mut count = 0;
    let mut left = services;
    while let [service, more @ ..] = left {
        if service.is_data == is_data {
            count += 1;
        }
        left = more;
    }
    count
}

// The k-th of the services that are data services, or are not.
fn nth(services: &[Service], is_data: bool, k: u8) -> Option<Service>
    ensures { result ≡ slice_get (filter (is_of_kind is_data) services.now) k }
{
    let mut before = 0;
    let mut left = services;
    while let [service, more @ ..] = left {
        if service.is_data == is_data {
            if before == k {
                return Some(*service);
            }
            before += 1;
        }
        left = more;
    }
    None
}

fn service(config: &Config, slot: Slot) -> Option<Service>
    ensures { result ≡ service_in config.now slot }
{
    match slot {
        Slot::Audio(k) => nth(config.services.as_slice(), false, k),
        Slot::Data(k) => nth(config.services.as_slice(), true, k),
    }
}

fn channel(config: &Config, services: u8, index: u8, position: u8) -> Channel
    requires { position < 3 }
    ensures { result ≡ channel_of config.now services index position }
{
    Channel {
        enhancement: false,
        identity: if position == 0 { 3 } else { position },
        occupancy: config.occupancy,
        short_depth: config.short_depth,
        msc: config.msc,
        qam4: config.qam4,
        services,
        index,
        last: 0,
    }
}
