//! Whether the services of a configuration agree with its streams and with what its blocks tell.

ghost use Rattle.std.specs.Prelude.{◌≡◌, ◌==◌, nat_lt, count_by};
ghost use Rattle.std.specs.List.{list_any};
ghost use Rattle.drm_schedule.specs.Services as rules;
ghost use Rattle.drm_schedule.specs.Services.{is_service, is_audio_service};

use crate::same_lines::tells_others;
use crate::{Body, Config, Entity, Service, Timed};

fn is_audio_of(short: u8, body: &Body) -> bool
    ensures { result ≡ rules.is_audio_of short body.now }
{
    match body {
        Body::Audio { short: own, .. } => *own == short,
        _ => false,
    }
}

fn is_app_of(short: u8, body: &Body) -> bool
    ensures { result ≡ rules.is_app_of short body.now }
{
    match body {
        Body::App { short: own, .. } => *own == short,
        _ => false,
    }
}

fn is_label_of(short: u8, body: &Body) -> bool
    ensures { result ≡ rules.is_label_of short body.now }
{
    match body {
        Body::Label { short: own, .. } => *own == short,
        _ => false,
    }
}

fn is_any(services: &[Service], short: u8) -> bool
    ensures { result ≡ list_any (is_service short) services.now }
{
    services.iter().any(|s| s.short == short)
}

fn is_any_audio(services: &[Service], short: u8) -> bool
    ensures { result ≡ list_any (is_audio_service short) services.now }
{
    services.iter().any(|s| s.short == short && !s.is_data)
}

fn is_stray_audio(services: &[Service], body: &Body) -> bool
    ensures { result ≡ rules.is_stray_audio services.now body.now }
{
    match body {
        Body::Audio { short, .. } => !is_any_audio(services, *short),
        _ => false,
    }
}

fn is_stray(services: &[Service], body: &Body) -> bool
    ensures { result ≡ rules.is_stray services.now body.now }
{
    match body {
        Body::App { short, .. } => !is_any(services, *short),
        Body::Label { short, .. } => !is_any(services, *short),
        Body::Language { short, .. } => !is_any(services, *short),
        _ => false,
    }
}

fn is_streamless(count: usize, body: &Body) -> bool
    ensures { result ≡ rules.is_streamless count body.now }
{
    match body {
        Body::App { stream, .. } => usize::from(*stream) >= count,
        Body::Audio { stream, .. } => usize::from(*stream) >= count,
        _ => false,
    }
}

// Whether several services have this short id.
fn is_shared(services: &[Service], short: u8) -> bool
    ensures { result ≡ nat_lt 1 (count_by (is_service short) services.now) }
{
    services.iter().filter(|s| s.short == short).count() > 1
}

fn share_a_short_id(config: &Config) -> bool
    ensures { result ≡ rules.share_a_short_id config.now }
{
    let services = config.services.as_slice();
    is_shared(services, 0)
        || is_shared(services, 1)
        || is_shared(services, 2)
        || is_shared(services, 3)
}

fn audio_lines(entities: &[Entity], short: u8) -> usize
    ensures { result ≡ count_by (λ e. rules.is_audio_of short e.body) entities.now }
{
    entities
        .iter()
        .filter(|e| is_audio_of(short, &e.body))
        .count()
}

fn has_app_line(entities: &[Entity], short: u8) -> bool
    ensures { result ≡ list_any (λ e. rules.is_app_of short e.body) entities.now }
{
    entities.iter().any(|e| is_app_of(short, &e.body))
}

fn lack_one_audio_line(services: &[Service], entities: &[Entity]) -> bool
    ensures { result ≡ rules.lack_one_audio_line services.now entities.now }
{
    services
        .iter()
        .any(|s| !s.is_data && audio_lines(entities, s.short) != 1)
}

fn lack_an_app_line(services: &[Service], entities: &[Entity]) -> bool
    ensures { result ≡ rules.lack_an_app_line services.now entities.now }
{
    services
        .iter()
        .any(|s| s.is_data && !has_app_line(entities, s.short))
}

fn have_a_stray_audio_line(services: &[Service], entities: &[Entity]) -> bool
    ensures { result ≡ rules.have_a_stray_audio_line services.now entities.now }
{
    entities.iter().any(|e| is_stray_audio(services, &e.body))
}

fn have_a_stray_line(services: &[Service], entities: &[Entity]) -> bool
    ensures { result ≡ rules.have_a_stray_line services.now entities.now }
{
    entities.iter().any(|e| is_stray(services, &e.body))
}

fn has_two_labels(entities: &[Entity], short: u8) -> bool
    ensures { result ≡ nat_lt 1 (count_by (λ e. rules.is_label_of short e.body) entities.now) }
{
    entities
        .iter()
        .filter(|e| is_label_of(short, &e.body))
        .count()
        > 1
}

fn have_two_labels(entities: &[Entity]) -> bool
    ensures { result ≡ rules.have_two_labels entities.now }
{
    has_two_labels(entities, 0)
        || has_two_labels(entities, 1)
        || has_two_labels(entities, 2)
        || has_two_labels(entities, 3)
}

fn have_a_line_without_stream(count: usize, entities: &[Entity]) -> bool
    ensures { result ≡ rules.have_a_line_without_stream count entities.now }
{
    entities.iter().any(|e| is_streamless(count, &e.body))
}

/// Whether the services are too many, or two have one short id.
pub fn disagree(config: &Config) -> bool
    ensures { result ≡ rules.services_disagree config.now }
{
    config.services.len() > 4 || share_a_short_id(config)
}

/// Whether the lines of a block disagree with the services and the streams, or with the first block.
pub fn block_disagrees(config: &Config, block: &Timed) -> bool
    ensures { result ≡ rules.block_disagrees config.now block.now }
{
    let services = config.services.as_slice();
    let entities = block.entities.as_slice();
    lack_one_audio_line(services, entities)
        || lack_an_app_line(services, entities)
        || have_a_stray_audio_line(services, entities)
        || have_a_stray_line(services, entities)
        || have_two_labels(entities)
        || have_a_line_without_stream(config.streams.len(), entities)
        || tells_others(config, block)
}
