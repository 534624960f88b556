//! Entities as numbers and bytes, which tables of cases can hold.

use drm_sdc::{AppMode, Body, Channels};

/// An entity: whether its version is set, the type and the numbers of its body in their order, and the body's bytes.
pub(crate) type EntityNumbers = (bool, &'static [u32], &'static [u8]);

/// The type and the numbers of a body, with zeros behind them.
pub(crate) fn numbers_of(body: &Body) -> [u32; 12] {
    match body {
        Body::Label { short, spare, .. } => padded(&[1, u32::from(*short), u32::from(*spare)]),
        Body::App {
            short,
            stream,
            packet,
            enhancement,
            domain,
            ..
        } => padded(&[
            5,
            u32::from(*short),
            u32::from(*stream),
            mode_number(*packet),
            u32::from(*enhancement),
            u32::from(*domain),
        ]),
        Body::Language {
            short,
            spare,
            language,
            country,
        } => padded(&[
            12,
            u32::from(*short),
            u32::from(*spare),
            *language,
            u32::from(*country),
        ]),
        Body::Raw { kind, nibble, .. } => padded(&[u32::from(*kind), u32::from(*nibble)]),
        Body::Audio { .. } => audio_numbers(body),
        Body::Next { .. } => next_numbers(body),
        _ => channel_numbers(body),
    }
}

fn channel_numbers(body: &Body) -> [u32; 12] {
    match body {
        Body::Mux { desc } => padded(&[
            0,
            u32::from(desc.prot_a),
            u32::from(desc.prot_b),
            u32::from(desc.count),
            u32::from(desc.parts[0].a),
            u32::from(desc.parts[0].b),
            u32::from(desc.parts[1].a),
            u32::from(desc.parts[1].b),
            u32::from(desc.parts[2].a),
            u32::from(desc.parts[2].b),
            u32::from(desc.parts[3].a),
            u32::from(desc.parts[3].b),
        ]),
        Body::Freq {
            sync,
            layer,
            restriction,
            region,
            list,
        } => padded(&[
            3,
            u32::from(*sync),
            u32::from(*layer),
            or_256(*restriction),
            or_256(*region),
            frequency(list, 0),
            frequency(list, 1),
            frequency(list, 2),
        ]),
        Body::When {
            id,
            day,
            start,
            duration,
        } => padded(&[
            4,
            u32::from(*id),
            u32::from(*day),
            u32::from(*start),
            u32::from(*duration),
        ]),
        Body::Time {
            mjd,
            hours,
            minutes,
            extra,
        } => padded(&[
            8,
            *mjd,
            u32::from(*hours),
            u32::from(*minutes),
            or_256(*extra),
        ]),
        _ => [u32::MAX; 12],
    }
}

fn audio_numbers(body: &Body) -> [u32; 12] {
    match body {
        Body::Audio {
            short,
            stream,
            coding,
            sbr,
            mode,
            rate,
            text,
            enhancement,
            coder,
            spare,
            ..
        } => [
            9,
            u32::from(*short),
            u32::from(*stream),
            u32::from(*coding),
            u32::from(*sbr),
            u32::from(*mode),
            u32::from(*rate),
            u32::from(*text),
            u32::from(*enhancement),
            u32::from(*coder),
            u32::from(*spare),
            0,
        ],
        _ => [u32::MAX; 12],
    }
}

fn next_numbers(body: &Body) -> [u32; 12] {
    match body {
        Body::Next {
            enhancement,
            mode,
            occupancy,
            short_depth,
            msc,
            qam4,
            services,
            last,
        } => padded(&[
            10,
            u32::from(*enhancement),
            u32::from(*mode),
            u32::from(*occupancy),
            u32::from(*short_depth),
            u32::from(*msc),
            u32::from(*qam4),
            u32::from(*services),
            u32::from(*last),
        ]),
        _ => [u32::MAX; 12],
    }
}

/// The bytes of a body.
pub(crate) fn bytes_of(body: &Body) -> &[u8] {
    match body {
        Body::Label { text, .. } => text.as_slice(),
        Body::App { bytes, .. } => bytes.as_slice(),
        Body::Audio { config, .. } => config.as_slice(),
        Body::Raw { bytes, .. } => bytes.as_slice(),
        _ => &[],
    }
}

fn padded(numbers: &[u32]) -> [u32; 12] {
    let mut all = [0; 12];
    let count = numbers.len().min(12);
    all[..count].copy_from_slice(&numbers[..count]);
    all
}

// A byte that may be absent.
fn or_256(byte: Option<u8>) -> u32 {
    byte.map_or(256, u32::from)
}

// The frequency at a place of the list, its first bit as the greatest of 16; 65,536 where none stands there.
fn frequency(list: &Channels, k: usize) -> u32 {
    match list.as_slice().get(k) {
        Some(channel) => u32::from(channel.first) << 15 | u32::from(channel.number),
        None => 0x10000,
    }
}

// The spare bits of a stream; of packets the bytes of data unit, packet identifier and length, below the byte 1.
fn mode_number(mode: AppMode) -> u32 {
    match mode {
        AppMode::Sync { spare } => u32::from(spare),
        AppMode::Packet { unit, pid, length } => {
            u32::from_be_bytes([1, u8::from(unit), pid, length])
        }
    }
}
