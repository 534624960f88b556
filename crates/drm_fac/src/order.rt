//! The order in which the services stand in the FAC.

ghost use Rattle.std.specs.Prelude.{◌≡◌, ◌<◌, ◌%◌, length, IsSome, Some, slice_get};
ghost use Rattle.drm_fac.specs.Services.{code_of};
ghost use Rattle.drm_fac.specs.Pattern.{before_data, order_of, service_at};

/// A service of a multiplex: which of the audio services, or of the data services, from 0.
#[derive(Clone, Copy, Debug, PartialEq, Eq)]
pub enum Slot {
    Audio(u8),
    Data(u8),
}

/// The service whose parameters stand in a frame, of so many audio and data services (ES 201 980, "Fast Access
/// Channel"). The phase counts frames from the first one of the configuration.
/// Example: `pattern(1, 1, 4)` is `Slot::Data(0)`: four times the audio service, then the data service.
pub fn pattern(audio: u8, data_count: u8, phase: u64) -> Slot
    requires { IsSome (code_of audio data_count) }
    ensures { Some result ≡ service_at audio data_count phase }
{
    let place = (phase % u64::from(order_len(audio, data_count))) as u8;
    at_place(audio, data_count, place)
}

// In how many frames audio services stand before each data service.
fn audio_frames(audio: u8) -> u8
    requires { audio < 4 }
    ensures { result ≡ length (before_data audio) }
{
    if audio == 1 { 4 } else { 2 * audio }
}

// After how many frames the order is repeated.
fn order_len(audio: u8, data_count: u8) -> u8
    requires { IsSome (code_of audio data_count) }
    ensures { result ≡ length (order_of audio data_count) }
{
    match (audio, data_count) {
        (_, 0) => audio,
        (0, _) => data_count,
        _ => (audio_frames(audio) + 1) * data_count,
    }
}

// The service at a place of the order.
fn at_place(audio: u8, data_count: u8, place: u8) -> Slot
    requires code { IsSome (code_of audio data_count) }
    requires place { place < length (order_of audio data_count) }
    ensures { Some result ≡ slice_get (order_of audio data_count) place }
{
    match (audio, data_count) {
        (_, 0) => Slot::Audio(place),
        (0, _) => Slot::Data(place),
        _ => {
            let audio_frames = audio_frames(audio);
            let (group, in_group) = (place / (audio_frames + 1), place % (audio_frames + 1));
            if in_group < audio_frames {
                Slot::Audio(in_group % audio)
            } else {
                Slot::Data(group)
            }
        }
    }
}
