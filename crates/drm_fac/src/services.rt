//! The numbers of services of a channel.

ghost use Rattle.std.specs.Prelude.{◌≡◌, ◌<◌, IfSome, Some};
ghost use Rattle.drm_fac.specs.Services.{counts_of, code_of};

/// The numbers of audio and of data services that a code stands for; `None` where the code is reserved.
/// Example: `counts(9)` is `Some((2, 1))`.
pub fn counts(code: u8) -> Option<(u8, u8)>
    requires { code < 16 }
    ensures { result ≡ counts_of code }
{
    match code {
        0 => Some((4, 0)),
        15 => Some((0, 4)),
        11 | 14 => None,
        _ => Some((code / 4, code % 4)),
    }
}

/// The code of so many audio and data services; `None` where there is none of them, or more than four.
/// Example: `services_code(4, 0)` is `Some(0)`.
pub fn services_code(audio: u8, data_count: u8) -> Option<u8>
    ensures code { result ≡ code_of audio data_count }
    ensures read_again { IfSome result (λ code. counts_of code ≡ Some (audio, data_count)) }
{
    match (audio, data_count) {
        (4, 0) => Some(0),
        (0, 4) => Some(15),
        (0, 1..=3) | (1, 0..=3) | (2, 0..=2) | (3, 0..=1) => Some(4 * audio + data_count),
        _ => None,
    }
}
