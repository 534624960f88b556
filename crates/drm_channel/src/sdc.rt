//! The Service Description Channel.

ghost use Rattle.std.specs.Prelude.{◌≡◌, ◌<◌, ◌≤◌};
ghost use Rattle.drm_channel.specs.Codes.{sdc_mode_of};
ghost use Rattle.drm_channel.specs.Parts as parts;

use crate::signal::Signal;

/// The constellation of the SDC.
#[derive(Clone, Copy, Debug, PartialEq, Eq)]
pub enum SdcMode {
    Qam16,
    Qam4,
}

impl SdcMode {
    /// 4-QAM, or else 16-QAM.
    pub fn of(is_4_qam: bool) -> SdcMode
        ensures { result ≡ sdc_mode_of is_4_qam }
    {
        if is_4_qam {
            SdcMode::Qam4
        } else {
            SdcMode::Qam16
        }
    }
}

/// The bytes of the data field of an SDC block. They follow from the signal: a block has no other length.
pub fn sdc_bytes(signal: Signal, mode: SdcMode) -> u16
    ensures bytes { result ≡ parts.sdc_bytes signal mode }
    ensures below_limit { result < 1024 }
{
    let bits = 2 * signal.sdc_cells() - 12;
    let carried = match mode {
        SdcMode::Qam16 => bits / 3 + 2 * (bits / 3),
        SdcMode::Qam4 => bits / 2,
    };
    ((carried - 20) / 8) as u16
}
