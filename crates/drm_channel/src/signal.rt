//! The signals: robustness modes with their spectrum occupancies.

ghost use Rattle.std.specs.Prelude.{◌≡◌, ◌<◌, ◌≤◌};
ghost use Rattle.drm_channel.specs.Cells.{msc_cells, sdc_cells};
ghost use Rattle.drm_channel.specs.Codes.{HasOccupancy, IsWideCode, occupancy_of, wide_occupancy_of, signal_of};

use drm_fac::Mode;

/// The spectrum occupancy of a signal in mode A or B.
#[derive(Clone, Copy, Debug, PartialEq, Eq)]
pub enum Occupancy {
    Khz4_5,
    Khz5,
    Khz9,
    Khz10,
    Khz18,
    Khz20,
}

/// That of a signal in mode C or D.
#[derive(Clone, Copy, Debug, PartialEq, Eq)]
pub enum WideOccupancy {
    Khz10,
    Khz20,
}

/// A robustness mode with a spectrum occupancy that it has: sixteen signals.
#[derive(Clone, Copy, Debug, PartialEq, Eq)]
pub enum Signal {
    A(Occupancy),
    B(Occupancy),
    C(WideOccupancy),
    D(WideOccupancy),
}

impl Occupancy {
    // The occupancy of a code of the FAC.
    fn of(code: u8) -> Occupancy
        requires { code < 6 }
        ensures { result ≡ occupancy_of code }
    {
        match code {
            0 => Occupancy::Khz4_5,
            1 => Occupancy::Khz5,
            2 => Occupancy::Khz9,
            3 => Occupancy::Khz10,
            4 => Occupancy::Khz18,
            _ => Occupancy::Khz20,
        }
    }
}

impl WideOccupancy {
    // The occupancy of a code of the FAC that the modes C and D have.
    fn of(code: u8) -> WideOccupancy
        requires { IsWideCode code }
        ensures { result ≡ wide_occupancy_of code }
    {
        match code {
            3 => WideOccupancy::Khz10,
            _ => WideOccupancy::Khz20,
        }
    }
}

impl Signal {
    /// The signal of a mode and the code that the FAC has for its occupancy.
    pub fn of(mode: Mode, occupancy: u8) -> Signal
        requires { HasOccupancy mode occupancy }
        ensures { result ≡ signal_of mode occupancy }
    {
        match mode {
            Mode::A => Signal::A(Occupancy::of(occupancy)),
            Mode::B => Signal::B(Occupancy::of(occupancy)),
            Mode::C => Signal::C(WideOccupancy::of(occupancy)),
            Mode::D => Signal::D(WideOccupancy::of(occupancy)),
        }
    }

    /// The cells of the MSC in a multiplex frame, which is 400 ms.
    pub fn msc_cells(self) -> u32
        ensures cells { result ≡ msc_cells self }
        ensures at_most { result ≤ 6118 }
    {
        match self {
            Signal::A(Occupancy::Khz4_5) => 1_259,
            Signal::A(Occupancy::Khz5) => 1_422,
            Signal::A(Occupancy::Khz9) => 2_632,
            Signal::A(Occupancy::Khz10) => 2_959,
            Signal::A(Occupancy::Khz18) => 5_464,
            Signal::A(Occupancy::Khz20) => 6_118,
            Signal::B(Occupancy::Khz4_5) => 966,
            Signal::B(Occupancy::Khz5) => 1_110,
            Signal::B(Occupancy::Khz9) => 2_051,
            Signal::B(Occupancy::Khz10) => 2_337,
            Signal::B(Occupancy::Khz18) => 4_249,
            Signal::B(Occupancy::Khz20) => 4_774,
            Signal::C(WideOccupancy::Khz10) => 1_844,
            Signal::C(WideOccupancy::Khz20) => 3_867,
            Signal::D(WideOccupancy::Khz10) => 1_226,
            Signal::D(WideOccupancy::Khz20) => 2_606,
        }
    }

    /// The cells of a block of the SDC, one in each super frame.
    pub fn sdc_cells(self) -> u32
        ensures cells { result ≡ sdc_cells self }
        ensures at_least { 130 ≤ result }
        ensures at_most { result ≤ 846 }
    {
        match self {
            Signal::A(Occupancy::Khz4_5) => 167,
            Signal::A(Occupancy::Khz5) => 190,
            Signal::A(Occupancy::Khz9) => 359,
            Signal::A(Occupancy::Khz10) => 405,
            Signal::A(Occupancy::Khz18) => 754,
            Signal::A(Occupancy::Khz20) => 846,
            Signal::B(Occupancy::Khz4_5) => 130,
            Signal::B(Occupancy::Khz5) => 150,
            Signal::B(Occupancy::Khz9) => 282,
            Signal::B(Occupancy::Khz10) => 322,
            Signal::B(Occupancy::Khz18) => 588,
            Signal::B(Occupancy::Khz20) => 662,
            Signal::C(WideOccupancy::Khz10) => 288,
            Signal::C(WideOccupancy::Khz20) => 607,
            Signal::D(WideOccupancy::Khz10) => 152,
            Signal::D(WideOccupancy::Khz20) => 332,
        }
    }
}
