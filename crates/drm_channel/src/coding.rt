//! How the Main Service Channel is coded.

ghost use Rattle.std.specs.Prelude.{◌≡◌, ◌<◌, ◌≤◌, ◌*◌, ◌/◌, ◌^◌};
ghost use Rattle.drm_channel.specs.Codes.{IsPlainCode, constellation_of, protection_of};
ghost use Rattle.drm_channel.specs.Rates.{coding_of, rates_of, multiple_of, carried, IsLeastMultiple};
ghost use Rattle.drm_channel.specs.Parts.{cells_for, CarriesLeast};

/// The constellation of the MSC, without hierarchy.
#[derive(Clone, Copy, Debug, PartialEq, Eq)]
pub enum Constellation {
    Qam64,
    Qam16,
}

/// A protection level.
#[derive(Clone, Copy, Debug, PartialEq, Eq)]
pub enum Protection {
    Level0,
    Level1,
    Level2,
    Level3,
}

/// A constellation with a protection level that has code rates for it.
#[derive(Clone, Copy, Debug, PartialEq, Eq)]
pub enum MscCoding {
    Qam64Level0,
    Qam64Level1,
    Qam64Level2,
    Qam64Level3,
    Qam16Level0,
    Qam16Level1,
}

impl Constellation {
    /// The constellation of a code of the FAC.
    pub fn of(code: u8) -> Constellation
        requires { IsPlainCode code }
        ensures { result ≡ constellation_of code }
    {
        match code {
            0 => Constellation::Qam64,
            _ => Constellation::Qam16,
        }
    }
}

impl Protection {
    /// The protection level of this number.
    pub fn of(number: u8) -> Protection
        requires { number < 4 }
        ensures { result ≡ protection_of number }
    {
        match number {
            0 => Protection::Level0,
            1 => Protection::Level1,
            2 => Protection::Level2,
            _ => Protection::Level3,
        }
    }
}

// What so many coded bits of a level carry at a code rate.
fn level(bits: u32, numerator: u32, denominator: u32) -> u32
    requires bits { bits < 2 ^ 20 }
    requires numerator { numerator < 16 }
    requires not_zero { 1 ≤ denominator }
    ensures product { result ≡ numerator * (bits / denominator) }
    ensures below_limit { result < 2 ^ 24 }
{
    numerator * (bits / denominator)
}

impl MscCoding {
    /// The coding of a part; `None` where the protection level has no code rates in the constellation.
    pub fn of(constellation: Constellation, protection: Protection) -> Option<MscCoding>
        ensures { result ≡ coding_of constellation protection }
    {
        match (constellation, protection) {
            (Constellation::Qam64, Protection::Level0) => Some(MscCoding::Qam64Level0),
            (Constellation::Qam64, Protection::Level1) => Some(MscCoding::Qam64Level1),
            (Constellation::Qam64, Protection::Level2) => Some(MscCoding::Qam64Level2),
            (Constellation::Qam64, Protection::Level3) => Some(MscCoding::Qam64Level3),
            (Constellation::Qam16, Protection::Level0) => Some(MscCoding::Qam16Level0),
            (Constellation::Qam16, Protection::Level1) => Some(MscCoding::Qam16Level1),
            (Constellation::Qam16, _) => None,
        }
    }

    /// The bits that so many coded bits of each level carry.
    pub fn carried(self, bits: u32) -> u32
        requires { bits < 2 ^ 20 }
        ensures carried { result ≡ carried (rates_of self) bits }
        ensures below_limit { result < 2 ^ 26 }
    {
        match self {
            MscCoding::Qam64Level0 => level(bits, 1, 4) + level(bits, 1, 2) + level(bits, 3, 4),
            MscCoding::Qam64Level1 => level(bits, 1, 3) + level(bits, 2, 3) + level(bits, 4, 5),
            MscCoding::Qam64Level2 => level(bits, 1, 2) + level(bits, 3, 4) + level(bits, 7, 8),
            MscCoding::Qam64Level3 => level(bits, 2, 3) + level(bits, 4, 5) + level(bits, 8, 9),
            MscCoding::Qam16Level0 => level(bits, 1, 3) + level(bits, 2, 3),
            MscCoding::Qam16Level1 => level(bits, 1, 2) + level(bits, 3, 4),
        }
    }

    /// The cells of part A are a multiple of this.
    pub fn multiple(self) -> u32
        ensures value { result ≡ multiple_of self }
        ensures least { IsLeastMultiple (rates_of self) result }
        ensures at_most { result ≤ 45 }
    {
        match self {
            MscCoding::Qam64Level0 => 4,
            MscCoding::Qam64Level1 => 15,
            MscCoding::Qam64Level2 => 8,
            MscCoding::Qam64Level3 => 45,
            MscCoding::Qam16Level0 => 3,
            MscCoding::Qam16Level1 => 4,
        }
    }

    /// The cells that a part A of so many bytes takes: the fewest that carry it.
    pub fn cells_for(self, bytes: u16) -> u32
        ensures cells { result ≡ cells_for self bytes }
        ensures least { CarriesLeast self bytes result }
    {
        let bits = 8 * u32::from(bytes);
        let multiple = self.multiple();
        multiple * bits.div_ceil(self.carried(2 * multiple))
    }
}
