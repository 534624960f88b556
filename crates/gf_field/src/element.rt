//! An element and what is computed with it.

ghost use Rattle.std.specs.Prelude.{◌≡◌, ◌≢◌, ℕ, ◌^◌, ◌<◌, bit_xor};
ghost use Rattle.gf_field.specs.Field.{power, times, IsProduct};

use crate::tables::{inverse_of, power_of, product_of, quotient_of};
use std::marker::Model;

/// An element of the field: a polynomial over bits of degree below 8, bit i the coefficient of x to the i.
#[derive(Clone, Copy, PartialEq, Eq, Debug)]
pub struct Gf(pub u8);

impl Model for Gf {
    ghost Value = { ℕ };

    ghost view = { λ element. element.0 };

    ghost inverse = { λ n. record { 0 = n } };
}

impl Gf {
    /// The sum, which is the difference too.
    /// Example: `Gf(0x53).add(Gf(0xca))` is `Gf(0x99)`.
    pub fn add(self, other: Gf) -> Gf
        ensures { result ≡ bit_xor self other }
    {
        Gf(self.0 ^ other.0)
    }

    /// The product.
    /// Example: `Gf(0x80).mul(Gf(2))` is `Gf(0x1d)`.
    pub fn mul(self, other: Gf) -> Gf
        ensures product { IsProduct self other result }
        ensures value { result ≡ times self other }
    {
        Gf(product_of(self.0, other.0))
    }

    /// The element whose product with the other one is this one.
    pub fn div(self, other: Gf) -> Gf
        requires { other ≢ 0 }
        ensures product { IsProduct result other self }
        ensures value { times result other ≡ self }
        ensures element { result < 2 ^ 8 }
    {
        Gf(quotient_of(self.0, other.0))
    }

    /// The element whose product with this one is 1.
    /// Example: `Gf(2).inverse()` is `Gf(0x8e)`.
    pub fn inverse(self) -> Gf
        requires { self ≢ 0 }
        ensures product { IsProduct self result 1 }
        ensures value { times self result ≡ 1 }
        ensures element { result < 2 ^ 8 }
    {
        Gf(inverse_of(self.0))
    }

    /// 2 to the n.
    /// Example: `Gf::power(8)` is `Gf(0x1d)`.
    pub fn power(n: u32) -> Gf
        ensures { result ≡ power n }
    {
        // 2 to the 255 is 1.
        Gf(power_of((n % 255) as u8))
    }
}
