//! The law of digits, on a function that does nothing.

ghost use Rattle.drm_bits.specs.Numbers.{DigitsStandForNumbers, NumbersHaveTheirDigits};

/// Numbers and their digits are one for one.
pub fn digits_and_numbers()
    ensures value { DigitsStandForNumbers }
    ensures digits { NumbersHaveTheirDigits }
{}
