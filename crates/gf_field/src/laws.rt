//! The laws of the field and of its tables, each on a function that does nothing.

ghost use Rattle.gf_field.specs.Laws.{AreFieldLaws, AreLogarithms, ArePowerLaws, ArePowers, ProductIsRemainder};

use crate::logarithms::{LOGS, POWERS};

/// The product of elements is the one remainder of their product as polynomials over bits.
pub fn product_is_remainder()
    ensures { ProductIsRemainder }
{}

/// The elements are a field.
pub fn field_laws()
    ensures { AreFieldLaws }
{}

/// The powers of 2 go once through all elements but 0.
pub fn power_laws()
    ensures { ArePowerLaws }
{}

/// Place j of `POWERS` holds 2 to the j.
pub fn power_table()
    ensures { ArePowers POWERS }
{}

/// Place v above 0 of `LOGS` holds the j below 255 for which place j of `POWERS` holds v, and place 0 holds 0.
pub fn logarithm_table()
    ensures { AreLogarithms LOGS POWERS }
{}
