//! The field's own values. Those of the tables are from a program in Python that multiplies polynomials over bits term by
//! term, divides by the modulus, and looks for an inverse among all elements.

use crate::wrong::has_none;
use gf_field::{Gf, LOGS, POWERS as POWER_TABLE, mul_lanes};
use std::simd::prelude::*;

/// An element, another, and their product.
const PRODUCTS: &[(u8, u8, u8)] = &[
    (0x02, 0x80, 0x1d),
    (0x00, 0xff, 0x00),
    (0x01, 0xff, 0xff),
    (0x80, 0x80, 0x13),
    (0xff, 0xff, 0xe2),
    (0x53, 0xca, 0x8f),
    (0xb6, 0x53, 0xee),
    (0x8e, 0x02, 0x01),
    (0x03, 0x07, 0x09),
    (0x1d, 0x1d, 0x4c),
    (0x55, 0xaa, 0x9f),
    (0xe1, 0x4c, 0x1a),
    (0x7f, 0x81, 0x0e),
    (0x10, 0x10, 0x1d),
];

/// An element and its inverse.
const INVERSES: &[(u8, u8)] = &[
    (0x01, 0x01),
    (0x02, 0x8e),
    (0x03, 0xf4),
    (0x1d, 0x83),
    (0x53, 0x8c),
    (0x80, 0x1b),
    (0x8e, 0x02),
    (0xb6, 0xbf),
    (0xca, 0x62),
    (0xff, 0xfd),
];

/// A number n and 2 to the n.
const POWERS: &[(u32, u8)] = &[
    (0, 0x01),
    (1, 0x02),
    (7, 0x80),
    (8, 0x1d),
    (9, 0x3a),
    (25, 0x03),
    (48, 0x46),
    (100, 0x11),
    (127, 0xcc),
    (128, 0x85),
    (254, 0x8e),
    (255, 0x01),
    (256, 0x02),
    (257, 0x04),
    (510, 0x01),
    (65_536, 0x02),
    (u32::MAX, 0x01),
];

// The first row of each table that doesn't hold.
fn wrong_product() -> Option<usize> {
    for (k, row) in PRODUCTS.iter().enumerate() {
        if Gf(row.0).mul(Gf(row.1)).0 != row.2 || Gf(row.1).mul(Gf(row.0)).0 != row.2 {
            return Some(k);
        }
    }
    None
}

fn wrong_inverse() -> Option<usize> {
    for (k, row) in INVERSES.iter().enumerate() {
        if row.0 == 0 || Gf(row.0).inverse().0 != row.1 {
            return Some(k);
        }
    }
    None
}

fn wrong_power() -> Option<usize> {
    for (k, row) in POWERS.iter().enumerate() {
        if Gf::power(row.0).0 != row.1 {
            return Some(k);
        }
    }
    None
}

#[test]
fn products(rt: HostRuntime) {
    has_none(&rt, wrong_product());
}

#[test]
fn inverses(rt: HostRuntime) {
    has_none(&rt, wrong_inverse());
}

#[test]
fn powers(rt: HostRuntime) {
    has_none(&rt, wrong_power());
}

#[test]
fn sums(rt: HostRuntime) {
    assert!(rt; Gf(0x53).add(Gf(0xca)).0 == 0x99 && Gf(0xff).add(Gf(0xff)).0 == 0);
}

#[test]
fn powers_and_logarithms_by_table(rt: HostRuntime) {
    assert!(rt; LOGS[29] == 8 && POWER_TABLE[8] == 29 && LOGS[0] == 0);
}

#[test]
fn products_of_lanes(rt: HostRuntime) {
    let products = mul_lanes(u8x16::splat(2), u8x16::splat(0x80));
    assert!(rt; products.to_array() == [0x1d; 16]);
}
