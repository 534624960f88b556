//! The distances between places of one run that were used last, prepared.

ghost use Rattle.std.specs.Prelude.{◌≡◌, true, false};

use rs_erase::Spacing;
use std::marker::Model;

/// That of neighbours, which stays, and two others: the packets of a super frame have two lengths, with its SDC block and without.
#[derive(Drop)]
pub(crate) struct Spacings {
    near: Spacing,
    first: Spacing,
    second: Spacing,
    // Whether the second of the two others was used last, and whether that of neighbours was.
    is_second: bool,
    is_near: bool,
}

impl Model for Spacings {
    ghost use Rattle.std.specs.Prelude.{ℕ, ◌≡◌, if◌then◌else◌};

    // The distance that was used last.
    ghost Value = { ℕ };

    ghost view = { λ s. if s.is_near then s.near else (if s.is_second then s.second else s.first) };

    ghost invariant = { λ s. s.near ≡ 1 };
}

impl Spacings {
    pub(crate) fn make() -> Spacings {
        Spacings {
            near: Spacing::prepare(1),
            first: Spacing::prepare(1),
            second: Spacing::prepare(1),
            is_second: false,
            is_near: true,
        }
    }

    /// Sees to it that the one used last is for this distance.
    pub(crate) fn turn_to(&mut self, distance: u8)
        ensures { self.new ≡ distance }
    {
        self.is_near = distance == 1;
        if distance != 1 {
            self.is_second = turn(&mut self.first, &mut self.second, self.is_second, distance);
        }
    }

    /// The one used last.
    pub(crate) fn last(&self) -> &Spacing
        ensures { result.now ≡ self.now }
    {
        let other = one_of(&self.first, &self.second, self.is_second);
        one_of(other, &self.near, self.is_near)
    }
}

// Sees to it that one of both is for this distance, and answers whether that is the second. The one that was used last stays.
fn turn(first: &mut Spacing, second: &mut Spacing, is_second: bool, distance: u8) -> bool
    ensures second { result ≡ true → second.new ≡ distance }
    ensures first { result ≡ false → first.new ≡ distance }
{
    if first.distance() == distance {
        return false;
    }
    if second.distance() == distance {
        return true;
    }
    if is_second {
        space_by(first, distance);
    } else {
        space_by(second, distance);
    }
    !is_second
}

// The second of both, or the first.
fn one_of<'a>(first: &'a Spacing, second: &'a Spacing, is_second: bool) -> &'a Spacing
    ensures second { is_second ≡ true → result.now ≡ second.now }
    ensures first { is_second ≡ false → result.now ≡ first.now }
{
    if is_second { second } else { first }
}

// Prepares this for a distance. That is rare, and not to be in the way of what comes at each chunk.
#[inline(never)]
fn space_by(spacing: &mut Spacing, distance: u8)
    ensures { spacing.new ≡ distance }
{
    *spacing = Spacing::prepare(distance);
}
