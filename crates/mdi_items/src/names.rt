//! The names of the items that are read.

ghost use Rattle.std.specs.Prelude.{◌≡◌, ◌<◌, IfSome, IfNone};
ghost use Rattle.mdi_items.specs.Names.{name_at};
ghost use Rattle.mdi_items.specs.Items.{IsKnown};

/// The names, in the order in which the items are written.
pub(crate) const NAMES: [[u8; 4]; 10] = [
    *b"*ptr", *b"dlfc", *b"fac_", *b"sdci", *b"robm", *b"sdc_", *b"str0", *b"str1", *b"str2",
    *b"str3",
];

// The places of the names in that order; that of stream k is k places behind the first one's.
pub(crate) const PTR: usize = 0;

pub(crate) const DLFC: usize = 1;

pub(crate) const FAC: usize = 2;

pub(crate) const SDCI: usize = 3;

pub(crate) const ROBM: usize = 4;

pub(crate) const SDC: usize = 5;

pub(crate) const STREAMS: usize = 6;

/// The name at a place of the order.
pub(crate) fn name_at(place: usize) -> [u8; 4]
    requires { place < 10 }
    ensures { result ≡ name_at place }
{
    NAMES[place]
}

/// The place of a known name in the order.
pub(crate) fn place_of(name: [u8; 4]) -> Option<usize>
    ensures known { IfSome result (λ k. (k < 10) × (name_at k ≡ name)) }
    ensures unknown { IfNone result (¬ IsKnown name) }
{
    for (place, known) in NAMES.iter().enumerate() {
        if *known == name {
            return Some(place);
        }
    }
    None
}
