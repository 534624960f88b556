//! Units as they stand in a file.

ghost use Rattle.cmd_pack.specs.UnitFront.{IsFrontOf, IsCutOf, FindsFault};

use cmd_faults::{Fault, UnitsFault, UnitsReason};

/// The most bytes of a unit.
const MOST_UNIT: usize = 65_535;

/// What stands at the front of bytes.
#[derive(Drop)]
pub(crate) enum UnitFront<'a> {
    /// There are no bytes.
    End,
    /// A unit, and the bytes behind it.
    Unit { unit: &'a [u8], rest: &'a [u8] },
    Wrong(UnitsReason),
}

pub(crate) fn front_of(bytes: &[u8]) -> UnitFront<'_>
    ensures { IsFrontOf bytes.now result }
{
    if bytes.is_empty() {
        return UnitFront::End;
    }
    let Some((head, behind)) = bytes.split_first_chunk() else {
        return UnitFront::Wrong(UnitsReason::Cut);
    };
    cut(u32::from_be_bytes(*head) as usize, behind)
}

// A unit of so many bytes, cut from the bytes behind its length.
fn cut(len: usize, behind: &[u8]) -> UnitFront<'_>
    ensures { IsCutOf len behind.now result }
{
    if len == 0 {
        UnitFront::Wrong(UnitsReason::Empty)
    } else if len > MOST_UNIT {
        UnitFront::Wrong(UnitsReason::TooLong)
    } else if len > behind.len() {
        UnitFront::Wrong(UnitsReason::Cut)
    } else {
        let (unit, rest) = behind.split_at(len);
        UnitFront::Unit { unit, rest }
    }
}

/// Finds the first fault in the bytes of a file, if there is one.
pub(crate) fn judge(bytes: &[u8]) -> Result<(), Fault>
    ensures { FindsFault bytes.now result }
{
    let mut rest = bytes;
    'units: loop {
        match front_of(rest) {
            UnitFront::End => return Ok(()),
            UnitFront::Unit { rest: behind, .. } => rest = behind,
            UnitFront::Wrong(reason) => {
                let at = (bytes.len() - rest.len()) as u64;
                return Err(Fault::Units(UnitsFault { at, reason }));
            }
        }
    }
}
