//! The data field of a block: entities one after another, and a tail.

ghost use Rattle.std.specs.Prelude.{◌≡◌, ◌⊎◌, List, ℕ, IfOk, IfErr, OnOk};
ghost use Rattle.drm_sdc.specs.Field.{IsField, IsFirstFault};
ghost use Rattle.drm_sdc.specs.declared.entity.Entity.{Entity};
ghost use Rattle.drm_sdc.specs.declared.fault.SdcFault.{SdcFault};

use crate::next_entity::next_entity;
use crate::read_body::read_entity;
use crate::{Entities, SdcFault};
use drm_bits::Octets;
use std::alloc::Global;

/// Reads the entities of a data field, and the bytes behind them. A header of two zero bytes, or fewer than two
/// bytes, begins these.
pub fn read_entities(alloc: Global, field: &[u8]) -> Result<(Entities, Octets), SdcFault>
    // What is read is these entities and this tail, and there are no others.
    ensures read { IfOk result (λ r. IsField r.0 r.1 field.now) }
    ensures only { (entities : List Entity) (tail : List ℕ) → IsField entities tail field.now → (result ≡ Ok (entities, tail)) ⊎ (result ≡ Err SdcFault.NoMemory) }

    // Else the fault is the first one, unless memory ran out.
    ensures fault { IfErr result (λ f. (f ≡ SdcFault.NoMemory) ⊎ IsFirstFault field.now f) }
    ensures named { (fault : SdcFault) → IsFirstFault field.now fault → (result ≡ Err fault) ⊎ (result ≡ Err SdcFault.NoMemory) }
{
    let _bytes = field;
    read_field(alloc, field)
}

fn read_field(alloc: Global, field: &[u8]) -> Result<(Entities, Octets), SdcFault>
    ensures read { IfOk result (λ r. IsField r.0 r.1 field.now) }
    ensures fault { IfErr result (λ f. (f ≡ SdcFault.NoMemory) ⊎ IsFirstFault field.now f) }
{
    let mut entities = Entities::new(alloc);
    let mut at = 0;
    while let Some(size) = next_entity(field, at)? {
        let entity = read_entity(alloc, &field[at..at + size])?;
        entities.push(entity)?;
        at += size;
    }
    let tail = Octets::from_slice(alloc, &field[at..])?;
    Ok((entities, tail))
}

/// Whether `read_entities` would read the field, without memory.
pub(crate) fn check_entities(field: &[u8]) -> Result<(), SdcFault>
    ensures right { OnOk result ((entities : List Entity) × (tail : List ℕ) × IsField entities tail field.now) }
    ensures fault { IfErr result (IsFirstFault field.now) }
{
    let mut at = 0;
    while let Some(size) = next_entity(field, at)? {
        at += size;
    }
    Ok(())
}
