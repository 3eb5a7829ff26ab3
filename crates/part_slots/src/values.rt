//! The values of aggregates by their places.
ghost use Rattle.std.specs.Prelude.{◌≡◌, [], ◌∷◌, ◌++◌, drop, map, IfOk, OnOk, Some};
ghost use Rattle.std.specs.Option.{option_copied};
ghost use Rattle.part_slots.specs.Records as spec;

use crate::calls::given_each;
use crate::slots::Slot;
use name_keys::KeyMap;
use seen_types::{ExprType, FieldSeen, Shape};
use spark_base::{Items, NoMemory, TypeNo};
use std::alloc::Global;

/// The slot of the value at a place.
fn own_slot(fields: &KeyMap<FieldSeen>, place: usize) -> Slot
    ensures { result ≡ spec.own_slot fields.now place }
{
    match fields.at(place) {
        None => Slot::Surplus,
        Some((_, field)) => Slot::Given(Some(ExprType::Of(field.of))),
    }
}

/// The slots of so many values, each for its component.
fn own_slots(
    alloc: Global,
    fields: &KeyMap<FieldSeen>,
    count: usize,
) -> Result<Items<Slot>, NoMemory>
    ensures { IfOk result (λ s. s ≡ spec.own_slots fields.now count) }
{
    let mut slots = Items::new(alloc);
    for place in 0..count {
        slots.push(own_slot(fields, place))?;
    }
    Ok(slots)
}

/// The types of the components from a place on.
fn types_from(
    alloc: Global,
    fields: &KeyMap<FieldSeen>,
    first: usize,
) -> Result<Items<TypeNo>, NoMemory>
    ensures { IfOk result (λ ts. ts ≡ map spec.type_of_field (drop first fields.now)) }
{
    let mut types = Items::new(alloc);
    for place in first..fields.len() {
        if let Some((_, field)) = fields.at(place) {
            types.push(field.of)?;
        }
    }
    Ok(types)
}

/// The slots of so many values of a record, the last of which is that of `others` or not.
fn component_slots(
    alloc: Global,
    fields: &KeyMap<FieldSeen>,
    has_others: bool,
    count: usize,
) -> Result<Items<Slot>, NoMemory>
    ensures { IfOk result (λ s. s ≡ spec.component_slots fields.now has_others count) }
{
    if !has_others {
        return own_slots(alloc, fields, count);
    }
    let own = count.saturating_sub(1);
    let mut slots = own_slots(alloc, fields, own)?;
    slots.push(Slot::Shared(types_from(alloc, fields, own)?))?;
    Ok(slots)
}

/// The slots of so many values without names, by what is expected of their aggregate: each component of a record in turn, and
/// then surplus ones; elements of an array.
#[tactic(auto, unfolding(crate::specs::Records::positional_slots))]
pub fn positional_slots(
    alloc: Global,
    shape: Option<&Shape>,
    has_others: bool,
    count: usize,
) -> Result<Items<Slot>, NoMemory>
    ensures { IfOk result (λ s. s ≡ spec.positional_slots (option_copied shape.entry) has_others count) }
{
    match shape {
        Some(Shape::Fields(fields)) => component_slots(alloc, fields, has_others, count),
        Some(Shape::Array { of, .. }) => given_each(alloc, *of, count),
        _ => Ok(Items::new(alloc)),
    }
}
