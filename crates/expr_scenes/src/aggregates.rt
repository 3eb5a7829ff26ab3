//! Aggregates, by what their parts are.
ghost use Rattle.std.specs.Prelude.{◌≡◌, ◌++◌, ◌∷◌, drop, map, IfOk, None, OnOk};
ghost use Rattle.std.specs.Option.{option_copied};
ghost use Rattle.expr_scenes.specs.Scenes.{context_of, tree};
ghost use Rattle.expr_outlines.specs.Outlines as outlines;
ghost use Rattle.expr_rules.specs.Aggregates.{named_found};
ghost use Rattle.expr_rules.specs.Operands.{aggregate as aggregate_read};
ghost use Rattle.name_findings.specs.Findings.{add_all};
ghost use Rattle.part_slots.specs.Records as records;
ghost use Rattle.part_slots.specs.Slots.{slot_at};
ghost use Rattle.part_slots.specs.declared.slots.Pairing.TheVariants.{ForNothing};
ghost use Rattle.part_slots.specs.declared.slots.Slot.TheVariants.{Alone};
ghost use Rattle.seen_names.specs.Entities as entities;
ghost use Rattle.seen_names.specs.declared.entities.Entity.TheVariants.{Nothing};
ghost use Rattle.static_eval.specs.Judgements as says;
ghost use Rattle.value_rules.specs.Tellings.{has_type};

use crate::scene::Scene;
use crate::senses::Sense;
use choice_covers::Placed;
use expr_outlines::Edges;
use expr_rules::{aggregate, begins, refuse_choices, refuse_components};
use name_findings::Findings;
use part_slots::{Pairing, Reading, Slot};
use seen_names::{Entity, type_in};
use seen_types::{ExprType, Shape};
use spark_base::{ExprNo, Items, NoMemory, Pos, TypeNo};
use static_eval::nothing_said;
use std::alloc::Global;
use value_rules::tell_type;

/// The slot at a place from 0: where there is none, what stands there stands alone.
pub fn slot_in<'a>(slots: &'a [Slot], k: usize, alone: &'a Slot) -> &'a Slot
    requires alone { alone.now ≡ Alone }
    ensures { result.now ≡ slot_at (drop k slots.now) }
{
    match slots.get(k) {
        None => alone,
        Some(slot) => slot,
    }
}

/// How the association at a place from 0 is read.
pub fn pairing_in<'a>(pairings: &'a [Pairing], k: usize, nothing: &'a Pairing) -> &'a Pairing
    requires nothing { nothing.now ≡ ForNothing }
    ensures { result.now ≡ records.pairing_at (drop k pairings.now) }
{
    match pairings.get(k) {
        None => nothing,
        Some(pairing) => pairing,
    }
}

fn copied(alloc: Global, types: &Items<TypeNo>) -> Result<Items<TypeNo>, NoMemory>
    ensures { IfOk result (λ ts. ts ≡ types.now) }
{
    let mut copy = Vec::new(alloc);
    copy.extend_from_slice(types.as_slice())?;
    Ok(Items::from_vec(copy))
}

/// The slot of the value of an association. It fails for want of memory alone.
pub fn value_slot(alloc: Global, pairing: &Pairing) -> Result<Slot, NoMemory>
    ensures { IfOk result (λ s. s ≡ records.value_slot pairing.now) }
{
    match pairing {
        Pairing::ForComponents(of) => Ok(Slot::Shared(copied(alloc, of)?)),
        Pairing::ForElements(_, of) => Ok(Slot::Given(Some(ExprType::Of(*of)))),
        Pairing::ForNothing => Ok(Slot::Alone),
    }
}

/// A list of one and more. It fails for want of memory alone.
pub fn joined(alloc: Global, first: ExprNo, rest: &[ExprNo]) -> Result<Vec<ExprNo>, NoMemory>
    ensures { IfOk result (λ v. v.items ≡ first ∷ rest.now) }
{
    let mut all = Vec::new(alloc);
    all.push(first)?;
    all.extend_from_slice(rest)?;
    Ok(all)
}

/// What the associations of an aggregate break. `choices` are those of elements, with what each covers; components go by their names.
/// It fails for want of memory alone.
pub fn refuse_associations(
    scene: &Scene,
    found: &mut Findings,
    at: Pos,
    pairs: &[ExprNo],
    choices: &[Placed],
    shape: Option<&Shape>,
) -> Result<(), NoMemory>
    ensures { OnOk result (found.new ≡ add_all found.old (named_found (context_of scene.now) at (map (tree scene.now) pairs.now) choices.now (option_copied shape.entry))) }
{
    match shape {
        Some(Shape::Fields(fields)) => {
            refuse_components(
                scene.alloc,
                scene.units,
                scene.tables,
                found,
                at,
                fields,
                pairs,
            )
        }
        Some(Shape::Array { index, .. }) => {
            let range = scene.tables.types.bounds(scene.place.home, *index);
            refuse_choices(scene.alloc, found, at, choices, range)
        }
        _ => Ok(()),
    }
}

/// An aggregate, which has the type that is wanted, if that has components.
pub fn aggregate_sense(scene: &Scene, found: &mut Findings, reading: Reading, e: ExprNo) -> Sense
    ensures entity { result.entity ≡ aggregate_read (context_of scene.now) reading }
    ensures said { result.said ≡ says.nothing_said }
    ensures begins { result.edges.begins ≡ outlines.begins (tree scene.now e) }
    ensures ending { result.edges.ending ≡ None }
    ensures found { found.new ≡ add_all found.old (has_type e (entities.type_in (aggregate_read (context_of scene.now) reading))) }
{
    let entity = aggregate(scene.tables, scene.place, reading);
    tell_type(found, e, type_in(entity));
    Sense {
        entity,
        ..other_sense(scene, e)
    }
}

/// What is no value: it says nothing.
pub fn other_sense(scene: &Scene, e: ExprNo) -> Sense
    ensures entity { result.entity ≡ Nothing }
    ensures said { result.said ≡ says.nothing_said }
    ensures begins { result.edges.begins ≡ outlines.begins (tree scene.now e) }
    ensures ending { result.edges.ending ≡ None }
{
    Sense {
        entity: Entity::Nothing,
        said: nothing_said(),
        edges: Edges {
            begins: begins(scene.units, e),
            ending: None,
        },
    }
}
