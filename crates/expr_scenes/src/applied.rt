//! What stands behind a prefix is, by what the prefix and the other parts are.
ghost use Rattle.std.specs.Prelude.{◌≡◌, ◌++◌, ◌∷◌, IfOk, OnOk};
ghost use Rattle.ada_forms.specs.AttributeWords as words;
ghost use Rattle.ada_forms.specs.Forms as forms;
ghost use Rattle.ada_forms.specs.declared.attributes.Property.TheVariants.{First};
ghost use Rattle.expr_outlines.specs.Outlines.{begins, count_of, ending, trees};
ghost use Rattle.expr_rules.specs.Arguments.{given_by};
ghost use Rattle.expr_scenes.specs.Overs.{sense_of};
ghost use Rattle.expr_scenes.specs.Scenes.{context_of, tree, trees_of};
ghost use Rattle.expr_scenes.specs.Statics.{said, said_all};
ghost use Rattle.expr_scenes.specs.Typing.{meant, meant_parts, type_of};
ghost use Rattle.name_findings.specs.Findings.{add_all};
ghost use Rattle.part_slots.specs.Calls as calls;
ghost use Rattle.part_slots.specs.Readings as readings;
ghost use Rattle.part_slots.specs.declared.readings.Reading.TheVariants.{AsName, Free};
ghost use Rattle.seen_names.specs.Applications as applications;
ghost use Rattle.seen_names.specs.Entities as entities;
ghost use Rattle.value_rules.specs.Applications.{application_found, no_mark_found, only_entity as only, product_faults};
ghost use Rattle.value_rules.specs.Attributes.{gift_found, range_found};
ghost use Rattle.value_rules.specs.Names as names;
ghost use Rattle.value_rules.specs.Standings.{unfit_found};
ghost use Rattle.value_rules.specs.Statics.{attribute_faults};
ghost use Rattle.value_rules.specs.Tellings.{has_type};

use crate::scene::Scene;
use crate::senses::Sense;
use ada_forms::{Property, property_of};
use expr_outlines::edges_over;
use name_findings::Findings;
use part_slots::{Actuals, Reading, Slot, arranged, expecting, gift_slots, has_value};
use seen_names::{Entity, sure_in, type_in};
use spark_base::{ExprNo, Items, Name, NoMemory, Pos};
use static_eval::{Judgement, applied, attribute, nothing_said, qualified};
use value_rules::{
    Passed, applied_to, attribute_of, mark_type, meaning_of, only_entity, refuse_application,
    refuse_attribute_faults, refuse_gift, refuse_no_type, refuse_product_faults, refuse_range,
    refuse_unfit, take_bearer, tell_type,
};

/// The slots of the arguments behind a prefix. It fails for want of memory alone.
#[tactic(auto, using(crate::proofs::Lists::trees_listed))]
pub fn actuals_behind(
    scene: &Scene,
    prefix: ExprNo,
    arguments: &[ExprNo],
    first: Sense,
) -> Result<Actuals, NoMemory>
    requires first { first ≡ sense_of (context_of scene.now) AsName (tree scene.now prefix) }
    ensures slots { IfOk result (λ a. a.slots ≡ calls.argument_slots (context_of scene.now).tables (applications.application (context_of scene.now) (meant (context_of scene.now) AsName (tree scene.now prefix))) (trees (trees_of scene.now arguments.now))) }
    ensures wrong { IfOk result (λ a. a.are_wrong ≡ calls.are_unfit (context_of scene.now).tables (applications.application (context_of scene.now) (meant (context_of scene.now) AsName (tree scene.now prefix))) (trees (trees_of scene.now arguments.now))) }
{
    let application = scene.tables.application(scene.place, first.entity);
    arranged(
        scene.alloc,
        scene.units,
        scene.tables,
        application,
        arguments,
    )
}

/// What the parts of a list are.
#[derive(Drop)]
pub struct Parts {
    pub entities: Vec<Entity>,
    /// What is said of what stands before the first, and of these.
    pub said: Vec<Judgement>,
}

/// What stands in parentheses behind a prefix, with the prefix. It fails for want of memory alone.
#[tactic(auto, using(name_findings::proofs::Joined::add_append, crate::proofs::Lists::trees_listed))]
pub fn applied_sense(
    scene: &Scene,
    found: &mut Findings,
    e: ExprNo,
    at: Pos,
    prefix: ExprNo,
    arguments: &[ExprNo],
    first: Sense,
    are_unfit: bool,
    parts: &Parts,
) -> Result<Sense, NoMemory>
    requires tree { tree scene.now e ≡ forms.Applied e at (tree scene.now prefix) (trees_of scene.now arguments.now) }
    requires first { first ≡ sense_of (context_of scene.now) AsName (tree scene.now prefix) }
    requires wrong { are_unfit ≡ calls.are_unfit (context_of scene.now).tables (applications.application (context_of scene.now) (meant (context_of scene.now) AsName (tree scene.now prefix))) (trees (trees_of scene.now arguments.now)) }
    requires entities { parts.now.entities.items ≡ meant_parts (context_of scene.now) (calls.argument_slots (context_of scene.now).tables (applications.application (context_of scene.now) (meant (context_of scene.now) AsName (tree scene.now prefix))) (trees (trees_of scene.now arguments.now))) (trees_of scene.now arguments.now) }
    requires said { parts.now.said.items ≡ said (context_of scene.now) (tree scene.now prefix) ∷ said_all (context_of scene.now) (trees_of scene.now arguments.now) }
    ensures sense { IfOk result (λ s. s ≡ sense_of (context_of scene.now) Free (tree scene.now e)) }
    ensures found { OnOk result (found.new ≡ add_all found.old (application_found (context_of scene.now) (ending (tree scene.now prefix)) (begins (tree scene.now prefix)) (calls.are_unfit (context_of scene.now).tables (applications.application (context_of scene.now) (meant (context_of scene.now) AsName (tree scene.now prefix))) (trees (trees_of scene.now arguments.now))) (calls.has_value (trees (trees_of scene.now arguments.now))) (only (meant_parts (context_of scene.now) (calls.argument_slots (context_of scene.now).tables (applications.application (context_of scene.now) (meant (context_of scene.now) AsName (tree scene.now prefix))) (trees (trees_of scene.now arguments.now))) (trees_of scene.now arguments.now))) (applications.application (context_of scene.now) (meant (context_of scene.now) AsName (tree scene.now prefix))) ++ (product_faults at (entities.sure_in (meant (context_of scene.now) Free (tree scene.now e))) (said (context_of scene.now) (tree scene.now prefix) ∷ said_all (context_of scene.now) (trees_of scene.now arguments.now)) (applications.application (context_of scene.now) (meant (context_of scene.now) AsName (tree scene.now prefix))) ++ has_type e (type_of (context_of scene.now) Free (tree scene.now e))))) }
{
    let (tables, place, edges) = (scene.tables, scene.place, first.edges);
    let application = tables.application(place, first.entity);
    let passed = Passed {
        are_unfit,
        has_value: has_value(scene.units, arguments),
        value: only_entity(parts.entities.as_slice()),
    };
    refuse_application(
        tables,
        place,
        found,
        edges.ending,
        edges.begins,
        passed,
        application,
    );
    let entity = applied_to(tables, place, passed, application);
    let said = parts.said.as_slice();
    refuse_product_faults(scene.alloc, found, at, sure_in(entity), said, application)?;
    tell_type(found, e, type_in(entity));
    Ok(Sense {
        entity,
        said: applied(at, meaning_of(tables, place, entity), said),
        edges: edges_over(scene.units, e, edges),
    })
}

/// The slots of the arguments of an attribute, the prefix of which is taken as that asks for. It fails for want of memory alone.
#[tactic(auto, using(crate::proofs::Lists::count_listed))]
pub fn attribute_slots(
    scene: &Scene,
    found: &mut Findings,
    name: &Name,
    prefix: ExprNo,
    arguments: &[ExprNo],
    first: Sense,
) -> Result<Items<Slot>, NoMemory>
    requires first { first ≡ sense_of (context_of scene.now) AsName (tree scene.now prefix) }
    ensures slots { IfOk result (λ s. s ≡ calls.gift_slots (given_by (context_of scene.now) name.now (trees_of scene.now arguments.now) (meant (context_of scene.now) AsName (tree scene.now prefix))) (count_of (trees_of scene.now arguments.now))) }
    ensures found { OnOk result (found.new ≡ add_all found.old (names.bearer_taken (context_of scene.now) (words.property_of name.now.written) (tree scene.now prefix) (meant (context_of scene.now) AsName (tree scene.now prefix)))) }
{
    let (units, tables, place) = (scene.units, scene.tables, scene.place);
    let what = property_of(name.written.as_slice());
    take_bearer(units, tables, place, found, what, prefix, first.entity);
    let gift = tables.gift(place, what, first.entity, arguments.len());
    gift_slots(scene.alloc, gift, arguments.len())
}

/// An attribute, with its prefix and its arguments. It fails for want of memory alone.
#[tactic(auto, using(name_findings::proofs::Joined::add_append, crate::proofs::Lists::count_listed))]
pub fn attribute_sense(
    scene: &Scene,
    found: &mut Findings,
    e: ExprNo,
    at: Pos,
    name: &Name,
    prefix: ExprNo,
    arguments: &[ExprNo],
    first: Sense,
    parts: &Parts,
) -> Result<Sense, NoMemory>
    requires tree { tree scene.now e ≡ forms.Attribute e at name.now (tree scene.now prefix) (trees_of scene.now arguments.now) }
    requires first { first ≡ sense_of (context_of scene.now) AsName (tree scene.now prefix) }
    requires entities { parts.now.entities.items ≡ meant_parts (context_of scene.now) (calls.gift_slots (given_by (context_of scene.now) name.now (trees_of scene.now arguments.now) (meant (context_of scene.now) AsName (tree scene.now prefix))) (count_of (trees_of scene.now arguments.now))) (trees_of scene.now arguments.now) }
    requires said { parts.now.said.items ≡ said (context_of scene.now) (tree scene.now prefix) ∷ said_all (context_of scene.now) (trees_of scene.now arguments.now) }
    ensures sense { IfOk result (λ s. s ≡ sense_of (context_of scene.now) Free (tree scene.now e)) }
    ensures found { OnOk result (found.new ≡ add_all found.old (gift_found (begins (tree scene.now prefix)) at e (given_by (context_of scene.now) name.now (trees_of scene.now arguments.now) (meant (context_of scene.now) AsName (tree scene.now prefix))) ++ (attribute_faults at (entities.sure_in (meant (context_of scene.now) Free (tree scene.now e))) (words.property_of name.now.written) (said (context_of scene.now) (tree scene.now prefix) ∷ said_all (context_of scene.now) (trees_of scene.now arguments.now)) ++ has_type e (type_of (context_of scene.now) Free (tree scene.now e))))) }
{
    let (tables, place, edges) = (scene.tables, scene.place, first.edges);
    let what = property_of(name.written.as_slice());
    let gift = tables.gift(place, what, first.entity, arguments.len());
    refuse_gift(found, edges.begins, at, e, gift);
    let entity = attribute_of(tables, place, gift, parts.entities.as_slice());
    let said = parts.said.as_slice();
    refuse_attribute_faults(scene.alloc, found, at, sure_in(entity), what, said)?;
    tell_type(found, e, type_in(entity));
    Ok(Sense {
        entity,
        said: attribute(at, what, said),
        edges: edges_over(scene.units, e, edges),
    })
}

/// The prefix of a Range attribute, taken as what has bounds.
pub fn take_ranged(scene: &Scene, found: &mut Findings, prefix: ExprNo, first: Sense)
    requires first { first ≡ sense_of (context_of scene.now) AsName (tree scene.now prefix) }
    ensures { found.new ≡ add_all found.old (names.bearer_taken (context_of scene.now) First (tree scene.now prefix) (meant (context_of scene.now) AsName (tree scene.now prefix))) }
{
    let (units, tables, place) = (scene.units, scene.tables, scene.place);
    take_bearer(
        units,
        tables,
        place,
        found,
        Property::First,
        prefix,
        first.entity,
    );
}

/// A Range attribute where no range stands, which has no value.
pub fn range_attribute_sense(
    scene: &Scene,
    found: &mut Findings,
    e: ExprNo,
    at: Pos,
    prefix: ExprNo,
    arguments: &[ExprNo],
    first: Sense,
) -> Sense
    requires tree { tree scene.now e ≡ forms.RangeAttribute e at (tree scene.now prefix) (trees_of scene.now arguments.now) }
    requires first { first ≡ sense_of (context_of scene.now) AsName (tree scene.now prefix) }
    ensures sense { result ≡ sense_of (context_of scene.now) Free (tree scene.now e) }
    ensures found { found.new ≡ add_all found.old (range_found (context_of scene.now) at (meant (context_of scene.now) AsName (tree scene.now prefix))) }
{
    refuse_range(scene.tables, scene.place, found, at, first.entity);
    Sense {
        entity: Entity::Nothing,
        said: nothing_said(),
        edges: edges_over(scene.units, e, first.edges),
    }
}

/// How the value behind a mark is read.
pub fn qualified_reading(scene: &Scene, found: &mut Findings, mark: ExprNo, first: Sense) -> Reading
    requires first { first ≡ sense_of (context_of scene.now) AsName (tree scene.now mark) }
    ensures reading { result ≡ readings.expecting (names.mark_type (meant (context_of scene.now) AsName (tree scene.now mark))) }
    ensures found { found.new ≡ add_all found.old (no_mark_found (ending (tree scene.now mark)) (meant (context_of scene.now) AsName (tree scene.now mark))) }
{
    refuse_no_type(found, first.edges.ending, first.entity);
    expecting(mark_type(first.entity))
}

/// A value behind its mark.
#[tactic(auto, using(name_findings::proofs::Joined::add_append))]
pub fn qualified_sense(
    scene: &Scene,
    found: &mut Findings,
    e: ExprNo,
    at: Pos,
    mark: ExprNo,
    value: ExprNo,
    first: Sense,
    second: Sense,
) -> Sense
    requires tree { tree scene.now e ≡ forms.Qualified e at (tree scene.now mark) (tree scene.now value) }
    requires first { first ≡ sense_of (context_of scene.now) AsName (tree scene.now mark) }
    requires second { second ≡ sense_of (context_of scene.now) (readings.expecting (names.mark_type (meant (context_of scene.now) AsName (tree scene.now mark)))) (tree scene.now value) }
    ensures sense { result ≡ sense_of (context_of scene.now) Free (tree scene.now e) }
    ensures found { found.new ≡ add_all found.old (unfit_found (context_of scene.now) (names.mark_type (meant (context_of scene.now) AsName (tree scene.now mark))) (begins (tree scene.now value)) (type_of (context_of scene.now) (readings.expecting (names.mark_type (meant (context_of scene.now) AsName (tree scene.now mark)))) (tree scene.now value)) ++ has_type e (type_of (context_of scene.now) Free (tree scene.now e))) }
{
    let (tables, place) = (scene.tables, scene.place);
    let of = mark_type(first.entity);
    let start = second.edges.begins;
    refuse_unfit(tables, place, found, of, start, type_in(second.entity));
    let entity = tables.qualified(place, first.entity, second.entity);
    tell_type(found, e, type_in(entity));
    Sense {
        entity,
        said: qualified(at, first.said, second.said),
        edges: edges_over(scene.units, e, first.edges),
    }
}
