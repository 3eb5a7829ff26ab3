//! What an expression is, by what its parts are.
ghost use Rattle.std.specs.Prelude.{◌≡◌, ◌++◌, true, Some};
ghost use Rattle.ada_forms.specs.Forms as forms;
ghost use Rattle.expr_scenes.specs.Overs.{no_sense as none, own_found, sense_in, sense_of};
ghost use Rattle.expr_scenes.specs.Scenes.{context_of, tree};
ghost use Rattle.expr_outlines.specs.Outlines as outlines;
ghost use Rattle.expr_rules.specs.Operands.{is_turned};
ghost use Rattle.name_findings.specs.Findings.{add_all};
ghost use Rattle.part_slots.specs.declared.readings.Reading.TheVariants.{AsName, Free};
ghost use Rattle.value_rules.specs.Operators as operators;
ghost use Rattle.value_rules.specs.Tellings.{has_type};
ghost use Rattle.seen_names.specs.Entities as entities;
ghost use Rattle.static_eval.specs.Judgements as says;

use crate::scene::Scene;
use ada_forms::BinaryOperator;
use expr_outlines::{Edges, edges_over, no_edges};
use expr_rules::read_name;
use name_findings::Findings;
use part_slots::Reading;
use seen_names::{Entity, made, type_in};
use seen_types::ExprType;
use spark_base::{ExprNo, Name, Pos};
use static_eval::{Judgement, binary, identifier, literal, nothing_said, selected};
use value_rules::{
    Operand, meaning_of, named_entity, refuse_binary, refuse_number, selected_entity, take_prefix,
    tell_name, tell_selection, tell_type,
};

/// What an expression is, as it is read.
#[derive(Clone, Copy, Debug)]
pub struct Sense {
    /// What it stands for; its type is that of what has a value.
    pub entity: Entity,
    /// What is said of its static value.
    pub said: Judgement,
    /// Where it begins, and the word that ends it.
    pub edges: Edges,
}

impl Sense {
    pub fn operand(self) -> Operand
        ensures entity { result.entity ≡ self.entity }
        ensures said { result.said ≡ self.said }
    {
        Operand {
            entity: self.entity,
            said: self.said,
        }
    }
}

/// That of no expression.
pub fn no_sense() -> Sense
    ensures { result ≡ none }
{
    Sense {
        entity: Entity::Nothing,
        said: nothing_said(),
        edges: no_edges(),
    }
}

/// A number.
pub fn number_sense(scene: &Scene, found: &mut Findings, e: ExprNo, at: Pos, n: u128) -> Sense
    requires tree { tree scene.now e ≡ forms.Number e at n }
    ensures sense { result ≡ sense_of (context_of scene.now) Free (tree scene.now e) }
    ensures found { found.new ≡ add_all found.old (own_found (context_of scene.now) Free (tree scene.now e)) }
{
    refuse_number(found, at, n);
    Sense {
        entity: made(true, Some(ExprType::AnyInteger)),
        said: literal(at, n),
        edges: edges_over(scene.units, e, no_edges()),
    }
}

/// A name of one word.
#[tactic(auto, using(name_findings::proofs::Joined::add_append))]
pub fn identifier_sense(
    scene: &Scene,
    found: &mut Findings,
    reading: Reading,
    e: ExprNo,
    at: Pos,
    name: &Name,
) -> Sense
    requires tree { tree scene.now e ≡ forms.Identifier e at name.now }
    ensures sense { result ≡ sense_of (context_of scene.now) reading (tree scene.now e) }
    ensures found { found.new ≡ add_all found.old (own_found (context_of scene.now) reading (tree scene.now e)) }
{
    tell_name(found, e, at, scene.tables.visible(name));
    let named = named_entity(scene.tables, scene.place, e, at, name);
    Sense {
        entity: read_name(scene.tables, scene.place, found, reading, e, at, named),
        said: identifier(at, meaning_of(scene.tables, scene.place, named)),
        edges: edges_over(scene.units, e, no_edges()),
    }
}

/// A name behind a prefix and a point.
#[tactic(auto, using(name_findings::proofs::Joined::add_append))]
pub fn selected_sense(
    scene: &Scene,
    found: &mut Findings,
    reading: Reading,
    e: ExprNo,
    at: Pos,
    name: &Name,
    prefix: ExprNo,
    first: Sense,
) -> Sense
    requires tree { tree scene.now e ≡ forms.Selected e at name.now (tree scene.now prefix) }
    requires first { first ≡ sense_of (context_of scene.now) AsName (tree scene.now prefix) }
    ensures sense { result ≡ sense_of (context_of scene.now) reading (tree scene.now e) }
    ensures found { found.new ≡ add_all found.old (own_found (context_of scene.now) reading (tree scene.now e)) }
{
    take_prefix(
        scene.units,
        scene.tables,
        scene.place,
        found,
        prefix,
        first.entity,
    );
    let selection = scene.tables.selection(scene.place, name, first.entity);
    tell_selection(found, e, at, selection);
    let chosen = selected_entity(scene.tables, scene.place, e, at, name, first.entity);
    Sense {
        entity: read_name(scene.tables, scene.place, found, reading, e, at, chosen),
        said: selected(
            at,
            meaning_of(scene.tables, scene.place, chosen),
            first.said,
        ),
        edges: edges_over(scene.units, e, first.edges),
    }
}

/// An operator between two operands.
#[tactic(auto, using(name_findings::proofs::Joined::add_append))]
pub fn operator_sense(
    scene: &Scene,
    found: &mut Findings,
    e: ExprNo,
    at: Pos,
    operator: BinaryOperator,
    place: Pos,
    left: Sense,
    right: Sense,
) -> Sense
    requires edges { left.edges ≡ outlines.edges_in (outlines.beginning (tree scene.now e)) }
    ensures entity { result.entity ≡ operators.binary (context_of scene.now) operator left.entity right.entity }
    ensures said { result.said ≡ says.binary operator at place left.said right.said }
    ensures edges { result.edges ≡ outlines.edges (tree scene.now e) }
    ensures found { found.new ≡ add_all found.old (operators.binary_found (context_of scene.now) operator place left.edges.begins left.entity right.entity left.said right.said ++ has_type e (entities.type_in (operators.binary (context_of scene.now) operator left.entity right.entity))) }
{
    let start = left.edges.begins;
    refuse_binary(
        scene.tables,
        scene.place,
        found,
        operator,
        place,
        start,
        left.operand(),
        right.operand(),
    );
    let entity = value_rules::binary(
        scene.tables,
        scene.place,
        operator,
        left.entity,
        right.entity,
    );
    tell_type(found, e, type_in(entity));
    Sense {
        entity,
        said: binary(operator, at, place, left.said, right.said),
        edges: edges_over(scene.units, e, left.edges),
    }
}
