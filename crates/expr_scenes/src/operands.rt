//! What operators, memberships and values in other values are, by what their parts are.
ghost use Rattle.std.specs.Prelude.{◌≡◌, ◌++◌, false, true, IfOk, OnOk};
ghost use Rattle.ada_forms.specs.Forms as forms;
ghost use Rattle.expr_outlines.specs.Outlines.{begins};
ghost use Rattle.expr_rules.specs.Operands.{is_turned, right_reading};
ghost use Rattle.expr_scenes.specs.Overs.{sense_of};
ghost use Rattle.expr_scenes.specs.Scenes.{context_of, tree};
ghost use Rattle.expr_scenes.specs.Statics.{said};
ghost use Rattle.expr_scenes.specs.Typing.{meant, type_of};
ghost use Rattle.expr_outlines.specs.Outlines as outlines;
ghost use Rattle.name_findings.specs.Findings as findings;
ghost use Rattle.name_findings.specs.Findings.{add_all};
ghost use Rattle.name_marks.specs.Marks as marks;
ghost use Rattle.part_slots.specs.Readings.{as_reading, expecting, tested_reading};
ghost use Rattle.part_slots.specs.declared.readings.Reading.TheVariants.{Free};
ghost use Rattle.seen_names.specs.Contexts.{sight_at};
ghost use Rattle.seen_types.specs.Types.{misfits};
ghost use Rattle.spark_messages.specs.declared.messages.Code.TheVariants.{Y04};
ghost use Rattle.value_rules.specs.Operators as operators;
ghost use Rattle.value_rules.specs.Tellings.{has_type};

use crate::scene::Scene;
use crate::senses::{Sense, operator_sense};
use ada_forms::{BinaryOperator, UnaryOperator};
use expr_outlines::{edges_over, no_edges};
use name_findings::Findings;
use name_marks::read_mark;
use part_slots::Reading;
use seen_names::type_in;
use spark_base::{ExprNo, NoMemory, Pos};
use spark_messages::Code;
use static_eval::{in_mark, in_range, passed, unary};
use value_rules::{
    mark_said, meant_within, refuse_in_range, refuse_silent, refuse_unary, tell_type, unary_entity,
};

/// A value in parentheses.
pub fn parenthesized_sense(
    scene: &Scene,
    found: &mut Findings,
    reading: Reading,
    e: ExprNo,
    at: Pos,
    inner: ExprNo,
    sense: Sense,
) -> Sense
    requires tree { tree scene.now e ≡ forms.Parenthesized e at (tree scene.now inner) }
    requires sense { sense ≡ sense_of (context_of scene.now) (as_reading reading) (tree scene.now inner) }
    ensures sense { result ≡ sense_of (context_of scene.now) reading (tree scene.now e) }
    ensures found { found.new ≡ add_all found.old (has_type e (type_of (context_of scene.now) reading (tree scene.now e))) }
{
    let entity = meant_within(sense.entity);
    tell_type(found, e, type_in(entity));
    Sense {
        entity,
        said: passed(at, sense.said),
        edges: edges_over(scene.units, e, no_edges()),
    }
}

/// What an argument passes.
pub fn argument_sense(
    scene: &Scene,
    reading: Reading,
    e: ExprNo,
    at: Pos,
    value: ExprNo,
    sense: Sense,
) -> Sense
    requires tree { tree scene.now e ≡ forms.Argument e at (tree scene.now value) }
    requires sense { sense ≡ sense_of (context_of scene.now) (as_reading reading) (tree scene.now value) }
    ensures { result ≡ sense_of (context_of scene.now) reading (tree scene.now e) }
{
    Sense {
        entity: sense.entity,
        said: passed(at, sense.said),
        edges: edges_over(scene.units, e, sense.edges),
    }
}

/// What an argument passes to a formal that it names.
pub fn named_argument_sense(
    scene: &Scene,
    reading: Reading,
    e: ExprNo,
    at: Pos,
    formal: ExprNo,
    value: ExprNo,
    sense: Sense,
) -> Sense
    requires tree { tree scene.now e ≡ forms.NamedArgument e at (tree scene.now formal) (tree scene.now value) }
    requires sense { sense ≡ sense_of (context_of scene.now) (as_reading reading) (tree scene.now value) }
    ensures { result ≡ sense_of (context_of scene.now) reading (tree scene.now e) }
{
    Sense {
        entity: sense.entity,
        said: passed(at, sense.said),
        edges: edges_over(scene.units, e, sense.edges),
    }
}

/// An operator before its operand.
#[tactic(auto, using(name_findings::proofs::Joined::add_append))]
pub fn unary_sense(
    scene: &Scene,
    found: &mut Findings,
    e: ExprNo,
    at: Pos,
    operator: UnaryOperator,
    operand: ExprNo,
    sense: Sense,
) -> Sense
    requires tree { tree scene.now e ≡ forms.Unary e at operator (tree scene.now operand) }
    requires sense { sense ≡ sense_of (context_of scene.now) Free (tree scene.now operand) }
    ensures sense { result ≡ sense_of (context_of scene.now) Free (tree scene.now e) }
    ensures found { found.new ≡ add_all found.old (operators.unary_found (context_of scene.now) operator at (meant (context_of scene.now) Free (tree scene.now operand)) (said (context_of scene.now) (tree scene.now operand)) ++ has_type e (type_of (context_of scene.now) Free (tree scene.now e))) }
{
    let (tables, place) = (scene.tables, scene.place);
    refuse_unary(tables, place, found, operator, at, sense.operand());
    let of = tables
        .types
        .unary_of(place.home, operator, type_in(sense.entity));
    let entity = unary_entity(sense.entity, of);
    tell_type(found, e, type_in(entity));
    Sense {
        entity,
        said: unary(operator, at, sense.said),
        edges: edges_over(scene.units, e, no_edges()),
    }
}

/// An operator, the right operand of which is read by what the left one is.
pub fn right_sense(
    scene: &Scene,
    found: &mut Findings,
    e: ExprNo,
    at: Pos,
    operator: BinaryOperator,
    place: Pos,
    left: ExprNo,
    right: ExprNo,
    first: Sense,
    second: Sense,
) -> Sense
    requires tree { tree scene.now e ≡ forms.Binary e at operator place (tree scene.now left) (tree scene.now right) }
    requires order { is_turned operator (tree scene.now left) (tree scene.now right) ≡ false }
    requires first { first ≡ sense_of (context_of scene.now) Free (tree scene.now left) }
    requires second { second ≡ sense_of (context_of scene.now) (right_reading operator (type_of (context_of scene.now) Free (tree scene.now left))) (tree scene.now right) }
    ensures sense { result ≡ sense_of (context_of scene.now) Free (tree scene.now e) }
    ensures found { found.new ≡ add_all found.old (operators.binary_found (context_of scene.now) operator place (begins (tree scene.now left)) (meant (context_of scene.now) Free (tree scene.now left)) (meant (context_of scene.now) (right_reading operator (type_of (context_of scene.now) Free (tree scene.now left))) (tree scene.now right)) (said (context_of scene.now) (tree scene.now left)) (said (context_of scene.now) (tree scene.now right)) ++ has_type e (type_of (context_of scene.now) Free (tree scene.now e))) }
{
    operator_sense(scene, found, e, at, operator, place, first, second)
}

/// An operator, the left operand of which is read by what the right one is.
pub fn turned_sense(
    scene: &Scene,
    found: &mut Findings,
    e: ExprNo,
    at: Pos,
    operator: BinaryOperator,
    place: Pos,
    left: ExprNo,
    right: ExprNo,
    first: Sense,
    second: Sense,
) -> Sense
    requires tree { tree scene.now e ≡ forms.Binary e at operator place (tree scene.now left) (tree scene.now right) }
    requires order { is_turned operator (tree scene.now left) (tree scene.now right) ≡ true }
    requires first { first ≡ sense_of (context_of scene.now) (expecting (type_of (context_of scene.now) Free (tree scene.now right))) (tree scene.now left) }
    requires second { second ≡ sense_of (context_of scene.now) Free (tree scene.now right) }
    ensures sense { result ≡ sense_of (context_of scene.now) Free (tree scene.now e) }
    ensures found { found.new ≡ add_all found.old (operators.binary_found (context_of scene.now) operator place (begins (tree scene.now left)) (meant (context_of scene.now) (expecting (type_of (context_of scene.now) Free (tree scene.now right))) (tree scene.now left)) (meant (context_of scene.now) Free (tree scene.now right)) (said (context_of scene.now) (tree scene.now left)) (said (context_of scene.now) (tree scene.now right)) ++ has_type e (type_of (context_of scene.now) Free (tree scene.now e))) }
{
    operator_sense(scene, found, e, at, operator, place, first, second)
}

/// A membership in a range.
#[tactic(auto, using(name_findings::proofs::Joined::add_append))]
pub fn in_range_sense(
    scene: &Scene,
    found: &mut Findings,
    e: ExprNo,
    at: Pos,
    is_not: bool,
    parts: (ExprNo, ExprNo, ExprNo),
    value: Sense,
    low: Sense,
    high: Sense,
) -> Sense
    requires tree { tree scene.now e ≡ forms.InRange e at is_not (tree scene.now parts.0) (tree scene.now parts.1) (tree scene.now parts.2) }
    requires value { value ≡ sense_of (context_of scene.now) (tested_reading (outlines.is_aggregate (tree scene.now parts.0))) (tree scene.now parts.0) }
    requires low { low ≡ sense_of (context_of scene.now) Free (tree scene.now parts.1) }
    requires high { high ≡ sense_of (context_of scene.now) Free (tree scene.now parts.2) }
    ensures sense { result ≡ sense_of (context_of scene.now) Free (tree scene.now e) }
    ensures found { found.new ≡ add_all found.old (operators.in_range_found (context_of scene.now) (begins (tree scene.now parts.0)) (type_of (context_of scene.now) (tested_reading (outlines.is_aggregate (tree scene.now parts.0))) (tree scene.now parts.0)) (type_of (context_of scene.now) Free (tree scene.now parts.1)) (type_of (context_of scene.now) Free (tree scene.now parts.2)) ++ has_type e (type_of (context_of scene.now) Free (tree scene.now e))) }
{
    let (tables, place) = (scene.tables, scene.place);
    let (a, b, c) = (
        type_in(value.entity),
        type_in(low.entity),
        type_in(high.entity),
    );
    refuse_in_range(tables, place, found, value.edges.begins, a, b, c);
    let entity = value_rules::in_range(tables, place, value.entity, low.entity, high.entity);
    tell_type(found, e, type_in(entity));
    Sense {
        entity,
        said: in_range(at, is_not, value.said, low.said, high.said),
        edges: edges_over(scene.units, e, value.edges),
    }
}

/// A membership in a subtype. It fails for want of memory alone.
#[tactic(auto, using(name_findings::proofs::Joined::add_append))]
pub fn in_mark_sense(
    scene: &Scene,
    found: &mut Findings,
    e: ExprNo,
    at: Pos,
    is_not: bool,
    value: ExprNo,
    mark: ExprNo,
    sense: Sense,
) -> Result<Sense, NoMemory>
    requires tree { tree scene.now e ≡ forms.InMark e at is_not (tree scene.now value) (tree scene.now mark) }
    requires sense { sense ≡ sense_of (context_of scene.now) (tested_reading (outlines.is_aggregate (tree scene.now value))) (tree scene.now value) }
    ensures sense { IfOk result (λ s. s ≡ sense_of (context_of scene.now) Free (tree scene.now e)) }
    ensures found { OnOk result (found.new ≡ add_all found.old (marks.mark_found (context_of scene.now) (tree scene.now mark) ++ (findings.refuse_silent (misfits (sight_at (context_of scene.now)) (type_of (context_of scene.now) (tested_reading (outlines.is_aggregate (tree scene.now value))) (tree scene.now value)) (marks.mark_of (context_of scene.now) (tree scene.now mark))) Y04 (begins (tree scene.now value)) ++ has_type e (type_of (context_of scene.now) Free (tree scene.now e))))) }
{
    let (units, tables, place) = (scene.units, scene.tables, scene.place);
    let mark = read_mark(scene.alloc, units, tables, place, found, mark)?;
    let of = type_in(sense.entity);
    let misfits = tables.types.misfits(place.home, of, mark);
    refuse_silent(found, misfits, Code::Y04, sense.edges.begins);
    let entity = unary_entity(sense.entity, tables.types.in_mark_of(place.home, of, mark));
    tell_type(found, e, type_in(entity));
    let mark = mark_said(tables, place, at, mark);
    Ok(Sense {
        entity,
        said: in_mark(at, is_not, sense.said, mark),
        edges: edges_over(units, e, sense.edges),
    })
}
