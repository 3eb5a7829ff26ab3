//! What aggregates, choices and conditional expressions are, by what their parts are.
ghost use Rattle.std.specs.Prelude.{◌≡◌, ◌+◌, ◌++◌, ◌∷◌, map, IfOk, OnOk, Some};
ghost use Rattle.ada_forms.specs.Forms as forms;
ghost use Rattle.choice_covers.specs.Covers as covers;
ghost use Rattle.expr_outlines.specs.Outlines.{begins as beginning, count_of, trees};
ghost use Rattle.expr_rules.specs.Aggregates.{is_unexpected, named_found, positional_found, wanted_shape as shape_wanted};
ghost use Rattle.expr_rules.specs.Choices.{choice_reading};
ghost use Rattle.expr_scenes.specs.Choices.{all_placed, bound_found, bound_value, covering, name_or_value_found};
ghost use Rattle.expr_scenes.specs.Overs.{sense_of};
ghost use Rattle.expr_scenes.specs.Scenes.{context_of, tree, trees_of};
ghost use Rattle.expr_scenes.specs.Statics.{said, said_all};
ghost use Rattle.expr_scenes.specs.Typing.{branches, meant, type_of};
ghost use Rattle.name_findings.specs.Findings as findings;
ghost use Rattle.name_findings.specs.Findings.{add_all};
ghost use Rattle.part_slots.specs.Readings.{as_reading};
ghost use Rattle.part_slots.specs.Records as records;
ghost use Rattle.part_slots.specs.declared.readings.Reading.TheVariants.{Free};
ghost use Rattle.spark_messages.specs.declared.messages.Code.TheVariants.{Y04};
ghost use Rattle.value_rules.specs.Branches.{no_branches, with_condition};
ghost use Rattle.value_rules.specs.Tellings.{has_type};

use crate::aggregates::{aggregate_sense, joined, refuse_associations};
use crate::scene::Scene;
use crate::senses::Sense;
use choice_covers::{Covering, Placed, between};
use expr_outlines::{edges_over, no_edges};
use expr_rules::{
    fitting_value, pairings_for, refuse_chosen, refuse_unexpected, refuse_value_choice,
    refuse_values, value_covering, wanted_shape,
};
use name_findings::Findings;
use part_slots::{Pairing, Reading, Slot, positional_slots};
use seen_names::type_in;
use spark_base::{ExprNo, Items, NoMemory, Pos, TypeNo};
use static_eval::{Judgement, conditional};
use value_rules::{Branches, tell_type};

/// What the branches of a conditional expression are.
#[derive(Drop)]
pub struct Tried {
    pub branches: Branches,
    /// What is said of the first condition, and of those behind it.
    pub said: Vec<Judgement>,
}

/// A conditional expression.
pub fn conditional_sense(
    scene: &Scene,
    found: &mut Findings,
    reading: Reading,
    e: ExprNo,
    at: Pos,
    condition: ExprNo,
    rest: &[ExprNo],
    tried: &Tried,
) -> Sense
    requires tree { tree scene.now e ≡ forms.Conditional e at (tree scene.now condition) (trees_of scene.now rest.now) }
    requires branches { tried.now.branches ≡ branches (context_of scene.now) (as_reading reading) (with_condition no_branches (meant (context_of scene.now) Free (tree scene.now condition))) (trees_of scene.now rest.now) }
    requires said { tried.now.said.items ≡ said (context_of scene.now) (tree scene.now condition) ∷ said_all (context_of scene.now) (trees_of scene.now rest.now) }
    ensures sense { result ≡ sense_of (context_of scene.now) reading (tree scene.now e) }
    ensures found { found.new ≡ add_all found.old (has_type e (type_of (context_of scene.now) reading (tree scene.now e))) }
{
    let entity = value_rules::conditional(tried.branches);
    tell_type(found, e, type_in(entity));
    Sense {
        entity,
        said: conditional(at, tried.said.as_slice()),
        edges: edges_over(scene.units, e, no_edges()),
    }
}

/// The slots of the values of an aggregate without names, which is refused where no composite type is wanted. It fails for want of
/// memory alone.
#[tactic(auto, using(crate::proofs::Lists::count_listed))]
pub fn slots_of_values(
    scene: &Scene,
    found: &mut Findings,
    reading: Reading,
    at: Pos,
    has_others: bool,
    rest: &[ExprNo],
) -> Result<Items<Slot>, NoMemory>
    ensures slots { IfOk result (λ s. s ≡ records.positional_slots (shape_wanted (context_of scene.now) reading) has_others (count_of (trees_of scene.now rest.now) + 1)) }
    ensures found { OnOk result (found.new ≡ add_all found.old (findings.refuse_silent (is_unexpected reading (shape_wanted (context_of scene.now) reading)) Y04 at)) }
{
    let shape = wanted_shape(scene.tables, scene.place, reading);
    refuse_unexpected(found, reading, shape, at);
    positional_slots(scene.alloc, shape, has_others, rest.len() + 1)
}

/// An aggregate without names, with the places at which its values begin.
#[tactic(auto, using(name_findings::proofs::Joined::add_append, crate::proofs::Lists::trees_listed))]
pub fn positional_sense(
    scene: &Scene,
    found: &mut Findings,
    reading: Reading,
    e: ExprNo,
    at: Pos,
    has_others: bool,
    first: ExprNo,
    rest: &[ExprNo],
    starts: &[Pos],
) -> Sense
    requires tree { tree scene.now e ≡ forms.Positional e at has_others (tree scene.now first) (trees_of scene.now rest.now) }
    requires starts { starts.now ≡ map beginning (tree scene.now first ∷ map (tree scene.now) rest.now) }
    ensures sense { result ≡ sense_of (context_of scene.now) reading (tree scene.now e) }
    ensures found { found.new ≡ add_all found.old (positional_found (context_of scene.now) at has_others (map beginning (tree scene.now first ∷ trees (trees_of scene.now rest.now))) (shape_wanted (context_of scene.now) reading) ++ has_type e (type_of (context_of scene.now) reading (tree scene.now e))) }
{
    let (tables, place) = (scene.tables, scene.place);
    let shape = wanted_shape(tables, place, reading);
    refuse_values(tables, place, found, at, has_others, starts, shape);
    aggregate_sense(scene, found, reading, e)
}

/// The associations of an aggregate, and how each is read.
#[derive(Drop)]
pub struct Associations {
    pub pairs: Vec<ExprNo>,
    pub pairings: Items<Pairing>,
}

/// The associations of an aggregate with names, which is refused where no composite type is wanted. It fails for want of memory alone.
#[tactic(auto, using(crate::proofs::Lists::trees_listed))]
pub fn associations_of(
    scene: &Scene,
    found: &mut Findings,
    reading: Reading,
    at: Pos,
    first: ExprNo,
    rest: &[ExprNo],
) -> Result<Associations, NoMemory>
    ensures pairs { IfOk result (λ a. a.pairs.items ≡ first ∷ rest.now) }
    ensures pairings { IfOk result (λ a. a.pairings ≡ records.pairings_for (context_of scene.now).tables (shape_wanted (context_of scene.now) reading) (tree scene.now first ∷ trees (trees_of scene.now rest.now))) }
    ensures found { OnOk result (found.new ≡ add_all found.old (findings.refuse_silent (is_unexpected reading (shape_wanted (context_of scene.now) reading)) Y04 at)) }
{
    let (units, tables) = (scene.units, scene.tables);
    let shape = wanted_shape(tables, scene.place, reading);
    refuse_unexpected(found, reading, shape, at);
    let pairs = joined(scene.alloc, first, rest)?;
    let pairings = pairings_for(scene.alloc, units, tables, shape, pairs.as_slice())?;
    Ok(Associations { pairs, pairings })
}

/// An aggregate with names, with what its choices cover. It fails for want of memory alone.
#[tactic(auto, using(name_findings::proofs::Joined::add_append, crate::proofs::Lists::trees_listed))]
pub fn named_sense(
    scene: &Scene,
    found: &mut Findings,
    reading: Reading,
    e: ExprNo,
    at: Pos,
    first: ExprNo,
    rest: &[ExprNo],
    pairs: &[ExprNo],
    choices: &[Placed],
) -> Result<Sense, NoMemory>
    requires tree { tree scene.now e ≡ forms.Named e at (tree scene.now first) (trees_of scene.now rest.now) }
    requires pairs { pairs.now ≡ first ∷ rest.now }
    requires choices { choices.now ≡ all_placed (context_of scene.now) (records.pairings_for (context_of scene.now).tables (shape_wanted (context_of scene.now) reading) (tree scene.now first ∷ trees (trees_of scene.now rest.now))) (tree scene.now first ∷ trees (trees_of scene.now rest.now)) }
    ensures sense { IfOk result (λ s. s ≡ sense_of (context_of scene.now) reading (tree scene.now e)) }
    ensures found { OnOk result (found.new ≡ add_all found.old (named_found (context_of scene.now) at (tree scene.now first ∷ trees (trees_of scene.now rest.now)) (all_placed (context_of scene.now) (records.pairings_for (context_of scene.now).tables (shape_wanted (context_of scene.now) reading) (tree scene.now first ∷ trees (trees_of scene.now rest.now))) (tree scene.now first ∷ trees (trees_of scene.now rest.now))) (shape_wanted (context_of scene.now) reading) ++ has_type e (type_of (context_of scene.now) reading (tree scene.now e)))) }
{
    let shape = wanted_shape(scene.tables, scene.place, reading);
    refuse_associations(scene, found, at, pairs, choices, shape)?;
    Ok(aggregate_sense(scene, found, reading, e))
}

/// What a choice that is a name or a value covers among the values of a type.
pub fn value_choice_covering(
    scene: &Scene,
    found: &mut Findings,
    of: TypeNo,
    e: ExprNo,
    at: Pos,
    value: ExprNo,
    sense: Sense,
) -> Covering
    requires tree { tree scene.now e ≡ forms.ValueChoice e at (tree scene.now value) }
    requires sense { sense ≡ sense_of (context_of scene.now) (choice_reading (tree scene.now value)) (tree scene.now value) }
    ensures covering { result ≡ covering (context_of scene.now) of (tree scene.now e) }
    ensures found { found.new ≡ add_all found.old (name_or_value_found (context_of scene.now) (Some of) (tree scene.now value)) }
{
    let (units, tables, place) = (scene.units, scene.tables, scene.place);
    let (start, entity, said) = (sense.edges.begins, sense.entity, sense.said);
    refuse_value_choice(
        units,
        tables,
        place,
        found,
        Some(of),
        value,
        start,
        entity,
        said,
    );
    value_covering(units, tables, place, of, value, entity, said)
}

/// The value of a bound of a choice among the values of a type.
fn chosen_bound(
    scene: &Scene,
    found: &mut Findings,
    of: TypeNo,
    bound: ExprNo,
    sense: Sense,
) -> Option<i128>
    requires sense { sense ≡ sense_of (context_of scene.now) Free (tree scene.now bound) }
    ensures value { result ≡ bound_value (context_of scene.now) of (tree scene.now bound) }
    ensures found { found.new ≡ add_all found.old (bound_found (context_of scene.now) (Some of) (tree scene.now bound)) }
{
    let (tables, place) = (scene.tables, scene.place);
    let (start, entity, said) = (sense.edges.begins, sense.entity, sense.said);
    refuse_chosen(tables, place, found, Some(of), start, entity, said);
    fitting_value(tables, place, of, entity, said)
}

/// What a choice that is a range covers among the values of a type.
#[tactic(auto, using(name_findings::proofs::Joined::add_append))]
pub fn range_choice_covering(
    scene: &Scene,
    found: &mut Findings,
    of: TypeNo,
    e: ExprNo,
    at: Pos,
    bounds: (ExprNo, ExprNo),
    low: Sense,
    high: Sense,
) -> Covering
    requires tree { tree scene.now e ≡ forms.RangeChoice e at (tree scene.now bounds.0) (tree scene.now bounds.1) }
    requires low { low ≡ sense_of (context_of scene.now) Free (tree scene.now bounds.0) }
    requires high { high ≡ sense_of (context_of scene.now) Free (tree scene.now bounds.1) }
    ensures covering { result ≡ covering (context_of scene.now) of (tree scene.now e) }
    ensures found { found.new ≡ add_all found.old (bound_found (context_of scene.now) (Some of) (tree scene.now bounds.0) ++ bound_found (context_of scene.now) (Some of) (tree scene.now bounds.1)) }
{
    let from = chosen_bound(scene, found, of, bounds.0, low);
    let to = chosen_bound(scene, found, of, bounds.1, high);
    between(from, to)
}
