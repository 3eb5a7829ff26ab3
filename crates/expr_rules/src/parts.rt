//! What the parts of an expression break in their slots.
ghost use Rattle.std.specs.Prelude.{◌≡◌};
ghost use Rattle.ada_forms.specs.Forms.{expr_of};
ghost use Rattle.expr_outlines.specs.Outlines as outlines;
ghost use Rattle.expr_rules.specs.Parts as spec;
ghost use Rattle.name_findings.specs.Findings.{add_all};
ghost use Rattle.seen_names.specs.Contexts.{context};
ghost use Rattle.seen_types.specs.Types as types;

use ada_tree::Units;
use expr_outlines::{Edges, first_token, is_name};
use name_findings::{Fault, Findings};
use part_slots::{Slot, passed};
use seen_names::{Entity, Place, Tables, type_in};
use seen_types::ExprType;
use spark_base::{ExprNo, TypeNo};
use spark_messages::Code;
use value_rules::{
    is_no_branch, is_no_condition, is_no_number, is_unfit_for_any, refuse_silent, refuse_unfit,
    refuse_written,
};

fn maybe_of(t: Option<TypeNo>) -> Option<ExprType>
    ensures { result ≡ types.maybe_of t }
{
    match t {
        None => None,
        Some(t) => Some(ExprType::Of(t)),
    }
}

/// A target that is no name, or that cannot be written (N06).
pub fn refuse_target(
    units: &Units,
    place: Place,
    found: &mut Findings,
    e: ExprNo,
    edges: Edges,
    entity: Entity,
)
    requires edges { edges ≡ outlines.edges (expr_of units.now.exprs e) }
    ensures { found.new ≡ add_all found.old (spec.target_found place.in_function (expr_of units.now.exprs e) entity) }
{
    if is_name(units, passed(units, e)) {
        refuse_written(place, found, edges.ending, entity);
    } else {
        found.refuse(Fault {
            at: edges.begins,
            code: Code::N06,
            spelling: first_token(units, e),
        });
    }
}

#[tactic(auto, using(name_findings::proofs::Joined::add_append))]
fn refuse_out(
    units: &Units,
    tables: &Tables,
    place: Place,
    found: &mut Findings,
    of: Option<TypeNo>,
    e: ExprNo,
    edges: Edges,
    entity: Entity,
)
    requires edges { edges ≡ outlines.edges (expr_of units.now.exprs e) }
    ensures { found.new ≡ add_all found.old (spec.out_found (context tables.now place) of (expr_of units.now.exprs e) entity) }
{
    refuse_target(units, place, found, e, edges, entity);
    let misfits = tables
        .types
        .misfits(place.home, type_in(entity), maybe_of(of));
    refuse_silent(found, misfits, Code::Y04, edges.begins);
}

/// What a part breaks in its slot, by what it stands for: N06 and Y04 of what an `out` formal is given, Y09 of a value too many,
/// Y04 of any other that has not the type that is asked for. Of a choice nothing is said here.
pub fn refuse_in_slot(
    units: &Units,
    tables: &Tables,
    place: Place,
    found: &mut Findings,
    slot: &Slot,
    e: ExprNo,
    edges: Edges,
    entity: Entity,
)
    requires edges { edges ≡ outlines.edges (expr_of units.now.exprs e) }
    ensures { found.new ≡ add_all found.old (spec.slot_found (context tables.now place) slot.now (expr_of units.now.exprs e) entity) }
{
    let a = type_in(entity);
    let at = edges.begins;
    match slot {
        Slot::Given(of) => refuse_unfit(tables, place, found, *of, at, a),
        Slot::Target(of) => refuse_out(units, tables, place, found, *of, e, edges, entity),
        Slot::Surplus => refuse_silent(found, true, Code::Y09, at),
        Slot::Shared(of) => {
            let is_unfit = is_unfit_for_any(tables, place, a, of.as_slice());
            refuse_silent(found, is_unfit, Code::Y04, at);
        }
        Slot::Condition => {
            refuse_silent(found, is_no_condition(tables, place, a), Code::Y04, at);
        }
        Slot::Branch(_, before) => {
            let is_no_branch = is_no_branch(tables, place, *before, a);
            refuse_silent(found, is_no_branch, Code::Y04, at);
        }
        Slot::Whole => refuse_silent(found, is_no_number(tables, place, a), Code::Y04, at),
        Slot::Alone | Slot::Plain | Slot::Choice(_) => (),
    }
}
