//! Marks, and names in use clauses.
ghost use Rattle.std.specs.Prelude.{◌≡◌, if◌then◌else◌, [], IfOk, OnOk};
ghost use Rattle.ada_forms.specs.Forms.{expr_of};
ghost use Rattle.name_findings.specs.Findings.{add_all, refuse_mention};
ghost use Rattle.name_marks.specs.Marks as spec;
ghost use Rattle.name_marks.specs.Prefixes.{prefix_of};
ghost use Rattle.seen_names.specs.Contexts.{context};
ghost use Rattle.spark_messages.specs.declared.messages.Code.TheVariants.{N01, N10};

use crate::prefixes::descend;
use ada_forms::{ExprForm, expr_form};
use ada_tree::Units;
use name_findings::{Findings, Mention};
use seen_names::{Entity, Place, Tables, of_shown};
use seen_types::ExprType;
use spark_base::{ExprNo, Name, NoMemory};
use spark_messages::Code;
use std::alloc::Global;
use value_rules::{mark_type, refuse_mention, refuse_no_type, refuse_word, tell_name};

/// The word that ends a name of words and points.
fn word_of(units: &Units, e: ExprNo) -> Option<Mention>
    ensures { result ≡ spec.word_of (expr_of units.now.exprs e) }
{
    let formed = expr_form(units, e);
    match formed.form {
        ExprForm::Identifier(_) | ExprForm::Selected { .. } => Some(Mention {
            at: formed.at,
            expr: e,
        }),
        _ => None,
    }
}

/// What stands behind a point: a member of a package, and nothing of another prefix.
fn member_of(
    tables: &Tables,
    place: Place,
    found: &mut Findings,
    word: Mention,
    name: &Name,
    prefix: Entity,
) -> Entity
    ensures entity { result ≡ spec.member_entity (context tables.now place) word name.now prefix }
    ensures found { found.new ≡ add_all found.old (spec.member_found (context tables.now place) word.expr word.at name.now prefix) }
{
    match prefix {
        Entity::Nothing => Entity::Nothing,
        Entity::Package(package) => {
            let shown = tables.member(place, package, name);
            tell_name(found, word.expr, word.at, shown);
            of_shown(word, shown)
        }
        _ => {
            refuse_word(found, Code::N01, word);
            Entity::Nothing
        }
    }
}

/// What a name stands for of whose prefix it is known.
fn read_over(
    units: &Units,
    tables: &Tables,
    place: Place,
    found: &mut Findings,
    e: ExprNo,
    prefix: Entity,
) -> Entity
    requires prefix { prefix ≡ spec.entity_of (context tables.now place) (prefix_of (expr_of units.now.exprs e)) }
    ensures entity { result ≡ spec.unit_entity (context tables.now place) (expr_of units.now.exprs e) }
    ensures found { found.new ≡ add_all found.old (spec.own_found (context tables.now place) (expr_of units.now.exprs e)) }
{
    let formed = expr_form(units, e);
    let word = Mention {
        at: formed.at,
        expr: e,
    };
    match formed.form {
        ExprForm::Identifier(name) => {
            let shown = tables.visible(name);
            tell_name(found, word.expr, word.at, shown);
            of_shown(word, shown)
        }
        ExprForm::Selected { name, .. } => member_of(tables, place, found, word, name, prefix),
        _ => Entity::Nothing,
    }
}

/// What a name of words and points stands for: what is visible, and behind a point a member of a package. It refuses (N01) the
/// first word that is not visible, or no member, and whose prefix is no package.
pub fn read_unit(
    alloc: Global,
    units: &Units,
    tables: &Tables,
    place: Place,
    found: &mut Findings,
    e: ExprNo,
) -> Result<Entity, NoMemory>
    ensures entity { IfOk result (λ a. a ≡ spec.unit_entity (context tables.now place) (expr_of units.now.exprs e)) }
    ensures found { OnOk result (found.new ≡ add_all found.old (spec.unit_found (context tables.now place) (expr_of units.now.exprs e))) }
{
    let mut descent = descend(alloc, units, e)?;
    let mut entity = read_over(units, tables, place, found, descent.lowest, Entity::Nothing);
    while let Some(next) = descent.above.pop() {
        entity = read_over(units, tables, place, found, next, entity);
    }
    Ok(entity)
}

fn refuse_no_package(found: &mut Findings, word: Option<Mention>, entity: Entity)
    ensures { found.new ≡ add_all found.old (spec.no_package_found word entity) }
{
    match entity {
        Entity::Nothing | Entity::Package(_) => (),
        _ => refuse_mention(found, Code::N01, word),
    }
}

/// The type that a mark denotes, if it has one. It refuses (N01) a name that is not visible, and at its last word one that
/// denotes no type.
#[tactic(auto, using(name_findings::proofs::Joined::add_append))]
pub fn read_mark(
    alloc: Global,
    units: &Units,
    tables: &Tables,
    place: Place,
    found: &mut Findings,
    e: ExprNo,
) -> Result<Option<ExprType>, NoMemory>
    ensures mark { IfOk result (λ t. t ≡ spec.mark_of (context tables.now place) (expr_of units.now.exprs e)) }
    ensures found { OnOk result (found.new ≡ add_all found.old (spec.mark_found (context tables.now place) (expr_of units.now.exprs e))) }
{
    let entity = read_unit(alloc, units, tables, place, found, e)?;
    refuse_no_type(found, word_of(units, e), entity);
    Ok(mark_type(entity))
}

/// What a use clause names, which refuses (N01) a name that is not visible, and at its last word one that denotes no package.
#[tactic(auto, using(name_findings::proofs::Joined::add_append))]
pub fn read_use(
    alloc: Global,
    units: &Units,
    tables: &Tables,
    place: Place,
    found: &mut Findings,
    e: ExprNo,
) -> Result<Entity, NoMemory>
    ensures entity { IfOk result (λ a. a ≡ spec.unit_entity (context tables.now place) (expr_of units.now.exprs e)) }
    ensures found { OnOk result (found.new ≡ add_all found.old (spec.use_found (context tables.now place) (expr_of units.now.exprs e))) }
{
    let entity = read_unit(alloc, units, tables, place, found, e)?;
    refuse_no_package(found, word_of(units, e), entity);
    Ok(entity)
}

fn is_limited_mark(tables: &Tables, place: Place, of: Option<ExprType>) -> bool
    ensures { result ≡ spec.is_limited_mark (context tables.now place) of }
{
    match of {
        None => false,
        Some(of) => tables.types.is_limited_of(place.home, of),
    }
}

fn refuse_limited(found: &mut Findings, is_limited: bool, word: Option<Mention>)
    ensures { found.new ≡ add_all found.old (if is_limited then refuse_mention N10 word else []) }
{
    if is_limited {
        refuse_mention(found, Code::N10, word);
    }
}

/// The type that the mark of an element or of a result denotes, if it has one. It refuses what `read_mark` does, and (N10) at its
/// last word a protected type and a task type.
#[tactic(auto, using(name_findings::proofs::Joined::add_append))]
pub fn read_part_mark(
    alloc: Global,
    units: &Units,
    tables: &Tables,
    place: Place,
    found: &mut Findings,
    e: ExprNo,
) -> Result<Option<ExprType>, NoMemory>
    ensures mark { IfOk result (λ t. t ≡ spec.mark_of (context tables.now place) (expr_of units.now.exprs e)) }
    ensures found { OnOk result (found.new ≡ add_all found.old (spec.part_mark_found (context tables.now place) (expr_of units.now.exprs e))) }
{
    let of = read_mark(alloc, units, tables, place, found, e)?;
    refuse_limited(found, is_limited_mark(tables, place, of), word_of(units, e));
    Ok(of)
}
