//! What names stand for, and what they break where they stand.
ghost use Rattle.std.specs.Prelude.{◌≡◌};
ghost use Rattle.std.specs.Option.{option_copied};
ghost use Rattle.ada_forms.specs.Forms.{expr_of};
ghost use Rattle.value_rules.specs.Names as spec;
ghost use Rattle.name_findings.specs.Findings.{add_all};
ghost use Rattle.seen_names.specs.Contexts.{context};

use crate::tellings::{refuse_silent, refuse_word, tell_decl, tell_shown, tell_type};
use ada_forms::{ExprForm, Property, expr_form};
use ada_tree::Units;
use name_findings::{Findings, Mention, Spelling, refuse_if};
use seen_names::{
    Callable, Entity, Place, Selection, Shown, Subprogram, Tables, of_shown, selected, type_in,
};
use seen_types::ExprType;
use spark_base::{ExprNo, Name, Pos};
use spark_messages::Code;

fn mention(e: ExprNo, at: Pos) -> Mention
    ensures { result ≡ spec.mention e at }
{
    Mention { at, expr: e }
}

/// What a name at a place stands for that begins there.
pub fn named_entity(tables: &Tables, place: Place, e: ExprNo, at: Pos, name: &Name) -> Entity
    ensures { result ≡ spec.named_entity (context tables.now place) e at name.now }
{
    of_shown(mention(e, at), tables.visible(name))
}

/// What a name at a place stands for behind a prefix and a point.
pub fn selected_entity(
    tables: &Tables,
    place: Place,
    e: ExprNo,
    at: Pos,
    name: &Name,
    prefix: Entity,
) -> Entity
    ensures { result ≡ spec.selected_entity (context tables.now place) e at name.now prefix }
{
    selected(mention(e, at), tables.selection(place, name, prefix))
}

/// The type that a mark denotes, by what its name stands for.
pub fn mark_type(entity: Entity) -> Option<ExprType>
    ensures { result ≡ spec.mark_type entity }
{
    match entity {
        Entity::Mark(Some(t)) => Some(ExprType::Of(t)),
        _ => None,
    }
}

/// Tells what a name denotes, or refuses it (N01).
pub fn tell_name(found: &mut Findings, e: ExprNo, at: Pos, shown: Option<Shown>)
    ensures { found.new ≡ add_all found.old (spec.name_found e at shown) }
{
    match shown {
        None => refuse_word(found, Code::N01, mention(e, at)),
        Some(shown) => tell_decl(found, e, shown.decl),
    }
}

/// Tells what a name behind a point denotes, or refuses it: N01 of a package, else Y06.
pub fn tell_selection(found: &mut Findings, e: ExprNo, at: Pos, selection: Selection)
    ensures { found.new ≡ add_all found.old (spec.selection_found e at selection) }
{
    match selection {
        Selection::OfNothing => (),
        Selection::InPackage(shown) => tell_name(found, e, at, shown),
        Selection::Component(_, field) => tell_decl(found, e, Some(field.decl)),
        Selection::Operation(shown) => tell_shown(found, e, Some(shown)),
        Selection::NoComponent => refuse_silent(found, true, Code::Y06, at),
    }
}

fn is_entry(form: Subprogram) -> bool
    ensures { result ≡ spec.is_entry form }
{
    match form {
        Subprogram::Entry => true,
        _ => false,
    }
}

/// A call: an entry that is called without its object (N10), and arguments that are not those of the formals (N08).
#[tactic(auto, using(name_findings::proofs::Joined::add_append))]
pub fn refuse_call(
    found: &mut Findings,
    word: Mention,
    is_behind: bool,
    form: Subprogram,
    are_wrong: bool,
)
    ensures { found.new ≡ add_all found.old (spec.call_found word is_behind form are_wrong) }
{
    let text = Spelling::Word(word.expr);
    let is_alone = is_entry(form) && !is_behind;
    refuse_if(found, is_alone, Code::N10, word.at, text);
    refuse_if(found, are_wrong, Code::N08, word.at, text);
}

/// A call without arguments.
fn take_call(found: &mut Findings, word: Mention, callable: &Callable)
    ensures { found.new ≡ add_all found.old (spec.bare_call_found word callable.now) }
{
    let has_formals = callable.formals.len() != 0;
    let text = Spelling::Word(word.expr);
    refuse_if(found, has_formals, Code::N08, word.at, text);
}

fn take_callable(found: &mut Findings, word: Mention, callable: Option<&Callable>)
    ensures { found.new ≡ add_all found.old (spec.taken_call_found word (option_copied callable.entry)) }
{
    if let Some(callable) = callable {
        match callable.form {
            Subprogram::Function => take_call(found, word, callable),
            _ => refuse_word(found, Code::N07, word),
        }
    }
}

/// What a name breaks that is taken as a value: a function is called, and all else but a value is refused.
fn take(tables: &Tables, place: Place, found: &mut Findings, word: Mention, entity: Entity)
    ensures { found.new ≡ add_all found.old (spec.taken_found (context tables.now place) word entity) }
{
    match entity {
        Entity::Nothing | Entity::Valuable(_) | Entity::Clock(_) => (),
        Entity::Called(function, _, number) => {
            take_callable(found, function, tables.callable(number));
        }
        Entity::Product(function, _) => refuse_word(found, Code::N08, function),
        Entity::Package(_) | Entity::Mark(_) | Entity::Other => {
            refuse_word(found, Code::N06, word);
        }
    }
}

/// Tells the type of what a function gives that stands alone.
fn tell_call(tables: &Tables, place: Place, found: &mut Findings, e: ExprNo, entity: Entity)
    ensures { found.new ≡ add_all found.old (spec.call_type (context tables.now place) e entity) }
{
    match entity {
        Entity::Valuable(_) => (),
        _ => tell_type(found, e, type_in(tables.as_value(place, entity))),
    }
}

/// What a name breaks that is taken as a value; it tells the type of what it gives.
#[tactic(auto, using(name_findings::proofs::Joined::add_append))]
pub fn take_at(
    tables: &Tables,
    place: Place,
    found: &mut Findings,
    e: ExprNo,
    at: Pos,
    entity: Entity,
)
    ensures { found.new ≡ add_all found.old (spec.taken_at (context tables.now place) e at entity) }
{
    take(tables, place, found, mention(e, at), entity);
    tell_call(tables, place, found, e, entity);
}

/// What an expression breaks that is taken as a value, if it is a name.
fn take_in(
    units: &Units,
    tables: &Tables,
    place: Place,
    found: &mut Findings,
    e: ExprNo,
    entity: Entity,
)
    ensures { found.new ≡ add_all found.old (spec.taken_in (context tables.now place) (expr_of units.now.exprs e) entity) }
{
    let formed = expr_form(units, e);
    match formed.form {
        ExprForm::Identifier(_) | ExprForm::Selected { .. } => {
            take_at(tables, place, found, e, formed.at, entity);
        }
        _ => (),
    }
}

/// What a prefix before a point breaks: all but a package is taken as a value.
pub fn take_prefix(
    units: &Units,
    tables: &Tables,
    place: Place,
    found: &mut Findings,
    prefix: ExprNo,
    entity: Entity,
)
    ensures { found.new ≡ add_all found.old (spec.prefix_taken (context tables.now place) (expr_of units.now.exprs prefix) entity) }
{
    match entity {
        Entity::Package(_) => (),
        _ => take_in(units, tables, place, found, prefix, entity),
    }
}

/// What the prefix of an attribute breaks: all but a mark is taken as a value, if there is such an attribute.
pub fn take_bearer(
    units: &Units,
    tables: &Tables,
    place: Place,
    found: &mut Findings,
    what: Property,
    prefix: ExprNo,
    entity: Entity,
)
    ensures { found.new ≡ add_all found.old (spec.bearer_taken (context tables.now place) what (expr_of units.now.exprs prefix) entity) }
{
    match (what, entity) {
        (Property::Other, _) => (),
        (_, Entity::Mark(_)) => (),
        _ => take_in(units, tables, place, found, prefix, entity),
    }
}
