//! What arguments in parentheses make of a prefix, and what they break.
ghost use Rattle.std.specs.Prelude.{◌≡◌, OnOk};
ghost use Rattle.name_findings.specs.Findings.{add_all};
ghost use Rattle.seen_names.specs.Contexts.{context};
ghost use Rattle.value_rules.specs.Applications as spec;

use crate::statics::refuse_applied_faults;
use crate::tellings::{refuse_mention, refuse_silent, refuse_word};
use name_findings::{Findings, Mention, Spelling, refuse_if};
use seen_names::{Application, Entity, Place, Tables, type_in};
use spark_base::{NoMemory, Pos, TypeNo};
use spark_messages::Code;
use static_eval::Judgement;
use std::alloc::Global;

/// The arguments of an application.
#[derive(Clone, Copy, Debug)]
pub struct Passed {
    /// They are not those that are asked for.
    pub are_unfit: bool,
    /// There is one, which has no name and is no aggregate.
    pub has_value: bool,
    /// What it stands for, where there is one alone.
    pub value: Entity,
}

/// What the one of these stands for, where there is one alone.
pub fn only_entity(parts: &[Entity]) -> Entity
    ensures { result ≡ spec.only_entity parts.now }
{
    match parts {
        [a] => *a,
        _ => Entity::Nothing,
    }
}

/// What an application stands for.
pub fn applied_to(tables: &Tables, place: Place, passed: Passed, application: Application) -> Entity
    ensures { result ≡ spec.applied_by (context tables.now place) passed.has_value passed.are_unfit passed.value application }
{
    tables.applied(
        place,
        passed.has_value,
        !passed.are_unfit,
        passed.value,
        application,
    )
}

fn is_no_conversion(
    tables: &Tables,
    place: Place,
    t: Option<TypeNo>,
    has_value: bool,
    a: Entity,
) -> bool
    ensures { result ≡ spec.is_no_conversion (context tables.now place) t has_value a }
{
    match t {
        None => false,
        Some(t) => !tables.is_convertible(place, t, has_value, type_in(a)),
    }
}

fn refuse_at(found: &mut Findings, holds: bool, word: Option<Mention>)
    ensures { found.new ≡ add_all found.old (spec.refuse_at holds word) }
{
    if holds {
        refuse_mention(found, Code::N08, word);
    }
}

#[tactic(auto, using(name_findings::proofs::Joined::add_append))]
fn refuse_conversion(
    tables: &Tables,
    place: Place,
    found: &mut Findings,
    word: Option<Mention>,
    at: Pos,
    t: Option<TypeNo>,
    passed: Passed,
)
    ensures { found.new ≡ add_all found.old (spec.conversion_found (context tables.now place) word at t passed.are_unfit passed.has_value passed.value) }
{
    refuse_at(found, passed.are_unfit, word);
    let is_none = is_no_conversion(tables, place, t, passed.has_value, passed.value);
    refuse_silent(found, !passed.are_unfit && is_none, Code::Y04, at);
}

/// What arguments in parentheses break behind a prefix: by the last word of the prefix, and where it begins.
pub fn refuse_application(
    tables: &Tables,
    place: Place,
    found: &mut Findings,
    word: Option<Mention>,
    at: Pos,
    passed: Passed,
    application: Application,
)
    ensures { found.new ≡ add_all found.old (spec.application_found (context tables.now place) word at passed.are_unfit passed.has_value passed.value application) }
{
    match application {
        Application::ToNothing => (),
        Application::Conversion(t) => refuse_conversion(tables, place, found, word, at, t, passed),
        Application::Call(function, _, _) | Application::ProductCall(function, _) => {
            let text = Spelling::Word(function.expr);
            refuse_if(found, passed.are_unfit, Code::N08, function.at, text);
        }
        Application::ClockCall(function) => refuse_word(found, Code::N08, function),
        Application::Index(_, _, _) => refuse_at(found, passed.are_unfit, word),
        Application::NoArray => refuse_silent(found, true, Code::Y07, at),
        Application::NoFunction(function) => refuse_word(found, Code::N07, function),
        Application::NoValue => refuse_mention(found, Code::N06, word),
    }
}

/// Y01 of the product of a unit of time and a static value, by what is said of the prefix and of its arguments. Of other
/// applications nothing is refused here.
pub fn refuse_product_faults(
    alloc: Global,
    found: &mut Findings,
    at: Pos,
    is_sure: bool,
    parts: &[Judgement],
    application: Application,
) -> Result<(), NoMemory>
    ensures { OnOk result (found.new ≡ add_all found.old (spec.product_faults at is_sure parts.now application)) }
{
    match application {
        Application::ProductCall(_, _) => refuse_applied_faults(alloc, found, at, is_sure, parts),
        _ => Ok(()),
    }
}

/// Refuses (N01) what stands for no type, as before the value of a qualified expression.
pub fn refuse_no_type(found: &mut Findings, word: Option<Mention>, mark: Entity)
    ensures { found.new ≡ add_all found.old (spec.no_mark_found word mark) }
{
    match mark {
        Entity::Nothing | Entity::Mark(_) => (),
        _ => refuse_mention(found, Code::N01, word),
    }
}
