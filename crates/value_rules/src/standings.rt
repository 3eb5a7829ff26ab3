//! What a value breaks where it stands.
ghost use Rattle.std.specs.Prelude.{◌≡◌};
ghost use Rattle.std.specs.List.{list_any};
ghost use Rattle.name_findings.specs.Findings.{add_all};
ghost use Rattle.seen_names.specs.Contexts.{context};
ghost use Rattle.value_rules.specs.Standings as spec;

use crate::branches::fits_so_far;
use crate::tellings::{refuse_mention, refuse_silent};
use name_findings::{Findings, Mention};
use seen_names::{Entity, Place, Role, Tables};
use seen_types::{BOOLEAN, ExprType};
use spark_base::{Pos, TypeNo};
use spark_messages::Code;

/// Whether what has this role cannot be written.
fn is_fixed(place: Place, role: Role) -> bool
    ensures { result ≡ spec.is_fixed_in place.in_function role }
{
    match role {
        Role::Variable => false,
        Role::Component => place.in_function,
        _ => true,
    }
}

fn or_mention(a: Option<Mention>, b: Option<Mention>) -> Option<Mention>
    ensures { result ≡ spec.or_mention a b }
{
    match a {
        None => b,
        Some(_) => a,
    }
}

/// What is written is no variable, or no part of one (N06): at what it is a part of, or at its last word.
pub fn refuse_written(place: Place, found: &mut Findings, word: Option<Mention>, entity: Entity)
    ensures { found.new ≡ add_all found.old (spec.written_found place.in_function word entity) }
{
    if let Entity::Valuable(value) = entity {
        if is_fixed(place, value.role) {
            refuse_mention(found, Code::N06, or_mention(value.source, word));
        }
    }
}

/// A value that does not fit what is expected, or that no one can be given (Y04).
pub fn refuse_unfit(
    tables: &Tables,
    place: Place,
    found: &mut Findings,
    of: Option<ExprType>,
    at: Pos,
    a: Option<ExprType>,
)
    ensures { found.new ≡ add_all found.old (spec.unfit_found (context tables.now place) of at a) }
{
    let is_unfit = tables.types.is_unfit(place.home, a, of);
    refuse_silent(found, is_unfit, Code::Y04, at);
}

/// Whether it does not fit one of these types.
pub fn is_unfit_for_any(tables: &Tables, place: Place, a: Option<ExprType>, of: &[TypeNo]) -> bool
    ensures { result ≡ list_any (spec.is_unfit_for (context tables.now place) a) of.now }
{
    for t in of {
        if tables.types.is_unfit(place.home, a, Some(ExprType::Of(*t))) {
            return true;
        }
    }
    false
}

/// Whether a value of a conditional expression has another type than those before it.
pub fn is_no_branch(
    tables: &Tables,
    place: Place,
    before: Option<ExprType>,
    a: Option<ExprType>,
) -> bool
    ensures { result ≡ spec.is_no_branch (context tables.now place) before a }
{
    match a {
        None => false,
        Some(t) => !fits_so_far(tables, place, before, t),
    }
}

/// Whether it has a type, and is no Boolean.
pub fn is_no_condition(tables: &Tables, place: Place, a: Option<ExprType>) -> bool
    ensures { result ≡ spec.is_no_condition (context tables.now place) a }
{
    match a {
        None => false,
        Some(t) => !tables.types.is_of(place.home, BOOLEAN, t),
    }
}

/// Whether it has a type, and is no whole number.
pub fn is_no_number(tables: &Tables, place: Place, a: Option<ExprType>) -> bool
    ensures { result ≡ spec.is_no_number (context tables.now place) a }
{
    match a {
        None => false,
        Some(t) => !tables.types.is_integral(place.home, t),
    }
}
