//! What attributes stand for, and what they break.
ghost use Rattle.std.specs.Prelude.{◌≡◌};
ghost use Rattle.name_findings.specs.Findings.{add_all};
ghost use Rattle.seen_names.specs.Contexts.{context};
ghost use Rattle.value_rules.specs.Attributes as spec;

use crate::tellings::{refuse_silent, refuse_word};
use name_findings::{Findings, Mention, Spelling, refuse_if};
use seen_names::{Entity, Gift, Place, Tables, type_in};
use spark_base::{ExprNo, Pos};
use spark_messages::Code;

/// What an attribute stands for, over what its arguments do.
pub fn attribute_of(tables: &Tables, place: Place, gift: Gift, parts: &[Entity]) -> Entity
    ensures { result ≡ spec.attribute_of (context tables.now place) parts.now gift }
{
    gift.given_entity(all_sure(tables, place, gift, parts))
}

fn all_sure(tables: &Tables, place: Place, gift: Gift, parts: &[Entity]) -> bool
    ensures { result ≡ spec.all_sure (context tables.now place) gift parts.now }
{
    for part in parts {
        if !tables.is_sure_argument(place, gift, *part) {
            return false;
        }
    }
    true
}

/// What an attribute breaks: at where its prefix begins, or at its word.
pub fn refuse_gift(found: &mut Findings, start: Pos, at: Pos, e: ExprNo, gift: Gift)
    ensures { found.new ≡ add_all found.old (spec.gift_found start at e gift) }
{
    let word = Mention { at, expr: e };
    match gift {
        Gift::NoAttribute => refuse_word(found, Code::N01, word),
        Gift::NoRange => refuse_silent(found, true, Code::Y07, start),
        Gift::NoOrder => refuse_silent(found, true, Code::Y04, start),
        Gift::WrongCount => refuse_word(found, Code::N08, word),
        _ => (),
    }
}

/// A Range attribute where no range stands (N06), of what has a type.
pub fn refuse_range(tables: &Tables, place: Place, found: &mut Findings, at: Pos, prefix: Entity)
    ensures { found.new ≡ add_all found.old (spec.range_found (context tables.now place) at prefix) }
{
    let has_type = match prefix {
        Entity::Mark(None) => false,
        Entity::Mark(Some(_)) => true,
        _ => type_in(tables.as_value(place, prefix)).is_some(),
    };
    refuse_if(found, has_type, Code::N06, at, Spelling::Range);
}
