//! What names stand for as they are read, and what they break.
ghost use Rattle.std.specs.Prelude.{◌≡◌};
ghost use Rattle.expr_rules.specs.Names as spec;
ghost use Rattle.name_findings.specs.Findings.{add_all};
ghost use Rattle.seen_names.specs.Contexts.{context};

use name_findings::Findings;
use part_slots::Reading;
use seen_names::{Entity, Place, Tables, type_in};
use spark_base::{ExprNo, Pos};
use value_rules::{take_at, tell_type};

/// Where a name is read as a value, a function in it is called.
fn read(tables: &Tables, place: Place, reading: Reading, entity: Entity) -> Entity
    ensures { result ≡ spec.read (context tables.now place) reading entity }
{
    match reading {
        Reading::AsName => entity,
        _ => tables.as_value(place, entity),
    }
}

/// What a name is that stands for this, read so: it tells its type, and what its being taken as a value breaks.
#[tactic(auto, using(name_findings::proofs::Joined::add_append))]
pub fn read_name(
    tables: &Tables,
    place: Place,
    found: &mut Findings,
    reading: Reading,
    e: ExprNo,
    at: Pos,
    entity: Entity,
) -> Entity
    ensures entity { result ≡ spec.read (context tables.now place) reading entity }
    ensures found { found.new ≡ add_all found.old (spec.read_found (context tables.now place) reading e at entity) }
{
    tell_type(found, e, type_in(entity));
    match reading {
        Reading::AsName => (),
        _ => take_at(tables, place, found, e, at, entity),
    }
    read(tables, place, reading, entity)
}
