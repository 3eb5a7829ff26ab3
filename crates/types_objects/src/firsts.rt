//! The first types of types.
ghost use Rattle.std.specs.Prelude.{◌≡◌};
ghost use Rattle.types_objects.specs.Firsts as spec;

use crate::types::Types;
use spark_base::TypeNo;

/// The type from whose declaration a type comes; of a number that is not in the table itself.
pub fn first_of(types: &Types, t: TypeNo) -> TypeNo
    ensures { result ≡ spec.first_of types.now t }
{
    match types.first.get(t.0 as usize) {
        None => t,
        Some(first) => *first,
    }
}
