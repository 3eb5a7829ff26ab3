//! How many leaves a record has.
ghost use Rattle.std.specs.Prelude.{◌≡◌, ◌<◌, All, length};
ghost use Rattle.types_objects.specs.declared.types.FieldDef.{FieldDef};
ghost use Rattle.types_objects.specs.Counts.{capped, count, count_of_fields, AreCounted};

use crate::paths::type_at;
use crate::types::{FieldDef, Types};

/// The leaves of one component.
fn leaves_of(types: &Types, field: &FieldDef) -> u32
    requires counted { AreCounted types.now.list }
    requires there { field.now.of.0 < length types.now.list }
    ensures { result ≡ capped (count types.now.list field.now.of) }
{
    type_at(types, field.of).leaves
}

/// The leaves of these components together, at most 4,294,967,295.
pub fn leaves_of_fields(types: &Types, fields: &[FieldDef]) -> u32
    requires counted { AreCounted types.now.list }
    requires there { All (λ (f : FieldDef). f.of.0 < length types.now.list) fields.now }
    ensures { result ≡ capped (count_of_fields (count types.now.list) fields.now) }
{
    let mut leaves: u32 = 0;
    for field in fields {
        leaves = leaves.saturating_add(leaves_of(types, field));
    }
    leaves
}
