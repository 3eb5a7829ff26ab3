//! The bounds of discrete types and subtypes.
ghost use Rattle.std.specs.Prelude.{◌≡◌, ◌-◌, ◌^◌, ◌<◌, ◌≤◌, slice_get};
ghost use Rattle.types_objects.specs.Ranges as spec;
ghost use Rattle.types_objects.specs.Table.{IsTable};
ghost use Rattle.types_objects.specs.Types.{IsFormed};

use crate::firsts::first_of;
use crate::types::{TypeForm, Types};
use spark_base::TypeNo;
use static_meanings::Range;

/// The least value of a discrete type, and its greatest.
#[derive(Clone, Copy, Debug)]
pub struct Limits {
    pub low: i128,
    pub high: i128,
}

/// The least and the greatest value of a type, if its form is discrete.
pub fn limits_at(types: &Types, t: TypeNo) -> Option<Limits>
    requires table { IsTable types.now }
    ensures { result ≡ spec.limits_in (slice_get types.now.list t.0) }
{
    match &types.list.get(t.0 as usize)?.form {
        TypeForm::Enumeration(names) => Some(Limits {
            low: 0,
            high: names.len() as i128 - 1,
        }),
        TypeForm::Signed { low, high } => Some(Limits {
            low: *low,
            high: *high,
        }),
        TypeForm::Modular(m) => Some(Limits {
            low: 0,
            high: *m as i128 - 1,
        }),
        _ => None,
    }
}

/// The greatest value of a type, if it is modular.
pub fn greatest_at(types: &Types, t: TypeNo) -> Option<u64>
    requires table { IsTable types.now }
    ensures { result ≡ spec.greatest_in (slice_get types.now.list t.0) }
{
    match &types.list.get(t.0 as usize)?.form {
        TypeForm::Modular(m) => Some((*m - 1) as u64),
        _ => None,
    }
}

pub fn range_with(
    subtype: TypeNo,
    first: TypeNo,
    own: Option<Limits>,
    whole: Option<Limits>,
    modular: Option<u64>,
) -> Option<Range>
    ensures { result ≡ spec.range_with subtype first own whole modular }
{
    let own = own?;
    let whole = whole?;
    Some(Range {
        subtype,
        first,
        low: own.low,
        high: own.high,
        least: whole.low,
        greatest: whole.high,
        modular,
    })
}

pub fn discrete_range(types: &Types, t: TypeNo) -> Option<Range>
    requires table { IsTable types.now }
    ensures { result ≡ spec.discrete_range types.now t }
{
    let first = first_of(types, t);
    range_with(
        t,
        first,
        limits_at(types, t),
        limits_at(types, first),
        greatest_at(types, first),
    )
}

/// The bounds of a discrete type or subtype beside those of its first type; of an array those of its index.
pub fn range_of(types: &Types, t: TypeNo) -> Option<Range>
    requires table { IsTable types.now }
    ensures { result ≡ spec.range_of types.now t }
{
    match &types.list.get(t.0 as usize)?.form {
        TypeForm::Array { index, .. } => discrete_range(types, *index),
        _ => discrete_range(types, t),
    }
}

/// Whether a type is one of whole numbers.
pub fn is_integer(types: &Types, t: TypeNo) -> bool
    ensures { result ≡ spec.is_integer types.now t }
{
    match types.list.get(first_of(types, t).0 as usize) {
        None => false,
        Some(first) => match first.form {
            TypeForm::Signed { .. } => true,
            TypeForm::Modular(_) => true,
            _ => false,
        },
    }
}
