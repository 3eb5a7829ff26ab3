//! How expressions are read.
ghost use Rattle.std.specs.Prelude.{◌≡◌};
ghost use Rattle.part_slots.specs.Readings as spec;

use seen_types::ExprType;

/// How an expression is read.
#[derive(Clone, Copy, Debug)]
pub enum Reading {
    /// As a name that is not yet taken as a value.
    AsName,
    /// As a value of any type.
    Free,
    /// As a value of a type that is not known, since something was refused.
    Hidden,
    Wanted(ExprType),
}

/// As a value of this type: of one that is not known where there is none.
pub fn expecting(of: Option<ExprType>) -> Reading
    ensures { result ≡ spec.expecting of }
{
    match of {
        None => Reading::Hidden,
        Some(t) => Reading::Wanted(t),
    }
}

/// Where no aggregate can stand: one that does is refused once.
pub fn tested_reading(is_aggregate: bool) -> Reading
    ensures { result ≡ spec.tested_reading is_aggregate }
{
    if is_aggregate {
        Reading::Hidden
    } else {
        Reading::Free
    }
}

/// What stands in parentheses is a value.
pub fn as_reading(reading: Reading) -> Reading
    ensures { result ≡ spec.as_reading reading }
{
    match reading {
        Reading::AsName => Reading::Free,
        _ => reading,
    }
}
