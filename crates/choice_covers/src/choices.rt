//! What a choice covers.
ghost use Rattle.std.specs.Prelude.{◌≡◌};
ghost use Rattle.choice_covers.specs.Covers as spec;

use spark_base::Pos;

/// What a choice covers.
#[derive(Clone, Copy, Debug)]
pub enum Covering {
    /// It has no value, or was refused.
    Unclear,
    Others,
    /// From the first to the second: nothing where the second is less.
    From(i128, i128),
}

/// A choice at its place.
#[derive(Clone, Copy, Debug)]
pub struct Placed {
    pub at: Pos,
    pub covering: Covering,
}

/// The values that are to be covered: from the first to the last, none where the last is less.
#[derive(Clone, Copy, Debug)]
pub struct Bounds {
    pub low: i128,
    pub high: i128,
}

/// The values from one bound to the other, where both have a value.
pub fn between(low: Option<i128>, high: Option<i128>) -> Covering
    ensures { result ≡ spec.between low high }
{
    match (low, high) {
        (Some(low), Some(high)) => Covering::From(low, high),
        _ => Covering::Unclear,
    }
}
