use spark_base::{Items, LeafNo};

/// How a formal is passed, or the result.
#[derive(Clone, Copy)]
pub struct Passing {
    /// The place of its first leaf among those that are passed.
    pub first: u32,
    /// How many leaves are moved in: those of a formal of mode in or in out, none of another.
    pub ins: u32,
    /// How many leaves are moved back: those of a formal of mode out or in out and of the result, none of another.
    pub backs: u32,
}

/// What a call needs to know of its callee to pass the actuals.
#[derive(Drop)]
pub struct Signature {
    /// The leaves of the formals in order, and behind them those of the result.
    pub leaves: Items<LeafNo>,
    /// How each formal is passed, by its number; the result has the number behind the last formal.
    pub passings: Items<Passing>,
}
