//! Sets of numbers and relations on them, in words of 64 bits.
#![tactic(auto)]

mod close;
mod compose;
mod flags;
mod pairs;
mod row;
mod square;
mod words;

pub use row::Row;
pub use square::Square;
