//! Marks, and the names in use clauses: words and points alone.
#![tactic(auto)]

mod marks;
mod prefixes;

pub use marks::{read_mark, read_part_mark, read_unit, read_use};
