//! What names mean as far as static values go, and tables of what stands for a number.
#![tactic(auto)]

mod meanings;
mod pairs;

pub use meanings::{Meaning, Range, Sense, booleans, integers, mark, object, predefined, unknown};
pub use pairs::Pairs;
