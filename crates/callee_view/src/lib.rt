//! What a caller sees of a callee: how its actuals are passed, and the facts of its contract or of its row.
#![tactic(auto)]

mod names;
mod rows;
mod signatures;

pub use names::{name_in_call, names_in_call};
pub use rows::row_known;
pub use signatures::signature_of;
