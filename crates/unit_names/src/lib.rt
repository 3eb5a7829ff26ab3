//! What the names of units have to meet, before all else.
#![tactic(auto)]

mod heads;
mod passes;
mod seen;

pub use heads::{Head, Part, Withed};
pub use passes::{UnitFault, name_fault};
