//! The order in which the specs and bodies of packages are elaborated.
#![tactic(auto)]

mod elaboration;
mod packages;
mod rules;

pub use elaboration::{Elaboration, elaborate};
pub use packages::{Item, Package};
