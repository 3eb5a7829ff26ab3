//! Who calls whom, by the code of bodies.
#![tactic(auto)]

mod callees;
mod lists;

pub use callees::callees_of;
pub use lists::callers;
