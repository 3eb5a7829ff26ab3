//! The values that choices of cases and of array aggregates cover.
#![tactic(auto)]

mod choices;
mod covers;
mod laws;
mod runs;

pub use choices::{Bounds, Covering, Placed, between};
pub use covers::{refuse_coverage, refuse_outside};
pub use laws::gaps_are_values_left;
