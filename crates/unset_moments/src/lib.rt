//! What may be unassigned at each moment of the elaboration, over what each item of its order declares, leaves unassigned and keeps.
#![tactic(auto)]

mod endings;

pub use endings::{Ending, moments};
