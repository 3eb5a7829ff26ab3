//! The order in which items come, by what each has to follow.
#![tactic(auto)]

mod order;
mod queue;
mod rules;
mod sets;

pub use order::elaboration_order;
pub use rules::Rule;
