//! The flow of a call: what is known of the callee, between the moves of the actuals.
#![tactic(auto)]

mod dropping;
mod known;
mod signatures;

pub use dropping::dropped_facts;
pub use known::{Known, known_facts};
pub use signatures::{Passing, Signature};
