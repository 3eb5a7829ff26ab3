//! What is found where names and types are read: that a rule is broken, what a name denotes, the type of an expression.
#![tactic(auto)]

mod findings;
mod laws;

pub use findings::{Fault, Findings, Mention, Spelling, refuse_if};
pub use laws::{first_of_all, one_by_one};
