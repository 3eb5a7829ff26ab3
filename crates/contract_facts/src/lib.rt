//! What a caller sees of a body, by places in the list of the leaves of which the body speaks: the facts of a contract, or of a row.
#![tactic(auto)]

mod pairs;
mod places;
mod seen;
mod sets;
mod uses;
mod view;

pub use seen::{contract_seen, seen_known, seen_leaves};
pub use view::{contract_known, contract_leaves};
