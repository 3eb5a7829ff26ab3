//! The declarations of open regions, by name.
#![tactic(auto)]

mod table;

pub use table::{Open, ScopeTable};
