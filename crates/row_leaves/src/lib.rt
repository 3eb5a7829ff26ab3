//! Which leaves the row of each body has, and where the rows stand.
#![tactic(auto)]

mod layout;
mod leaves;
mod search;

pub use layout::{Laid, MOST_LEAVES, MOST_WORDS, layout_of};
pub use leaves::{Bodies, row_leaves};
