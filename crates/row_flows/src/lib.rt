//! The flow and the row of a body whose code calls others, over given rows of these.
#![tactic(auto)]

mod facts;
mod flows;
mod frames;
mod known;

pub use flows::{flow_over, row_over};
