//! The least solution of the equations of a program's bodies.
#![tactic(auto)]

mod bodies;
mod rows;
mod summaries;

pub use bodies::solve_alone;
pub use rows::row_words;
pub use summaries::summaries_of;
