//! The least solution of the equations of bodies, by a worklist. What the equations are is a parameter.
#![tactic(auto)]

mod equations;
mod solve;

pub use equations::RowEquations;
pub use solve::solve_alone;
