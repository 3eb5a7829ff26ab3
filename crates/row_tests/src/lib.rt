//! Nothing but tests of who calls whom, rows as words, their leaves, and the solver.
#![tactic(auto)]

#[cfg(test)]
mod calls_tests;
#[cfg(test)]
mod leaf_tests;
#[cfg(test)]
mod solver_tests;
#[cfg(test)]
mod summary_tests;
