//! Which nodes of a directed graph lie on a cycle.
#![tactic(auto)]

mod components;
mod cycles;
mod edges;
mod found;
mod ranks;
mod search;
#[cfg(test)]
mod tests;

pub use cycles::first_on_cycle;
