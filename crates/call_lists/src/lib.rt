//! Who calls whom, as a list for each body: the same the other way round, marks, and an order in which to visit bodies.
#![tactic(auto)]

mod callers;
mod marks;
mod order;

pub use callers::callers_of;
pub use marks::{all_marked, are_all_marked, mark, none_marked};
pub use order::order_of;

#[cfg(test)]
mod tests;
