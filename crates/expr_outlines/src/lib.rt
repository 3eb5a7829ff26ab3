//! What expressions are by their forms alone: where they begin, the word that ends them, names and aggregates.
#![tactic(auto)]

mod edges;
mod looks;

pub use edges::{Edges, edges_over, no_edges};
pub use looks::{first_token, is_aggregate, is_name, is_plain_name};
