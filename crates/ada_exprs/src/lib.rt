//! The readers of expressions, names and discrete ranges: `read_expr`, `read_simple`, `read_name` and `read_drange` read
//! the longest front of the tokens with which some sentence of their part of the grammar begins. `readers` has what they
//! are made of, and what readers of other parts call, which know more of where they stand.
#![tactic(auto, using(ada_grammar::proofs::NodeTrees::extends_on, ada_grammar::proofs::NodeTrees::extends_same, ada_grammar::proofs::NodeTrees::within_on))]

mod calls;
mod operators;
pub mod parts;
pub mod readers;

pub use calls::{read_drange, read_expr, read_name, read_simple};
