//! What the operators of core expressions make of values: whole numbers of 128 bits, truth values, and classes of a modulus.
#![tactic(auto)]

mod moduli;
mod operators;
mod truths;

pub use operators::{Operands, operate, single};
pub use truths::truth;
