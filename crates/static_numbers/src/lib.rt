//! The arithmetic of static expressions: whole numbers and classes of a modulus, fitted into 128 bits.
#![tactic(auto)]

mod numbers;

pub use numbers::{
    Computed, Computing, Preceding, adding, compute, compute_alone, divides, length, logical,
    multiplying, relate, scaled, sign, truth, within,
};
