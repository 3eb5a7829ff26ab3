//! Whole numbers of 128 bits, and their classes within a modulus, exactly.
#![tactic(auto)]

mod classes;
mod numbers;

pub use classes::{
    class_of_and, class_of_difference, class_of_or, class_of_power, class_of_product, class_of_sum,
    class_of_xor, reduced,
};
pub use numbers::{absolute, modulo, power, quotient, remainder};

#[cfg(test)]
mod tests;
