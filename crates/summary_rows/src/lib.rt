//! What is known of the bodies of a program, as words of 64 bits: where each fact stands, the questions, and the joining of a row.
#![tactic(auto)]

mod laws;
mod layout;
mod rows;
mod words;

pub use laws::{
    bits_are_of_facts, facts_are_listed, facts_stand_once, parts_are_apart, rows_are_apart,
};
pub use layout::{Layout, row_size};
pub use rows::Rows;
pub use words::Words;
