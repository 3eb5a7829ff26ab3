//! What the equations of bodies say of facts: the row of a body as words, by the bits of a row in a layout, and laws of all equations at once.
#![tactic(auto)]

pub mod laws;
mod numbers;
mod setting;
mod words;

pub use words::words_of_row;
