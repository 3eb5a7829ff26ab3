//! The tokens of a source of the subset, or its first refusal.
//!
//! A source is cut into pieces: white space, comments and tokens, each the longest that can stand
//! at its place.
#![tactic(auto)]

mod classes;
mod laws;
mod lexing;
mod marks;
mod number;
mod piece;
mod pieces;
mod refusal;
mod scan;

pub use laws::{
    longest_fronts, number_parts, number_values, pieces_joined, refusals_behind_pieces,
    tokens_in_order,
};
pub use lexing::{LIMIT, lex};
