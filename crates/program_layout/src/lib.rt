//! The layout of the rows of a program's bodies.
#![tactic(auto)]

mod beside;
mod bodies;
mod holders;
mod laying;
mod named;
mod owners;
mod views;

pub use laying::layout;
