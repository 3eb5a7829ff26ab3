//! The words, marks and workers of the claim protocol, and what each event does to them. When an event is allowed is not asked here.
#![tactic(auto)]

mod board;
mod worker;

pub use board::Board;
