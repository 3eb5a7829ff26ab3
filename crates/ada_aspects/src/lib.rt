//! The readers of aspects: `read_aspects` reads the longest front of the tokens with which some list of aspects begins.
//! `readers` has what it is made of, and what readers of other parts call, which know more of where they stand.
#![tactic(auto)]

mod calls;
pub mod readers;

pub use calls::read_aspects;
