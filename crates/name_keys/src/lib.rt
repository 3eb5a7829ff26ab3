//! The numbers of names, and what stands for them.
#![tactic(auto)]

mod keys;
mod map;

pub use keys::KeyTable;
pub use map::KeyMap;
