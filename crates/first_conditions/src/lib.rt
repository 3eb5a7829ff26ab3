//! What a source of the first path meets beside its grammar: `conditions` is the test of it, and
//! hands out the keys by which the names of a source that meets it are the same. `key_of` gives the
//! key of a word, and `mode_of` the mode that an entry of a Global names.
#![tactic(auto)]

mod fit;
mod known;
mod meets;
mod names;
#[cfg(test)]
mod tests;

pub use fit::mode_of;
pub use meets::conditions;
pub use names::{KeyTable, key_of};
