//! What a body does with the items of contracts, by its row: whether it reads, writes or leaves them, and their used mode.
#![tactic(auto)]

mod added;
mod used;

pub use added::{error_at, note, note_new, warning_at};
pub use used::{Question, is_left, is_library, row_leaves, some_leaf, used_mode};
