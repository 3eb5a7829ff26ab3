//! The facts of a statement at each of its outcomes: those of one statement and then another, of a choice, and of a loop.
#![tactic(auto)]

mod facts;
mod sides;

pub use facts::{
    Facts, back_facts, branch_with, leave_facts, loop_with, no_facts, prepend_change,
    prepend_clear, prepend_move, skip_facts, then_with,
};
pub use sides::{Side, add_cross, any, both, no_side};
