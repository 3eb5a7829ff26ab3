//! Laws of the grammar and of its limits: what the definitions of `ada_grammar` say, in the words of the language.
#![tactic(auto)]

mod limits;
mod rules;

pub use limits::{
    operators_are_counted, outermost_operators_are_counted, statements_close_what_they_open,
};
pub use rules::{
    arguments_are_plain, choices_are_plain, expressions_are_plain, memberships_are_plain,
    parentheses_are_plain, ranges_are_plain,
};
