//! The grammar of the subset of Ada as definitions, and what its readers share: tokens that are taken one after
//! the other within the limits of nesting, and the nodes that are built.
#![tactic(auto)]

mod children;
mod laws;
mod nodes;
mod refusals;
mod tokens;
mod weights;

pub use children::{
    Children, add_aspect, add_declaration, add_end_name, add_expr, add_named_aspect, add_statement,
    add_unit, declare, declare_all,
};
pub use laws::{parts_have_sentences, what_is_read, what_is_refused};
pub use nodes::{
    Built, Form, add_named, add_node, add_one, add_three, add_two, adding_of, is_identifier,
    is_mark, is_range, join, multiplying_of, number_of, one, relational_of, selected_form, text,
    two,
};
pub use refusals::{limit_fault, phase_fault, syntax_fault};
pub use tokens::{Class, Cursor, Fault, Last, LoopHead, Nesting, accept, expect};
