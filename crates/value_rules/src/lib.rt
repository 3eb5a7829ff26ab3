//! What names, calls, operators and attributes make of values, and the rules that they break: by what their parts stand for.
#![tactic(auto)]

mod applications;
mod attributes;
mod branches;
mod laws;
mod names;
mod operators;
mod standings;
mod statics;
mod tellings;

pub use applications::{
    Passed, applied_to, only_entity, refuse_application, refuse_no_type, refuse_product_faults,
};
pub use attributes::{attribute_of, refuse_gift, refuse_range};
pub use branches::{
    Branches, conditional, fits_so_far, is_test, no_branches, with_branch, with_condition,
};
pub use laws::{a_bad_branch_spoils_the_whole, a_refused_operand_is_told_once};
pub use names::{
    mark_type, named_entity, refuse_call, selected_entity, take_at, take_bearer, take_prefix,
    tell_name, tell_selection,
};
pub use operators::{
    Operand, binary, in_range, meant_within, refuse_binary, refuse_in_range, refuse_unary,
    unary_entity,
};
pub use standings::{
    is_no_branch, is_no_condition, is_no_number, is_unfit_for_any, refuse_unfit, refuse_written,
};
pub use statics::{
    mark_said, meaning_of, refuse_attribute_faults, refuse_number, refuse_unstatic, static_value,
};
pub use tellings::{refuse_mention, refuse_silent, refuse_word, tell_type};
