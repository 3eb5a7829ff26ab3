//! How the parts of expressions are read, and what they break in their slots; what choices break and cover, and what aggregates break.
#![tactic(auto)]

mod aggregates;
mod choices;
mod components;
mod operands;
mod parts;
mod readings;

pub use aggregates::{refuse_choices, refuse_unexpected, refuse_values, wanted_shape};
pub use choices::{
    choice_reading, fitting_value, is_mark, of_mark, refuse_chosen, refuse_marked,
    refuse_value_choice, value_covering,
};
pub use components::{begins, pairings_for, refuse_components};
pub use operands::{aggregate, branch_slot, is_turned, right_reading};
pub use parts::{refuse_in_slot, refuse_target};
pub use readings::read_name;
