//! What expressions mean where they stand: the parts that are read first, and the whole by what its parts are.
#![tactic(auto)]

mod aggregates;
mod applied;
mod listed;
mod operands;
mod scene;
mod senses;
mod spines;

pub use aggregates::{
    aggregate_sense, joined, other_sense, pairing_in, refuse_associations, slot_in, value_slot,
};
pub use applied::{
    Parts, actuals_behind, applied_sense, attribute_sense, attribute_slots, qualified_reading,
    qualified_sense, range_attribute_sense, take_ranged,
};
pub use listed::{
    Associations, Tried, associations_of, conditional_sense, named_sense, positional_sense,
    range_choice_covering, slots_of_values, value_choice_covering,
};
pub use operands::{
    argument_sense, in_mark_sense, in_range_sense, named_argument_sense, parenthesized_sense,
    right_sense, turned_sense, unary_sense,
};
pub use scene::Scene;
pub use senses::{Sense, identifier_sense, no_sense, number_sense, operator_sense, selected_sense};
pub use spines::{Descent, Step, descend};
