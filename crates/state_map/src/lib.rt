//! The items that contracts name: their leaves, as which item a leaf is seen, and how an item is printed.
#![tactic(auto)]

mod leaves;
mod names;
mod views;

pub use leaves::expand;
pub use names::item_name;
pub use views::{view_in_body, view_item};
