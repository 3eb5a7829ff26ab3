//! The messages on the Depends of a body, over given rows.
#![tactic(auto)]

mod checked;
mod dependencies;
mod faults;
mod item_sets;
mod mentions;
mod messages;
mod sides;
mod used;

pub use messages::append_depends_messages;
