//! The messages on what elaborations write and leave unassigned, over given rows and what may be unassigned at each moment.
#![tactic(auto)]

mod counts;
mod initial;
mod messages;
mod moments;
mod outside;
mod starts;
mod unlisted;

pub use messages::append_initial_messages;
