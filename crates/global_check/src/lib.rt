//! The messages on the Global of a body, over given rows.
#![tactic(auto)]

mod functions;
mod listed;
mod listing;
mod messages;
mod unlisted;

pub use messages::append_global_messages;
