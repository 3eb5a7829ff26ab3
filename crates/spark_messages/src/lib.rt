//! Messages: their codes, kinds and places, their texts, their order, and the lines in which they are printed.
#![tactic(auto)]

mod code_order;
pub mod message_texts;
pub mod messages;

pub use messages::{Code, Kind, Message, PhaseFault, ordered, text_of};
