//! The claim protocol over a program: a machine over events, by which workers share the solving of the bodies' equations.
//!
//! Whatever the events, its rows stay within the least solution, and where nothing is dirty, held or owed they are the least solution.
#![tactic(auto)]

mod checks;
mod event;
pub mod laws;
mod places;
mod state;

pub use event::{ApplyFault, Event, Guard};
pub use state::ClaimState;
