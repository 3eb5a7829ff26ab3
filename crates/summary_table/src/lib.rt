//! The shared table on which workers solve together: a gate for each body and the words of all rows, which change in single atomic
//! steps.
//!
//! Whatever its callers do and whenever, the rows stay within the least solution, and what is neither dirty nor owed nor held has its
//! equation. The protocol is that of `claim_core`, and each step on a word is one of its events; a worker has a seat, and a call says
//! what it changes in the view of that seat. The equations are a parameter that no code sees.
#![tactic(auto)]

mod closed;
mod equations;
mod plays;
mod seat;
mod table;
mod view;

pub use closed::Closed;
pub use equations::Equations;
pub use seat::Seat;
pub use table::{NotDirty, SummaryTable};
pub use view::View;
