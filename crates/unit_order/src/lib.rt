//! Which units the trees of sources have, and the order in which they are elaborated.
#![tactic(auto)]

mod heads;
mod listed;
mod orders;
mod refusals;
mod spelling;
mod withs;

pub use heads::heads_of;
pub use orders::{Order, unit_order};
