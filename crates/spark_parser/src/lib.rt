//! The readers of packages, their bodies and main subprograms, and of whole files.
#![tactic(auto)]

mod calls;
mod declarations;
mod files;
mod laws;
mod units;

pub use calls::{ParseFault, parse};
pub use laws::one_answer;
