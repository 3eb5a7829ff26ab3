//! The top call: from the words and the files to the printed report and the status.
#![tactic(auto)]

mod driver;
mod global_check;
pub mod laws;
mod reading;
mod report;
#[cfg(test)]
mod tests;
mod top;

pub use driver::{Ending, run};
pub use reading::{ReadFault, read_all};
pub use report::{Report, report_of};
pub use top::{run_clean, run_words};
