//! The core program of a source of the first path: `lower` makes it of a source that meets the
//! conditions and of the table of its variables' keys. The program is well-formed, and has three
//! bodies: the elaborations of the package's spec and body, and the procedure with its contract.
#![tactic(auto)]

mod code;
mod contract;
mod exprs;
mod program;
mod tables;

pub use program::lower;
