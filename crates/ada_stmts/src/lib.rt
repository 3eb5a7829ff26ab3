//! The readers of statements and local declarations: `read_stmts` and `read_local_decls` read the longest front of the
//! tokens with which some sequence of statements, or some declarations, begin. `statements` and `declarations` have what
//! they are made of, and what readers of other parts call, which know more of where they stand.
#![tactic(auto)]

mod calls;
pub mod declarations;
pub mod statements;

pub use calls::{read_local_decls, read_stmts};
