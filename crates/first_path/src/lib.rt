//! The first path: sources of one package with its variables and one procedure of assignments and ifs.
//! `reading_of` reads the source that the bytes of a file spell, by the grammar in specs/Spelling,
//! and `sources_are_one` says that they spell one at most.
#![tactic(auto)]

mod global;
mod laws;
mod lines;
mod nested;
mod reading;
mod source;
mod sources;
mod steps;
mod symbols;
mod units;

pub use laws::sources_are_one;
pub use source::{
    Adding, Entry, GlobalForm, Line, Names, PackageBody, Primary, ProcedureBody, ProcedureSpec,
    Relation, Sign, Source, Spec, Sum, Symbol, Term, Test, Variable, Word,
};
pub use sources::reading_of;
