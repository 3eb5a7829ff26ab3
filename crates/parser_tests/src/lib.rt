//! The tests of the parser, from its expressions to whole files: what it answers of texts that the lexer cut. They stand in
//! a crate of their own, above all that they call, so that the crates of the readers are proved without them.
#![tactic(auto)]

#[cfg(test)]
mod files;
#[cfg(test)]
mod parts;
#[cfg(test)]
mod reading;
#[cfg(test)]
mod worked;
