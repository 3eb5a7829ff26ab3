//! Nothing but tests of programs in core form: what is well-formed, what operators give, and runs.
#![tactic(auto)]

#[cfg(test)]
mod form_tests;
#[cfg(test)]
mod operator_tests;
#[cfg(test)]
mod run_tests;
