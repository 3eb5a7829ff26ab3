//! Nothing but tests of calls: the rows of all bodies of programs built by hand.
#![tactic(auto)]

#[cfg(test)]
mod ring_tests;
