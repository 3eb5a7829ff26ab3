//! Nothing but tests of the rules of expressions: outlines, slots, choices and values.
#![tactic(auto)]

#[cfg(test)]
mod cover_tests;
#[cfg(test)]
mod outline_tests;
#[cfg(test)]
mod rule_tests;
#[cfg(test)]
mod slot_tests;
#[cfg(test)]
mod value_tests;
