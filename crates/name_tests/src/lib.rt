//! Nothing but tests of what names mean: keys, scopes, uses, types and marks.
#![tactic(auto)]

#[cfg(test)]
mod finding_tests;
#[cfg(test)]
mod key_tests;
#[cfg(test)]
mod mark_tests;
#[cfg(test)]
mod scope_tests;
#[cfg(test)]
mod seen_tests;
#[cfg(test)]
mod type_tests;
#[cfg(test)]
mod use_tests;
