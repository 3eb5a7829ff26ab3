//! Nothing but tests of orders of elaboration and the names of units.
#![tactic(auto)]

#[cfg(test)]
mod elaboration_tests;
#[cfg(test)]
mod package_tests;
#[cfg(test)]
mod unit_name_tests;
