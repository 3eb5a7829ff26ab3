//! Nothing but tests of layouts: the leaves of rows, and for which bodies there is no room.
#![tactic(auto)]

#[cfg(test)]
mod leaf_tests;
#[cfg(test)]
mod room_tests;
#[cfg(test)]
mod samples;
