//! Nothing but tests of what stands on rows alone: items and their leaves, used modes, and the messages on contracts.
#![tactic(auto)]

#[cfg(test)]
mod depends_tests;
#[cfg(test)]
mod global_tests;
#[cfg(test)]
mod initializes_tests;
#[cfg(test)]
mod item_tests;
#[cfg(test)]
mod mode_tests;
#[cfg(test)]
mod moment_tests;
#[cfg(test)]
mod samples;
