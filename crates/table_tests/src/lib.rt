//! Nothing but tests of what happens on a shared table.
#![tactic(auto)]

#[cfg(test)]
mod samples;
#[cfg(test)]
mod tests;
