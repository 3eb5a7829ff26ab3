//! Nothing but tests of summaries: procedures on a circle, and random programs whose least rows a plain iteration finds again.
#![tactic(auto)]

#[cfg(test)]
mod circle_tests;
#[cfg(test)]
mod random_tests;
#[cfg(test)]
mod samples;
