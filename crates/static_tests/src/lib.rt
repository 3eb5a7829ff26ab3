//! Sources with static expressions, as tests.
#![tactic(auto)]

#[cfg(test)]
mod expressions;
#[cfg(test)]
mod random;
#[cfg(test)]
mod tests;
