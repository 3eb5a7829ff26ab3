//! Nothing but tests of flows and rows of programs built by hand, of rows as words, and of random code against the definition unrolled.
#![tactic(auto)]

#[cfg(test)]
mod bit_tests;
#[cfg(test)]
mod call_flow_tests;
#[cfg(test)]
mod call_tests;
#[cfg(test)]
mod frame_tests;
#[cfg(test)]
mod loop_tests;
#[cfg(test)]
mod packing_tests;
#[cfg(test)]
mod random_tests;
#[cfg(test)]
mod samples;
#[cfg(test)]
mod tests;
#[cfg(test)]
mod unrolled;
#[cfg(test)]
mod view_tests;
