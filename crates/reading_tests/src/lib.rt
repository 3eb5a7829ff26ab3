//! Nothing but tests of messages, tokens and the forms of the grammar.
#![tactic(auto)]

#[cfg(test)]
mod children_tests;
#[cfg(test)]
mod grammar_tests;
#[cfg(test)]
mod lexer_tests;
#[cfg(test)]
mod message_tests;
#[cfg(test)]
mod printing_tests;
