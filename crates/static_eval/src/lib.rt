//! What is said of an expression, and the values of static expressions.
#![tactic(auto)]

mod judged;
mod judgements;
mod known;
mod values;

pub use judged::judge;
pub use judgements::{
    Failure, Fault, Judgement, applied, attribute, binary, conditional, either, identifier,
    in_mark, in_range, literal, named_argument, nothing_said, passed, qualified, selected, unary,
    unstatic,
};
pub use known::{Known, meaning_at, range_of_indication, range_of_mark, result_at};
pub use values::{Verdict, refused, value_of, verdict_of};
