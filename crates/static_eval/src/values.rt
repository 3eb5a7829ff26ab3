//! The value of a static expression.
ghost use Rattle.std.specs.Prelude.{◌≡◌, IfOk, slice_get};
ghost use Rattle.static_eval.specs.Values as values;
ghost use Rattle.static_eval.specs.Values.{IsRefusal, IsValue};

use crate::judged::judge;
use crate::judgements::{Failure, Fault, Judgement};
use crate::known::Known;
use ada_tree::Units;
use spark_base::{Bytes, ExprNo, FileNo, NoMemory, Pos};
use spark_messages::message_texts::refusal_text;
use spark_messages::{Code, Kind, Message, PhaseFault};
use std::alloc::Global;

/// What comes of an expression that has to be static.
#[derive(Clone, Copy, Debug)]
pub enum Verdict {
    Value(i128),
    Refused { code: Code, place: Pos },
}

fn code_of(failure: Failure) -> Code
    ensures { result ≡ values.code_of failure }
{
    match failure {
        Failure::Outside => Code::Y01,
        Failure::Divided => Code::Y03,
    }
}

fn is_same(a: Pos, b: Pos) -> bool
    ensures { result ≡ values.is_same a b }
{
    a.line == b.line && a.col == b.col
}

fn comes_first(fault: Fault, at: Pos) -> bool
    ensures { result ≡ values.comes_first fault at }
{
    match fault.failure {
        Failure::Outside => is_same(fault.place, at),
        Failure::Divided => false,
    }
}

fn not_static(at: Pos) -> Verdict
    ensures { result ≡ values.not_static at }
{
    Verdict::Refused {
        code: Code::Y02,
        place: at,
    }
}

fn broken(fault: Fault) -> Verdict
    ensures { result ≡ values.broken fault }
{
    Verdict::Refused {
        code: code_of(fault.failure),
        place: fault.place,
    }
}

fn of_static(fault: Option<Fault>, value: Option<i128>, at: Pos) -> Verdict
    ensures { result ≡ values.of_static fault value at }
{
    match fault {
        Some(fault) => broken(fault),
        None => match value {
            Some(n) => Verdict::Value(n),
            None => not_static(at),
        },
    }
}

fn of_other(fault: Option<Fault>, at: Pos) -> Verdict
    ensures { result ≡ values.of_other fault at }
{
    match fault {
        None => not_static(at),
        Some(fault) => {
            if comes_first(fault, at) {
                broken(fault)
            } else {
                not_static(at)
            }
        }
    }
}

/// What comes of an expression of which this is said.
#[tactic(auto, unfolding(crate::specs::Values::verdict_of))]
pub fn verdict_of(said: Judgement) -> Verdict
    ensures { result ≡ values.verdict_of said }
{
    if said.is_static {
        of_static(said.fault, said.value, said.begins)
    } else {
        of_other(said.fault, said.begins)
    }
}

/// The message of a refusal.
fn message_of(alloc: Global, file: FileNo, code: Code, place: Pos) -> Result<Message, NoMemory>
    ensures { IfOk result (λ m. m ≡ values.message_of file code place) }
{
    let text = refusal_text(code);
    Ok(Message {
        file,
        place,
        code,
        text: Bytes::from_slice(alloc, text.as_bytes())?,
        kind: Kind::Refused,
    })
}

/// A refusal of a file, or want of memory for its message.
pub fn refused(alloc: Global, file: FileNo, code: Code, place: Pos) -> PhaseFault
    ensures { IsRefusal file code place result }
{
    match message_of(alloc, file, code, place) {
        Ok(message) => PhaseFault::Refused(message),
        Err(NoMemory) => PhaseFault::NoMemory,
    }
}

/// The file of an expression.
fn file_of(units: &Units, e: ExprNo) -> FileNo
    ensures { result ≡ values.file_of (slice_get units.now.exprs e.0) }
{
    match units.exprs.get(e.0 as usize) {
        None => FileNo(0),
        Some(node) => node.span.file,
    }
}

/// The value of a static expression. Refused are, at the first place at which one of them holds: Y01, a static value
/// outside 128 bits, at its operator or literal; Y02, what is not static, at its first token; Y03, a static divisor that
/// is zero, at its operator.
pub fn value_of(
    alloc: Global,
    units: &Units,
    known: &Known,
    expr: ExprNo,
) -> Result<i128, PhaseFault>
    ensures { IsValue units.now known.now expr result }
{
    match judge(alloc, units, known, expr) {
        Err(NoMemory) => Err(PhaseFault::NoMemory),
        Ok(said) => match verdict_of(said) {
            Verdict::Value(n) => Ok(n),
            Verdict::Refused { code, place } => {
                Err(refused(alloc, file_of(units, expr), code, place))
            }
        },
    }
}
