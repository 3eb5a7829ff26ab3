ghost use Rattle.std.specs.Prelude.{◌≡◌, ◌<◌, ◌≤◌, List, IfOk, IfErr, OnOk, OnErr, true, false, length};
ghost use Rattle.first_path.specs.Begins.{Denies, begins_term};
ghost use Rattle.first_path.specs.Spelling.{each_then, sign_of, sign_then, variable_then, primary_then, term_then, sum_then};
ghost use Rattle.first_path.specs.declared.reading.ReadFault.TheVariants as fault;
ghost use Rattle.first_path.specs.declared.source.Primary.{Primary};
ghost use Rattle.first_path.specs.declared.source.Sum.{Sum};
ghost use Rattle.first_path.specs.declared.source.Symbol.{Symbol};
ghost use Rattle.first_path.specs.declared.source.Term.{Term};
ghost use Rattle.first_path.specs.declared.source.Variable.{Variable};

use crate::source::{Adding, Primary, Sign, Sum, Symbol, Term, Variable};
use crate::steps::{NotSpelled, is_next, number, sign, word};
use spark_base::{Items, NoMemory};
use std::alloc::Global;
use std::collections::VecDeque;

/// Why a part was not read.
#[derive(Clone, Copy, Debug, PartialEq, Eq)]
pub enum ReadFault {
    /// The symbols do not spell it.
    NotSpelled,
    NoMemory,
}

impl From<NotSpelled> for ReadFault {
    ghost from_gives = { λ _ f. f ≡ fault.NotSpelled };

    fn from(_: NotSpelled) -> Self {
        ReadFault::NotSpelled
    }
}

impl From<NoMemory> for ReadFault {
    ghost from_gives = { λ _ f. f ≡ fault.NoMemory };

    fn from(_: NoMemory) -> Self {
        ReadFault::NoMemory
    }
}

/// Reads a variable.
pub fn variable(rest: &mut VecDeque<Symbol>) -> Result<Variable, NotSpelled>
    ensures ok { IfOk result (λ v. rest.old.items ≡ variable_then v rest.new.items) }
    ensures shorter { OnOk result (length rest.new.items < length rest.old.items) }
    ensures err { OnErr result ((v : Variable) (r : List Symbol) → rest.old.items ≡ variable_then v r → ⊥) }
{
    let name = word(rest)?;
    sign(rest, Sign::Colon)?;
    let mark = word(rest)?;
    sign(rest, Sign::Becomes)?;
    let value = number(rest)?;
    sign(rest, Sign::Semicolon)?;
    Ok(Variable { name, mark, value })
}

/// Reads a name or a number.
fn primary(rest: &mut VecDeque<Symbol>) -> Result<Primary, NotSpelled>
    ensures ok { IfOk result (λ p. rest.old.items ≡ primary_then p rest.new.items) }
    ensures shorter { OnOk result (length rest.new.items < length rest.old.items) }
    ensures err { OnErr result ((p : Primary) (r : List Symbol) → rest.old.items ≡ primary_then p r → ⊥) }
{
    match rest.pop_front() {
        Some(Symbol::Word(word)) => Ok(Primary::Name(word)),
        Some(Symbol::Number(number)) => Ok(Primary::Number(number)),
        _ => Err(NotSpelled),
    }
}

/// Reads an operator.
fn operator(rest: &mut VecDeque<Symbol>) -> Result<Adding, NotSpelled>
    ensures ok { IfOk result (λ a. rest.old.items ≡ sign_then (sign_of a) rest.new.items) }
    ensures err { OnErr result (begins_term rest.old.items ≡ false) }
{
    match rest.pop_front() {
        Some(Symbol::Sign(Sign::Plus)) => Ok(Adding::Plus),
        Some(Symbol::Sign(Sign::Minus)) => Ok(Adding::Minus),
        _ => Err(NotSpelled),
    }
}

/// Reads a further term of a sum.
fn term(rest: &mut VecDeque<Symbol>) -> Result<Term, NotSpelled>
    ensures ok { IfOk result (λ t. rest.old.items ≡ term_then t rest.new.items) }
    ensures shorter { OnOk result (length rest.new.items < length rest.old.items) }
    ensures err { OnErr result ((t : Term) (r : List Symbol) → rest.old.items ≡ term_then t r → ⊥) }
{
    let operator = operator(rest)?;
    let operand = primary(rest)?;
    Ok(Term { operator, operand })
}

/// Whether a further term comes next.
fn is_term_next(rest: &VecDeque<Symbol>) -> bool
    ensures { result ≡ begins_term rest.now.items }
{
    is_next(rest, Sign::Plus) || is_next(rest, Sign::Minus)
}

/// Reads the further terms of a sum.
fn terms(alloc: Global, rest: &mut VecDeque<Symbol>) -> Result<Items<Term>, ReadFault>
    ensures ok { IfOk result (λ ts. rest.old.items ≡ each_then term_then ts rest.new.items) }
    ensures shorter { OnOk result (length rest.new.items ≤ length rest.old.items) }
    ensures stop { OnOk result (begins_term rest.new.items ≡ false) }
    ensures err { IfErr result (λ f. Denies f ((ts : List Term) (r : List Symbol) → begins_term r ≡ false
        → rest.old.items ≡ each_then term_then ts r → ⊥)) }
{
    let mut list = Items::new(alloc);
    'each: while is_term_next(rest) {
        match term(rest) {
            Ok(next) => list.push(next)?,
            Err(NotSpelled) => return Err(ReadFault::NotSpelled),
        }
    }
    Ok(list)
}

/// Reads a sum.
pub fn sum(alloc: Global, rest: &mut VecDeque<Symbol>) -> Result<Sum, ReadFault>
    ensures ok { IfOk result (λ s. rest.old.items ≡ sum_then s rest.new.items) }
    ensures shorter { OnOk result (length rest.new.items < length rest.old.items) }
    ensures stop { OnOk result (begins_term rest.new.items ≡ false) }
    ensures err { IfErr result (λ f. Denies f ((s : Sum) (r : List Symbol) → begins_term r ≡ false
        → rest.old.items ≡ sum_then s r → ⊥)) }
{
    let first = primary(rest)?;
    let more = terms(alloc, rest)?;
    Ok(Sum { first, more })
}
