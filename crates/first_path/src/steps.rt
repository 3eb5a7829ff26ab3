ghost use Rattle.std.specs.Prelude.{◌≡◌, ◌∷◌, ◌↔◌, [], false, true, IsTrue, IfOk, OnOk, OnErr};
ghost use Rattle.first_path.specs.Begins.{begins, begins_word, begins_number};
ghost use Rattle.first_path.specs.declared.source.Symbol.TheVariants as symbol;

use crate::source::{Sign, Symbol, Word};
use std::collections::VecDeque;

/// The symbols do not spell what was asked for.
#[derive(Clone, Copy, Debug, PartialEq, Eq)]
pub struct NotSpelled;

/// Takes this sign.
pub fn sign(rest: &mut VecDeque<Symbol>, wanted: Sign) -> Result<(), NotSpelled>
    ensures ok { OnOk result (rest.old.items ≡ symbol.Sign wanted ∷ rest.new.items) }
    ensures err { OnErr result (begins wanted rest.old.items ≡ false) }
{
    match rest.pop_front() {
        Some(Symbol::Sign(sign)) if sign == wanted => Ok(()),
        _ => Err(NotSpelled),
    }
}

/// Takes a word.
pub fn word(rest: &mut VecDeque<Symbol>) -> Result<Word, NotSpelled>
    ensures ok { IfOk result (λ w. rest.old.items ≡ symbol.Word w ∷ rest.new.items) }
    ensures err { OnErr result (begins_word rest.old.items ≡ false) }
{
    match rest.pop_front() {
        Some(Symbol::Word(word)) => Ok(word),
        _ => Err(NotSpelled),
    }
}

/// Takes a number.
pub fn number(rest: &mut VecDeque<Symbol>) -> Result<u32, NotSpelled>
    ensures ok { IfOk result (λ n. rest.old.items ≡ symbol.Number n ∷ rest.new.items) }
    ensures err { OnErr result (begins_number rest.old.items ≡ false) }
{
    match rest.pop_front() {
        Some(Symbol::Number(number)) => Ok(number),
        _ => Err(NotSpelled),
    }
}

/// Whether this sign comes next.
pub fn is_next(rest: &VecDeque<Symbol>, wanted: Sign) -> bool
    ensures { result ≡ begins wanted rest.now.items }
{
    match rest.front() {
        Some(Symbol::Sign(sign)) => *sign == wanted,
        _ => false,
    }
}

/// Whether a word comes next.
pub fn is_word_next(rest: &VecDeque<Symbol>) -> bool
    ensures { result ≡ begins_word rest.now.items }
{
    matches!(rest.front(), Some(Symbol::Word(_)))
}

/// Whether nothing is left.
pub fn is_finished(rest: &VecDeque<Symbol>) -> bool
    ensures { IsTrue result ↔ (rest.now.items ≡ []) }
{
    rest.is_empty()
}
