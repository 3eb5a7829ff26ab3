ghost use Rattle.std.specs.Prelude.{◌≡◌, ◌≤◌, All, IfOk, length};
ghost use Rattle.std.specs.Char.{is_ascii_digit};
ghost use Rattle.std.specs.List.{list_all};
ghost use Rattle.first_path.specs.Symbols as spec;
ghost use Rattle.first_path.specs.Symbols.{IsInside};

use crate::source::{Sign, Symbol, Word};
use ada_tree::{Mark, Reserved, Token, TokenKind, Tokens};
use spark_base::{Bytes, NoMemory};
use std::alloc::Global;
use std::collections::VecDeque;

/// The largest number that a source may write.
const LARGEST: u128 = 2_147_483_647;

/// The symbol of a reserved word.
fn reserved_symbol(word: Reserved) -> Symbol
    ensures { result ≡ spec.reserved_symbol word }
{
    match word {
        Reserved::Begin => Symbol::Sign(Sign::Begin),
        Reserved::Body => Symbol::Sign(Sign::Body),
        Reserved::Else => Symbol::Sign(Sign::Else),
        Reserved::End => Symbol::Sign(Sign::End),
        Reserved::If => Symbol::Sign(Sign::If),
        Reserved::Is => Symbol::Sign(Sign::Is),
        Reserved::Null => Symbol::Sign(Sign::Null),
        Reserved::Package => Symbol::Sign(Sign::Package),
        Reserved::Procedure => Symbol::Sign(Sign::Procedure),
        Reserved::Then => Symbol::Sign(Sign::Then),
        Reserved::With => Symbol::Sign(Sign::With),
        _ => Symbol::Other,
    }
}

/// The symbol of a mark.
fn mark_symbol(mark: Mark) -> Symbol
    ensures { result ≡ spec.mark_symbol mark }
{
    match mark {
        Mark::Open => Symbol::Sign(Sign::Open),
        Mark::Close => Symbol::Sign(Sign::Close),
        Mark::Comma => Symbol::Sign(Sign::Comma),
        Mark::Colon => Symbol::Sign(Sign::Colon),
        Mark::Semicolon => Symbol::Sign(Sign::Semicolon),
        Mark::Becomes => Symbol::Sign(Sign::Becomes),
        Mark::Arrow => Symbol::Sign(Sign::Arrow),
        Mark::Plus => Symbol::Sign(Sign::Plus),
        Mark::Minus => Symbol::Sign(Sign::Minus),
        Mark::Equal => Symbol::Sign(Sign::Equal),
        Mark::NotEqual => Symbol::Sign(Sign::NotEqual),
        Mark::Less => Symbol::Sign(Sign::Less),
        Mark::AtMost => Symbol::Sign(Sign::AtMost),
        Mark::Greater => Symbol::Sign(Sign::Greater),
        Mark::AtLeast => Symbol::Sign(Sign::AtLeast),
        _ => Symbol::Other,
    }
}

/// Whether there are only decimal digits.
fn is_digits_alone(written: &[u8]) -> bool
    ensures { result ≡ list_all is_ascii_digit written.now }
{
    written.iter().all(|b| b.is_ascii_digit())
}

/// The symbol of a number, by its bytes and its value.
fn number_symbol(written: &[u8], value: u128) -> Symbol
    ensures { result ≡ spec.number_symbol written.now value }
{
    if is_digits_alone(written) && value <= LARGEST {
        Symbol::Number(value as u32)
    } else {
        Symbol::Other
    }
}

/// The symbol of a token of this source.
fn symbol_of(alloc: Global, source: &[u8], token: &Token) -> Result<Symbol, NoMemory>
    requires { IsInside source.now token.now }
    ensures { IfOk result (λ s. s ≡ spec.symbol_of source.now token.now) }
{
    let written = &source[token.from as usize..token.to as usize];
    match token.kind {
        TokenKind::Word => Ok(Symbol::Word(Word {
            written: Bytes::from_slice(alloc, written)?,
            span: token.span,
        })),
        TokenKind::Reserved(word) => Ok(reserved_symbol(word)),
        TokenKind::Number(value) => Ok(number_symbol(written, value)),
        TokenKind::Mark(mark) => Ok(mark_symbol(mark)),
        TokenKind::Text | TokenKind::Character => Ok(Symbol::Other),
    }
}

/// The symbols of the tokens of a source.
pub fn symbols_of(alloc: Global, tokens: &Tokens) -> Result<VecDeque<Symbol>, NoMemory>
    requires { All (IsInside tokens.now.source) tokens.now.list }
    ensures { IfOk result (λ q. q.items ≡ spec.symbols tokens.now.source tokens.now.list) }
{
    let mut symbols = VecDeque::new(alloc);
    let source = tokens.source.as_slice();
    for token in tokens.list.as_slice() {
        symbols.push_back(symbol_of(alloc, source, token)?)?;
    }
    Ok(symbols)
}
