ghost use Rattle.std.specs.Prelude.{◌≡◌, IfOk, length};
ghost use Rattle.ada_grammar.specs.Answer.{IsFault};
ghost use Rattle.ada_grammar.specs.Parts.{Part};
ghost use Rattle.ada_grammar.specs.Lexemes.{lexemes, text_of};
ghost use Rattle.ada_grammar.specs.Reading.{Fails};
ghost use Rattle.ada_grammar.specs.Refusals as messages;
ghost use Rattle.ada_grammar.specs.Refusals.{Tells};
ghost use Rattle.ada_grammar.specs.declared.tokens.Cursor.{Cursor};

use crate::nodes::text;
use crate::tokens::Fault;
use ada_tree::{Mark, Reserved, Token, TokenKind, Tokens};
use spark_base::{Bytes, FileNo, NoMemory, Pos};
use spark_messages::message_texts::{outside_text, refusal_text};
use spark_messages::{Code, Kind, Message, PhaseFault};
use std::alloc::Global;

/// A reserved word of Ada that the subset leaves out.
fn is_outside_word(word: Reserved) -> bool
    ensures { result ≡ messages.is_outside_word word }
{
    match word {
        Reserved::Access | Reserved::Goto | Reserved::Raise | Reserved::Abort => true,
        Reserved::Select | Reserved::Requeue | Reserved::Accept | Reserved::Generic => true,
        Reserved::Exception | Reserved::Tagged | Reserved::Interface | Reserved::Limited => true,
        Reserved::Abstract | Reserved::New | Reserved::Delta | Reserved::Digits => true,
        Reserved::Aliased | Reserved::Renames | Reserved::Separate => true,
        Reserved::Synchronized | Reserved::Some | Reserved::All => true,
        Reserved::Terminate | Reserved::Overriding => true,
        _ => false,
    }
}

/// A mark of Ada that the subset leaves out.
fn is_outside_mark(mark: Mark) -> bool
    ensures { result ≡ messages.is_outside_mark mark }
{
    match mark {
        Mark::Ampersand | Mark::OpenLabel | Mark::CloseLabel | Mark::Box => true,
        _ => false,
    }
}

/// Whether the subset has no such token.
fn is_outside(kind: TokenKind) -> bool
    ensures { result ≡ messages.is_outside kind }
{
    match kind {
        TokenKind::Text | TokenKind::Character => true,
        TokenKind::Reserved(word) => is_outside_word(word),
        TokenKind::Mark(mark) => is_outside_mark(mark),
        _ => false,
    }
}

/// How a message tells a token that is written so.
fn told<'a>(kind: TokenKind, written: &'a [u8]) -> &'a [u8]
    ensures { result.now ≡ messages.told kind written.now }
{
    match kind {
        TokenKind::Text => b"text",
        TokenKind::Character => b"character",
        _ => written,
    }
}

/// The refusal of this code.
fn refused(alloc: Global, file: FileNo, code: Code, place: Pos) -> Result<Message, NoMemory>
    ensures { IfOk result (λ m. m ≡ messages.refused file code place) }
{
    let text = refusal_text(code);
    Ok(Message {
        file,
        place,
        code,
        text: Bytes::from_slice(alloc, text.as_bytes())?,
        kind: Kind::Refused,
    })
}

/// The refusal of a token that the subset leaves out.
fn outside_message(alloc: Global, tokens: &Tokens, token: Token) -> Result<Message, NoMemory>
    ensures { IfOk result (λ m. m ≡ messages.outside_message tokens.now.file tokens.now.source token) }
{
    Ok(Message {
        file: tokens.file,
        place: token.span.from,
        code: Code::U01,
        text: outside_text(alloc, told(token.kind, text(tokens, token)))?,
        kind: Kind::Refused,
    })
}

/// The message where no sentence goes on with the token of this number, or with the end.
fn syntax_message(alloc: Global, tokens: &Tokens, at: usize) -> Result<Message, NoMemory>
    ensures { IfOk result (λ m. m ≡ messages.syntax_message tokens.now at) }
{
    match tokens.list.get(at) {
        Some(token) => {
            if is_outside(token.kind) {
                outside_message(alloc, tokens, *token)
            } else {
                refused(alloc, tokens.file, Code::S01, token.span.from)
            }
        }
        None => refused(alloc, tokens.file, Code::S01, tokens.end),
    }
}

/// The message where the token of this number passes a limit of nesting.
fn limit_message(alloc: Global, tokens: &Tokens, at: usize) -> Result<Message, NoMemory>
    ensures { IfOk result (λ m. m ≡ messages.limit_message tokens.now at) }
{
    match tokens.list.get(at) {
        Some(token) => refused(alloc, tokens.file, Code::X02, token.span.from),
        None => refused(alloc, tokens.file, Code::X02, tokens.end),
    }
}

/// U01 for a token of this number that the subset leaves out, S01 for any other and for the end of input, or want of
/// memory.
pub fn syntax_fault(alloc: Global, tokens: &Tokens, at: usize) -> PhaseFault
    ensures { Tells (messages.syntax_message tokens.now at) result }
{
    match syntax_message(alloc, tokens, at) {
        Ok(message) => PhaseFault::Refused(message),
        Err(NoMemory) => PhaseFault::NoMemory,
    }
}

/// X02 at the token of this number, or want of memory.
pub fn limit_fault(alloc: Global, tokens: &Tokens, at: usize) -> PhaseFault
    ensures { Tells (messages.limit_message tokens.now at) result }
{
    match limit_message(alloc, tokens, at) {
        Ok(message) => PhaseFault::Refused(message),
        Err(NoMemory) => PhaseFault::NoMemory,
    }
}

/// The fault of a call, from that of its reader: S01 or U01, X02, or want of memory.
#[tactic(auto, using(crate::proofs::Telling::told_syntax, crate::proofs::Telling::told_limit, crate::proofs::Telling::told_nothing))]
pub fn phase_fault(alloc: Global, tokens: &Tokens, fault: Fault) -> PhaseFault
    ensures { (part : Part) (cursor : Cursor) → Fails part (lexemes tokens.now) cursor fault → IsFault part cursor.nesting tokens.now cursor.at result }
{
    match fault {
        Fault::NoMemory => PhaseFault::NoMemory,
        Fault::Syntax(at) => syntax_fault(alloc, tokens, at),
        Fault::Limit(at) => limit_fault(alloc, tokens, at),
    }
}
