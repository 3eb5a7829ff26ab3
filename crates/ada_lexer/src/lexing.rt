ghost use Rattle.std.specs.Prelude.{◌≡◌, ◌<◌, ◌≤◌, ◌+◌, ◌^◌, length, false, ◌++◌, IfOk, IfErr, OnOk};
ghost use Rattle.ada_lexer.specs.Answer.{Fails};
ghost use Rattle.ada_lexer.specs.Cut as cut;

use crate::piece::Piece;
use crate::pieces::piece_at;
use crate::refusal::{Refusal, refused};
use crate::scan::{after, front};
use ada_tree::{Mark, Reserved, Token, TokenKind, Tokens};
use spark_base::{Bytes, FileNo, Items, NoMemory, Pos, Span};
use spark_messages::{Code, PhaseFault};
use std::alloc::Global;

/// The most bytes that a file may have.
pub const LIMIT: u32 = 4_194_304;

/// The place of the first byte.
const START: Pos = Pos { line: 1, col: 1 };

/// The place after these bytes.
fn moved(from: Pos, bytes: &[u8]) -> Pos
    requires line { from.line + length bytes.now < 2 ^ 32 }
    requires col { from.col + length bytes.now < 2 ^ 32 }
    ensures place { result ≡ cut.moved from bytes.now }
    ensures line { result.line ≤ from.line + length bytes.now }
    ensures col { result.col ≤ from.col + length bytes.now }
{
    let mut place = from;
    for b in bytes {
        place = past(place, *b);
    }
    place
}

/// The place after this byte.
fn past(from: Pos, b: u8) -> Pos
    requires line { from.line + 1 < 2 ^ 32 }
    requires col { from.col + 1 < 2 ^ 32 }
    ensures place { result ≡ cut.past from b }
    ensures line { result.line ≤ from.line + 1 }
    ensures col { result.col ≤ from.col + 1 }
{
    if b == b'\n' {
        Pos {
            line: from.line + 1,
            col: 1,
        }
    } else {
        Pos {
            line: from.line,
            col: from.col + 1,
        }
    }
}

/// Whether a tick after this piece is a mark; white space and comments leave it as it was before.
fn ticks(before: bool, kind: Option<TokenKind>) -> bool
    ensures { result ≡ cut.ticks before kind }
{
    match kind {
        None => before,
        Some(TokenKind::Word) => true,
        Some(TokenKind::Reserved(r)) => r == Reserved::All,
        Some(TokenKind::Mark(mark)) => mark == Mark::Close,
        Some(_) => false,
    }
}

/// Adds the token of a piece that begins at byte `at`, if it is one.
fn add(tokens: &mut Items<Token>, piece: &Piece, span: Span, at: usize) -> Result<(), NoMemory>
    requires { at + piece.now.len < 2 ^ 32 }
    ensures { OnOk result (tokens.new ≡ tokens.old ++ cut.token_of span at piece.now.len piece.now.kind) }
{
    match piece.kind {
        None => Ok(()),
        Some(kind) => tokens.push(Token {
            kind,
            span,
            from: at as u32,
            to: (at + piece.len) as u32,
        }),
    }
}

/// The tokens of a source, which is kept with them.
///
/// Refused are a source of more than `LIMIT` bytes (X01, at its beginning), and else the first
/// piece that is malformed (L02 to L04) or has a byte outside ASCII (L01). The message is of the
/// kind `Refused`, with the code and its text, at the refusal's place in this file. `NoMemory` is
/// for want of memory alone.
#[tactic(auto, unfolding(crate::specs::Cut::lexed))]
pub fn lex(alloc: Global, file: FileNo, source: Bytes) -> Result<Tokens, PhaseFault>
    ensures list { IfOk result (λ t. cut.lexed file source ≡ Ok t.list) }
    ensures file { IfOk result (λ t. t.file ≡ file) }
    ensures source { IfOk result (λ t. t.source ≡ source) }
    ensures end { IfOk result (λ t. t.end ≡ cut.place source (length source)) }
    ensures err { IfErr result (λ f. Fails file f (cut.lexed file source)) }
{
    if source.len() > LIMIT as usize {
        let refusal = Refusal {
            code: Code::X01,
            place: START,
        };
        return Err(refused(alloc, file, refusal));
    }
    let (list, end) = tokens_of(alloc, file, source.as_slice())?;
    Ok(Tokens {
        file,
        source,
        list,
        end,
    })
}

/// The tokens of these bytes, and the place behind the last byte.
fn tokens_of(alloc: Global, file: FileNo, bytes: &[u8]) -> Result<(Items<Token>, Pos), PhaseFault>
    requires { length bytes.now ≤ LIMIT }
    ensures list { IfOk result (λ r. cut.cut_from file bytes.now 0 0 false bytes.now ≡ Ok r.0) }
    ensures end { IfOk result (λ r. r.1 ≡ cut.place bytes.now (length bytes.now)) }
    ensures err { IfErr result (λ f. Fails file f (cut.cut_from file bytes.now 0 0 false bytes.now)) }
{
    let mut tokens = Items::new(alloc);
    let mut at = 0;
    let mut place = START;
    let mut ticked = false;
    while at < bytes.len() {
        let rest = after(bytes, at);
        match piece_at(ticked, rest) {
            Ok(piece) => {
                let end = moved(place, front(rest, piece.len));
                let span = Span {
                    file,
                    from: place,
                    to: end,
                };
                add(&mut tokens, &piece, span, at)?;
                at += piece.len;
                place = end;
                ticked = ticks(ticked, piece.kind);
            }
            Err(fault) => {
                let refusal = Refusal {
                    code: fault.code,
                    place: moved(place, front(rest, fault.at)),
                };
                return Err(refused(alloc, file, refusal));
            }
        }
    }
    Ok((tokens, place))
}
