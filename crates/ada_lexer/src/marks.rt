ghost use Rattle.std.specs.Prelude.{◌≡◌, ◌<◌, ◌≤◌, length};
ghost use Rattle.ada_lexer.specs.Answer.{IsWithin};
ghost use Rattle.ada_tree.specs.Marks as marks;
ghost use Rattle.ada_lexer.specs.Runs as runs;

use crate::classes::is_printable;
use crate::piece::{Fault, Piece};
use ada_tree::{TokenKind, double_mark, single_mark};
use spark_messages::Code;

/// A mark of one byte, or what is wrong with that byte.
fn one_mark(b: u8) -> Result<Piece, Fault>
    ensures piece { result ≡ runs.one_mark b (marks.single b) }
    ensures within { IsWithin result 1 }
{
    match single_mark(b) {
        Some(mark) => Ok(Piece {
            len: 1,
            kind: Some(TokenKind::Mark(mark)),
        }),
        None => {
            let code = if b > 127 { Code::L01 } else { Code::L04 };
            Err(Fault { code, at: 0 })
        }
    }
}

/// A mark of two bytes, or else of their first.
fn two_marks(b: u8, c: u8) -> Result<Piece, Fault>
    ensures piece { result ≡ runs.two_marks b (marks.double b c) }
    ensures within { IsWithin result 2 }
{
    match double_mark(b, c) {
        Some(mark) => Ok(Piece {
            len: 2,
            kind: Some(TokenKind::Mark(mark)),
        }),
        None => one_mark(b),
    }
}

/// Whether three bytes are a character, where a tick is no mark.
fn is_ticked(ticked: bool, b: u8, c: u8, d: u8) -> bool
    ensures { result ≡ runs.ticked_byte ticked b c d }
{
    !ticked && b == b'\'' && is_printable(c) && d == b'\''
}

/// A mark or a character at the front, or what is wrong with the first byte.
#[tactic(auto, using(crate::proofs::Here::other_long, crate::proofs::Here::other_two, crate::proofs::Here::other_one))]
pub fn other_piece(ticked: bool, bytes: &[u8]) -> Result<Piece, Fault>
    requires { 0 < length bytes.now }
    ensures piece { result ≡ runs.other ticked bytes.now }
    ensures within { IsWithin result (length bytes.now) }
{
    let b = bytes[0];
    if bytes.len() < 2 {
        return one_mark(b);
    }
    let c = bytes[1];
    if bytes.len() > 2 && is_ticked(ticked, b, c, bytes[2]) {
        return Ok(Piece {
            len: 3,
            kind: Some(TokenKind::Character),
        });
    }
    two_marks(b, c)
}
