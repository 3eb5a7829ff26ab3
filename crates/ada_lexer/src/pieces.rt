ghost use Rattle.std.specs.Prelude.{◌≡◌, ◌<◌, ◌≤◌, length, slice_index, true, false, Bool, drop};
ghost use Rattle.ada_lexer.specs.Classes as classes;
ghost use Rattle.ada_lexer.specs.Answer.{IsWithin};
ghost use Rattle.ada_lexer.specs.Cut as cut;
ghost use Rattle.ada_lexer.specs.Pieces as pieces;
ghost use Rattle.ada_lexer.specs.Runs as runs;
ghost use Rattle.ada_tree.specs.Words.{reserved_of};

use crate::classes::{is_digit, is_letter, is_white};
use crate::marks::other_piece;
use crate::number::number_piece;
use crate::piece::{Fault, Piece};
use crate::scan::{after, first_high, front, inner_run, parted_len, text_end, white_run};
use ada_tree::{TokenKind, reserved_of};
use spark_messages::Code;

/// White space at the front.
#[tactic(auto, using(crate::proofs::Here::space_here))]
fn space_piece(bytes: &[u8]) -> Result<Piece, Fault>
    requires some { 0 < length bytes.now }
    requires white { classes.is_white (slice_index bytes.now 0) ≡ true }
    ensures piece { (ticked : Bool) → result ≡ cut.piece_at ticked bytes.now }
    ensures within { IsWithin result (length bytes.now) }
{
    Ok(Piece {
        len: white_run(after(bytes, 1)) + 1,
        kind: None,
    })
}

/// A comment at the front.
#[tactic(auto, using(crate::proofs::Here::comment_here))]
fn comment_piece(bytes: &[u8]) -> Result<Piece, Fault>
    requires some { 1 < length bytes.now }
    requires first { slice_index bytes.now 0 ≡ 45 }
    requires second { slice_index bytes.now 1 ≡ 45 }
    ensures piece { (ticked : Bool) → result ≡ cut.piece_at ticked bytes.now }
    ensures within { IsWithin result (length bytes.now) }
{
    Ok(Piece {
        len: inner_run(after(bytes, 2)) + 2,
        kind: None,
    })
}

/// A word at the front.
#[tactic(auto, using(crate::proofs::Here::word_here))]
fn word_piece(bytes: &[u8]) -> Result<Piece, Fault>
    requires some { 0 < length bytes.now }
    requires letter { classes.is_letter (slice_index bytes.now 0) ≡ true }
    ensures piece { (ticked : Bool) → result ≡ cut.piece_at ticked bytes.now }
    ensures within { IsWithin result (length bytes.now) }
{
    let len = parted_len(36, after(bytes, 1)) + 1;
    let kind = word_kind(front(bytes, len));
    Ok(Piece {
        len,
        kind: Some(kind),
    })
}

/// Whether a word is reserved.
fn word_kind(word: &[u8]) -> TokenKind
    ensures { result ≡ cut.word_kind (reserved_of word.now) }
{
    match reserved_of(word) {
        Some(r) => TokenKind::Reserved(r),
        None => TokenKind::Word,
    }
}

/// A text at the front.
fn text_piece(bytes: &[u8]) -> Result<Piece, Fault>
    requires some { 0 < length bytes.now }
    requires quote { slice_index bytes.now 0 ≡ 34 }
    ensures piece { (ticked : Bool) → result ≡ cut.piece_at ticked bytes.now }
    ensures within { IsWithin result (length bytes.now) }
{
    match text_end(after(bytes, 1)) {
        None => Err(Fault {
            code: Code::L04,
            at: 0,
        }),
        Some(n) => match first_high(&bytes[..n + 1]) {
            None => Ok(Piece {
                len: n + 1,
                kind: Some(TokenKind::Text),
            }),
            Some(at) => Err(Fault {
                code: Code::L01,
                at,
            }),
        },
    }
}

/// Whether two hyphens stand at the front.
fn is_comment(bytes: &[u8]) -> bool
    requires { 0 < length bytes.now }
    ensures yes { result ≡ true → (1 < length bytes.now) × (slice_index bytes.now 0 ≡ 45) × (slice_index bytes.now 1 ≡ 45) }
    ensures no { result ≡ false → 1 < length bytes.now → slice_index bytes.now 0 ≡ 45 → slice_index bytes.now 1 ≡ 45 → ⊥ }
{
    bytes.len() > 1 && bytes[0] == b'-' && bytes[1] == b'-'
}

/// The piece at the front, or what is wrong there; `ticked`: a tick is a mark here.
pub fn piece_at(ticked: bool, bytes: &[u8]) -> Result<Piece, Fault>
    requires { 0 < length bytes.now }
    ensures piece { result ≡ cut.piece_at ticked bytes.now }
    ensures within { IsWithin result (length bytes.now) }
{
    let b = bytes[0];
    if is_white(b) {
        space_piece(bytes)
    } else if is_letter(b) {
        word_piece(bytes)
    } else if is_digit(10, b) {
        number_piece(bytes)
    } else if b == b'"' {
        text_piece(bytes)
    } else if is_comment(bytes) {
        comment_piece(bytes)
    } else {
        other_piece(ticked, bytes)
    }
}
