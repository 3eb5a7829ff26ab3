ghost use Rattle.std.specs.Prelude.{◌≡◌, ◌≢◌, ◌<◌, ◌≤◌, ◌+◌, ◌*◌, ◌^◌, ℕ, if◌then◌else◌, length, slice_index, true, false, Bool, drop, take, IfSome};
ghost use Rattle.ada_lexer.specs.Answer.{IsWithin};
ghost use Rattle.ada_lexer.specs.Classes as classes;
ghost use Rattle.ada_lexer.specs.Cut as cut;
ghost use Rattle.ada_lexer.specs.Pieces as pieces;
ghost use Rattle.ada_lexer.specs.Runs as runs;

use crate::classes::{digit_of, is_digit, is_e, is_letter, is_plain};
use crate::piece::{Fault, Piece};
use crate::scan::{after, front, parted_len, starts_digit};
use ada_tree::TokenKind;
use spark_messages::Code;

/// The value with one more byte, if 128 bits hold it.
fn push_digit(base: u8, value: u128, b: u8) -> Option<u128>
    ensures { result ≡ runs.fits (if classes.is_digit base b then base * value + classes.digit_of b else value) }
{
    if is_digit(base, b) {
        value
            .checked_mul(u128::from(base))?
            .checked_add(u128::from(digit_of(b)))
    } else {
        Some(value)
    }
}

/// The value of digits, if 128 bits hold it.
fn value_in(base: u8, bytes: &[u8]) -> Option<u128>
    ensures { result ≡ runs.fits (cut.value_from base 0 bytes.now) }
{
    let mut value = 0;
    for b in bytes {
        match push_digit(base, value, *b) {
            Some(next) => value = next,
            None => return None,
        }
    }
    Some(value)
}

/// The base that these digits are, or 0 where they are none of 2 to 16.
#[tactic(auto, unfolding(crate::specs::Classes::base_of))]
fn base_of(bytes: &[u8]) -> u8
    ensures base { result ≡ classes.base_of (cut.value_from 10 0 bytes.now) }
    ensures base_or_none { result ≢ 1 }
{
    match value_in(10, bytes) {
        Some(v) if 2 <= v && v <= 16 => v as u8,
        _ => 0,
    }
}

/// How many bytes stand before the first #.
fn before_hash(bytes: &[u8]) -> usize
    ensures before { result ≡ cut.before cut.is_hash bytes.now }
    ensures within { result ≤ length bytes.now }
{
    for (i, b) in bytes.iter().enumerate() {
        if *b == b'#' {
            return i;
        }
    }
    bytes.len()
}

/// How many bytes stand before the first E.
fn before_e(bytes: &[u8]) -> usize
    ensures before { result ≡ cut.before classes.is_e bytes.now }
    ensures within { result ≤ length bytes.now }
{
    for (i, b) in bytes.iter().enumerate() {
        if is_e(*b) {
            return i;
        }
    }
    bytes.len()
}

/// Whether there are only decimal digits and underscores.
fn is_digits_alone(bytes: &[u8]) -> bool
    ensures { result ≡ pieces.every classes.is_plain bytes.now }
{
    for b in bytes {
        if !is_plain(*b) {
            return false;
        }
    }
    true
}

/// How many bytes at the front are digits with single underscores between them.
fn due_len(base: u8, bytes: &[u8]) -> Option<usize>
    ensures len { result ≡ runs.due_len base bytes.now }
    ensures within { IfSome result (λ n. n ≤ length bytes.now) }
{
    if starts_digit(base, bytes) {
        Some(parted_len(base, bytes))
    } else {
        None
    }
}

/// After its letter, the length of an exponent at the front.
fn exponent_len(bytes: &[u8]) -> Option<usize>
    ensures len { result ≡ runs.exponent_len bytes.now }
    ensures within { IfSome result (λ n. n ≤ length bytes.now) }
{
    if bytes.is_empty() {
        return None;
    }
    if bytes[0] == b'+' {
        let n = due_len(10, after(bytes, 1))?;
        Some(n + 1)
    } else {
        due_len(10, bytes)
    }
}

/// The length of an exponent at the front, or 0.
fn scale_len(bytes: &[u8]) -> usize
    ensures len { result ≡ runs.scale_len bytes.now }
    ensures within { result ≤ length bytes.now }
{
    if bytes.is_empty() || !is_e(bytes[0]) {
        return 0;
    }
    match exponent_len(after(bytes, 1)) {
        Some(n) => n + 1,
        None => 0,
    }
}

/// After a #, the length of a base's digits, a # and perhaps an exponent.
fn based_len(base: u8, bytes: &[u8]) -> Option<usize>
    ensures len { result ≡ runs.based_len base true bytes.now }
    ensures within { IfSome result (λ n. n ≤ length bytes.now) }
{
    let mut due = true;
    for (i, b) in bytes.iter().enumerate() {
        if is_digit(base, *b) {
            due = false;
        } else if due {
            return None;
        } else if *b == b'_' {
            due = true;
        } else if *b == b'#' {
            return Some(i + 1 + scale_len(after(bytes, i + 1)));
        } else {
            return None;
        }
    }
    None
}

/// The length of what follows the first digits of a number.
fn tail_len(base: u8, bytes: &[u8]) -> usize
    ensures len { result ≡ runs.tail_len base bytes.now }
    ensures within { result ≤ length bytes.now }
{
    if bytes.is_empty() {
        return 0;
    }
    if bytes[0] == b'#' {
        match based_len(base, after(bytes, 1)) {
            Some(n) => n + 1,
            None => 0,
        }
    } else {
        scale_len(bytes)
    }
}

/// The number at the front.
pub fn number_piece(bytes: &[u8]) -> Result<Piece, Fault>
    requires some { 0 < length bytes.now }
    requires digit { classes.is_digit 10 (slice_index bytes.now 0) ≡ true }
    ensures piece { (ticked : Bool) → result ≡ cut.piece_at ticked bytes.now }
    ensures within { IsWithin result (length bytes.now) }
{
    let first = after(bytes, 1);
    let k = parted_len(10, first) + 1;
    let digits = front(bytes, k);
    let base = base_of(digits);
    let tail = after(bytes, k);
    let n = k + tail_len(base, tail);
    let number = front(bytes, n);
    let rest = after(bytes, n);
    judged(n, number, rest)
}

/// A number of so many bytes, by its value and by what stands behind it.
fn judged(len: usize, number: &[u8], rest: &[u8]) -> Result<Piece, Fault>
    requires len { 0 < len }
    requires number { 0 < length number.now }
    ensures piece { result ≡ runs.number_made len (cut.spoils number.now rest.now) (runs.fits (cut.number_value number.now)) }
    ensures within { IsWithin result len }
{
    if spoils(number, rest) {
        return Err(Fault {
            code: Code::L02,
            at: 0,
        });
    }
    match number_value(number) {
        None => Err(Fault {
            code: Code::L03,
            at: 0,
        }),
        Some(value) => Ok(Piece {
            len,
            kind: Some(TokenKind::Number(value)),
        }),
    }
}

/// The value of a number, if 128 bits hold it.
#[tactic(auto, unfolding(crate::specs::Cut::number_value))]
fn number_value(bytes: &[u8]) -> Option<u128>
    ensures { result ≡ runs.fits (cut.number_value bytes.now) }
{
    let n = before_hash(bytes);
    if n < bytes.len() {
        based_value(front(bytes, n), after(bytes, n + 1))
    } else {
        let n = before_e(bytes);
        scaled(10, front(bytes, n), after(bytes, n))
    }
}

/// The value of a number by its base and what follows the first #, if 128 bits hold it.
fn based_value(base: &[u8], rest: &[u8]) -> Option<u128>
    ensures { result ≡ runs.fits (cut.based_value base.now rest.now) }
{
    let n = before_hash(rest);
    scaled(base_of(base), front(rest, n), after(rest, n))
}

/// A value times the base to the exponent, if 128 bits hold it.
fn scaled(base: u8, digits: &[u8], exponent: &[u8]) -> Option<u128>
    requires { base ≢ 1 }
    ensures { result ≡ runs.fits (cut.scaled base digits.now exponent.now) }
{
    if base == 0 {
        return Some(0);
    }
    match value_in(base, digits) {
        None => None,
        Some(0) => Some(0),
        Some(value) => match value_in(10, exponent) {
            None => None,
            Some(times) => times_power(value, base, times),
        },
    }
}

/// A value times a power, if 128 bits hold it.
fn times_power(value: u128, base: u8, times: u128) -> Option<u128>
    requires value { 0 < value }
    requires base { 2 ≤ base }
    ensures { result ≡ runs.fits (value * base ^ times) }
{
    let mut all = value;
    let mut left = times;
    while left > 0 {
        match all.checked_mul(u128::from(base)) {
            Some(next) => all = next,
            None => return None,
        }
        left -= 1;
    }
    Some(all)
}

/// Whether what stands behind a number makes it malformed.
fn spoils(number: &[u8], rest: &[u8]) -> bool
    requires { 0 < length number.now }
    ensures { result ≡ cut.spoils number.now rest.now }
{
    if rest.is_empty() {
        return false;
    }
    let b = rest[0];
    if is_letter(b) {
        true
    } else if b == b'.' {
        starts_digit(10, after(rest, 1))
    } else if b == b'_' {
        number[number.len() - 1] != b'#'
    } else if b == b'#' {
        is_digits_alone(number)
    } else {
        false
    }
}
