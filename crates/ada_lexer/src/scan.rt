ghost use Rattle.std.specs.Prelude.{◌≡◌, ◌+◌, ◌<◌, ◌≤◌, length, false, IfSome, slice_index, drop, take};
ghost use Rattle.ada_lexer.specs.Classes as classes;
ghost use Rattle.ada_lexer.specs.Cut as cut;
ghost use Rattle.ada_lexer.specs.Runs as runs;

use crate::classes::{is_digit, is_inner, is_white};

/// How many bytes of white space are at the front.
pub fn white_run(bytes: &[u8]) -> usize
    ensures run { result ≡ runs.run classes.is_white bytes.now }
    ensures within { result ≤ length bytes.now }
{
    for (i, b) in bytes.iter().enumerate() {
        if !is_white(*b) {
            return i;
        }
    }
    bytes.len()
}

/// How many bytes of one line are at the front.
pub fn inner_run(bytes: &[u8]) -> usize
    ensures run { result ≡ runs.run classes.is_inner bytes.now }
    ensures within { result ≤ length bytes.now }
{
    for (i, b) in bytes.iter().enumerate() {
        if !is_inner(*b) {
            return i;
        }
    }
    bytes.len()
}

/// How many bytes at the front are digits parted by single underscores, after a digit.
pub fn parted_len(base: u8, bytes: &[u8]) -> usize
    ensures len { result ≡ runs.parted_len base bytes.now }
    ensures within { result ≤ length bytes.now }
{
    let mut i = 0;
    while i < bytes.len() && continues(base, bytes, i) {
        i += 1;
    }
    i
}

/// Whether the first byte is a digit of the base.
pub fn starts_digit(base: u8, bytes: &[u8]) -> bool
    ensures { result ≡ runs.starts_digit base bytes.now }
{
    match bytes {
        [] => false,
        [b, ..] => is_digit(base, *b),
    }
}

/// Whether digits that came before go on at a place.
fn continues(base: u8, bytes: &[u8], i: usize) -> bool
    requires { i < length bytes.now }
    ensures { result ≡ runs.goes_on base (slice_index bytes.now i) (drop (i + 1) bytes.now) }
{
    let b = bytes[i];
    if is_digit(base, b) {
        true
    } else {
        b == b'_' && starts_digit(base, &bytes[i + 1..])
    }
}

/// After a quote, the length through the quote that ends the text.
pub fn text_end(bytes: &[u8]) -> Option<usize>
    ensures end { result ≡ runs.close false bytes.now }
    ensures within { IfSome result (λ n. n ≤ length bytes.now) }
{
    let mut ended = false;
    for (i, b) in bytes.iter().enumerate() {
        if *b == b'"' {
            ended = !ended;
        } else if ended {
            return Some(i);
        } else if !is_inner(*b) {
            return None;
        }
    }
    if ended { Some(bytes.len()) } else { None }
}

/// The place of the first byte above 127.
pub fn first_high(bytes: &[u8]) -> Option<usize>
    ensures first { result ≡ cut.first_high bytes.now }
    ensures within { IfSome result (λ n. n < length bytes.now) }
{
    for (i, b) in bytes.iter().enumerate() {
        if *b > 127 {
            return Some(i);
        }
    }
    None
}

/// What stands from there on.
pub fn after(bytes: &[u8], from: usize) -> &[u8]
    requires { from ≤ length bytes.now }
    ensures { result.now ≡ drop from bytes.now }
{
    &bytes[from..]
}

/// What stands up to there.
pub fn front(bytes: &[u8], to: usize) -> &[u8]
    requires { to ≤ length bytes.now }
    ensures { result.now ≡ take to bytes.now }
{
    &bytes[..to]
}
