ghost use Rattle.std.specs.Prelude.{◌≡◌};
ghost use Rattle.ada_lexer.specs.Classes as classes;

/// The value of a digit, where letters stand for 10 to 35; 36 of any other byte.
#[tactic(auto, unfolding(crate::specs::Classes::digit_of))]
pub fn digit_of(b: u8) -> u8
    ensures { result ≡ classes.digit_of b }
{
    match b {
        b'0'..=b'9' => b - b'0',
        b'A'..=b'Z' => b - b'A' + 10,
        b'a'..=b'z' => b - b'a' + 10,
        _ => 36,
    }
}

/// Whether a byte is a digit below the base; of base 36 a letter or a digit.
#[tactic(auto, unfolding(crate::specs::Classes::is_digit))]
pub fn is_digit(base: u8, b: u8) -> bool
    ensures { result ≡ classes.is_digit base b }
{
    digit_of(b) < base
}

#[tactic(auto, unfolding(crate::specs::Classes::is_letter))]
pub fn is_letter(b: u8) -> bool
    ensures { result ≡ classes.is_letter b }
{
    let digit = digit_of(b);
    10 <= digit && digit < 36
}

#[tactic(auto, unfolding(crate::specs::Classes::is_white))]
pub fn is_white(b: u8) -> bool
    ensures { result ≡ classes.is_white b }
{
    b == b' ' || (b'\t' <= b && b <= b'\r')
}

/// Whether a byte is not a line feed.
#[tactic(auto, unfolding(crate::specs::Classes::is_inner))]
pub fn is_inner(b: u8) -> bool
    ensures { result ≡ classes.is_inner b }
{
    b != b'\n'
}

#[tactic(auto, unfolding(crate::specs::Classes::is_printable))]
pub fn is_printable(b: u8) -> bool
    ensures { result ≡ classes.is_printable b }
{
    b' ' <= b && b <= b'~'
}

/// Whether a byte is the letter of an exponent.
#[tactic(auto, unfolding(crate::specs::Classes::is_e))]
pub fn is_e(b: u8) -> bool
    ensures { result ≡ classes.is_e b }
{
    b == b'E' || b == b'e'
}

/// Whether a byte is a decimal digit or an underscore.
#[tactic(auto, unfolding(crate::specs::Classes::is_plain))]
pub fn is_plain(b: u8) -> bool
    ensures { result ≡ classes.is_plain b }
{
    is_digit(10, b) || b == b'_'
}
