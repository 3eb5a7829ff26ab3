ghost use Rattle.std.specs.Prelude.{◌≡◌};
ghost use Rattle.core_operators.specs.Operators as specs;

/// The truth value that a number is.
pub fn truth(n: i128) -> Option<bool>
    ensures { result ≡ specs.truth n }
{
    if n == 0 {
        Some(false)
    } else if n == 1 {
        Some(true)
    } else {
        None
    }
}

/// The number of a truth value.
pub fn number_of(holds: bool) -> i128
    ensures { result ≡ specs.number_of holds }
{
    if holds { 1 } else { 0 }
}

/// Not; none of what is no truth value.
pub fn negated(n: i128) -> Option<i128>
    ensures { result ≡ specs.negated n }
{
    match truth(n) {
        Some(a) => Some(number_of(!a)),
        None => None,
    }
}

/// And; none of what is no truth value.
pub fn both(n: i128, m: i128) -> Option<i128>
    ensures { result ≡ specs.both n m }
{
    match truth(n) {
        Some(a) => match truth(m) {
            Some(b) => Some(number_of(a && b)),
            None => None,
        },
        None => None,
    }
}

/// Or; none of what is no truth value.
pub fn some_of(n: i128, m: i128) -> Option<i128>
    ensures { result ≡ specs.some_of n m }
{
    match truth(n) {
        Some(a) => match truth(m) {
            Some(b) => Some(number_of(a || b)),
            None => None,
        },
        None => None,
    }
}

/// One and not both; none of what is no truth value.
pub fn one_of(n: i128, m: i128) -> Option<i128>
    ensures { result ≡ specs.one_of n m }
{
    match truth(n) {
        Some(a) => match truth(m) {
            Some(b) => Some(number_of(a != b)),
            None => None,
        },
        None => None,
    }
}
