ghost use Rattle.std.specs.Prelude.{◌≡◌};
ghost use Rattle.std.specs.Int.{int_pow};
ghost use Rattle.whole_numbers.specs.Numbers as specs;

/// Division rounded towards zero; none where `m` is zero.
pub fn quotient(n: i128, m: i128) -> Option<i128>
    ensures { result ≡ specs.quotient n m }
{
    if m == 0 {
        return None;
    }
    n.checked_div(m)
}

/// What division leaves, with the sign of `n`; none where `m` is zero.
pub fn remainder(n: i128, m: i128) -> Option<i128>
    ensures { result ≡ specs.remainder n m }
{
    if m == 0 {
        return None;
    }
    Some(n.wrapping_rem(m))
}

fn is_negative(n: i128) -> bool
    ensures { result ≡ specs.is_negative n }
{
    n < 0
}

/// What lies between 0 and `m`, with the sign of `m`; none where that is zero.
pub fn modulo(n: i128, m: i128) -> Option<i128>
    ensures { result ≡ specs.modulo n m }
{
    if m == 0 {
        return None;
    }
    let rest = n.wrapping_rem(m);
    if rest != 0 && is_negative(rest) != is_negative(m) {
        rest.checked_add(m)
    } else {
        Some(rest)
    }
}

// An exponent up to 257 that gives the same power, or none that fits either.
fn short_exponent(n: u128) -> u32
    ensures { result ≡ specs.short_exponent n }
{
    if n < 256 {
        n as u32
    } else {
        256 + (n % 2) as u32
    }
}

fn power_to(n: i128, exponent: u32) -> Option<i128>
    ensures { result ≡ specs.fitting (int_pow n exponent) }
{
    n.checked_pow(exponent)
}

// `a ** n`, whatever `n` is.
fn power_natural(a: i128, n: u128) -> Option<i128>
    ensures { result ≡ specs.fitting (int_pow a n) }
{
    power_to(a, short_exponent(n))
}

/// `n ** m`, however large `m` is; none where it is negative.
pub fn power(n: i128, m: i128) -> Option<i128>
    ensures { result ≡ specs.power n m }
{
    if m < 0 {
        None
    } else {
        power_natural(n, m.unsigned_abs())
    }
}

/// The absolute value, where it lies in 128 bits.
pub fn absolute(n: i128) -> Option<i128>
    ensures { result ≡ specs.absolute n }
{
    if n < 0 { n.checked_neg() } else { Some(n) }
}
