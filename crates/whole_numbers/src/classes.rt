ghost use Rattle.std.specs.Prelude.{◌≡◌, ◌+◌, ◌^◌, ◌*◌, ◌%◌, ◌/◌, ◌<◌, ◌≤◌, pos};
ghost use Rattle.std.specs.Int.{int_rem_euclid};
ghost use Rattle.whole_numbers.specs.Classes as specs;
ghost use Rattle.whole_numbers.specs.Classes.{IsModulus};

/// The number below the modulus of the class of `a`.
pub fn reduced(a: i128, m: u128) -> u128
    requires modulus { IsModulus m }
    ensures value { pos result ≡ int_rem_euclid a (pos m) }
    ensures below { result < m }
{
    a.rem_euclid(m as i128) as u128
}

// What has been added so far, behind one round of doubling.
#[tactic(auto, using(crate::proofs::Products::even_round, crate::proofs::Products::odd_round))]
fn added(so_far: u128, double: u128, left: u128, m: u128) -> u128
    requires modulus { IsModulus m }
    requires so_far { so_far < m }
    requires double { double < m }
    ensures below { result < m }
    ensures round { (result + (double + double) % m * (left / 2)) % m ≡ (so_far + double * left) % m }
{
    if left % 2 == 1 {
        (so_far + double) % m
    } else {
        so_far
    }
}

// The product of two numbers within a modulus. It may need more than 128 bits, so it is added up.
fn product_within(a: u128, b: u128, m: u128) -> u128
    requires modulus { IsModulus m }
    requires a { a < m }
    ensures value { result ≡ (a * b) % m }
    ensures below { result < m }
{
    let mut result = 0;
    let mut double = a;
    let mut left = b;
    while left > 0 {
        result = added(result, double, left, m);
        double = (double + double) % m;
        left = left / 2;
    }
    result
}

// What has been multiplied so far, behind one round of squaring.
#[tactic(auto, using(crate::proofs::Powers::even_round, crate::proofs::Powers::odd_round))]
fn multiplied(so_far: u128, square: u128, left: u128, m: u128) -> u128
    requires modulus { IsModulus m }
    requires so_far { so_far < m }
    requires square { square < m }
    ensures below { result < m }
    ensures round { (result * (square * square % m) ^ (left / 2)) % m ≡ (so_far * square ^ left) % m }
{
    if left % 2 == 1 {
        product_within(so_far, square, m)
    } else {
        so_far
    }
}

// `base` to the power `exponent`, within a modulus.
fn power_within(base: u128, exponent: u128, m: u128) -> u128
    requires modulus { IsModulus m }
    requires base { base < m }
    ensures value { result ≡ (base ^ exponent) % m }
    ensures below { result < m }
{
    let mut result = 1 % m;
    let mut square = base;
    let mut left = exponent;
    while left > 0 {
        result = multiplied(result, square, left, m);
        square = product_within(square, square, m);
        left = left / 2;
    }
    result
}

pub fn class_of_sum(a: i128, b: i128, m: u128) -> i128
    requires modulus { IsModulus m }
    ensures { result ≡ specs.class_of_sum a b m }
{
    ((reduced(a, m) + reduced(b, m)) % m) as i128
}

pub fn class_of_difference(a: i128, b: i128, m: u128) -> i128
    requires modulus { IsModulus m }
    ensures { result ≡ specs.class_of_difference a b m }
{
    ((reduced(a, m) + (m - reduced(b, m))) % m) as i128
}

pub fn class_of_product(a: i128, b: i128, m: u128) -> i128
    requires modulus { IsModulus m }
    ensures { result ≡ specs.class_of_product a b m }
{
    product_within(reduced(a, m), reduced(b, m), m) as i128
}

/// None where the exponent is negative.
pub fn class_of_power(a: i128, b: i128, m: u128) -> Option<i128>
    requires modulus { IsModulus m }
    ensures { result ≡ specs.class_of_power a b m }
{
    if b < 0 {
        None
    } else {
        Some(power_within(reduced(a, m), b.unsigned_abs(), m) as i128)
    }
}

pub fn class_of_and(a: i128, b: i128, m: u128) -> i128
    requires modulus { IsModulus m }
    ensures { result ≡ specs.class_of_and a b m }
{
    reduced(a & b, m) as i128
}

pub fn class_of_or(a: i128, b: i128, m: u128) -> i128
    requires modulus { IsModulus m }
    ensures { result ≡ specs.class_of_or a b m }
{
    reduced(a | b, m) as i128
}

pub fn class_of_xor(a: i128, b: i128, m: u128) -> i128
    requires modulus { IsModulus m }
    ensures { result ≡ specs.class_of_xor a b m }
{
    reduced(a ^ b, m) as i128
}
