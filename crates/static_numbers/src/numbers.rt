//! Exact arithmetic on 128 bits, and on modular numbers.
ghost use Rattle.std.specs.Prelude.{◌≡◌, ◌<◌, ◌^◌};
ghost use Rattle.static_numbers.specs.Numbers as numbers;
ghost use Rattle.whole_numbers.specs.Classes.{IsModulus};

use ada_tree::{AddingOperator, LogicalOperator, MultiplyingOperator, RelationalOperator};
use whole_numbers::{class_of_difference, class_of_power, class_of_product, class_of_sum, reduced};

/// What an operator makes of values.
#[derive(Clone, Copy, Debug)]
pub enum Computed {
    Number(i128),
    /// The number lies outside 128 bits.
    Outside,
    /// There is no number, and no rule on static values is broken.
    Nothing,
}

/// An operator between two operands.
#[derive(Clone, Copy, Debug)]
pub enum Computing {
    Add,
    Subtract,
    Multiply,
    Divide,
    Modulo,
    Remainder,
    Power,
    And,
    Or,
    Xor,
}

fn of_option(n: Option<i128>) -> Computed
    ensures { result ≡ numbers.of_option n }
{
    match n {
        Some(n) => Computed::Number(n),
        None => Computed::Outside,
    }
}

/// The sum, where it lies in 128 bits.
fn sum(a: i128, b: i128) -> Computed
    ensures { result ≡ numbers.fitted (numbers.added a b) }
{
    of_option(a.checked_add(b))
}

fn difference(a: i128, b: i128) -> Computed
    ensures { result ≡ numbers.fitted (numbers.subtracted a b) }
{
    of_option(a.checked_sub(b))
}

fn product(a: i128, b: i128) -> Computed
    ensures { result ≡ numbers.fitted (numbers.multiplied a b) }
{
    of_option(a.checked_mul(b))
}

fn quotient(a: i128, b: i128) -> Computed
    ensures { result ≡ numbers.quotient a b }
{
    if b == 0 {
        return Computed::Nothing;
    }
    of_option(whole_numbers::quotient(a, b))
}

fn remainder(a: i128, b: i128) -> Computed
    ensures { result ≡ numbers.remainder a b }
{
    if b == 0 {
        return Computed::Nothing;
    }
    of_option(whole_numbers::remainder(a, b))
}

/// One more than the greatest value of a modular type.
fn modulus(last: u64) -> u128
    ensures value { result ≡ numbers.modulus last }
    ensures fine { IsModulus result }
{
    last as u128 + 1
}

fn number(n: u128) -> Computed
    requires { n < 2 ^ 127 }
    ensures { result ≡ numbers.class n }
{
    Computed::Number(n as i128)
}

/// `a mod b`: what lies between 0 and `b`.
fn modulo(a: i128, b: i128) -> Computed
    ensures { result ≡ numbers.modulo a b }
{
    if b == 0 {
        return Computed::Nothing;
    }
    of_option(whole_numbers::modulo(a, b))
}

fn power(a: i128, b: i128) -> Computed
    ensures { result ≡ numbers.power a b }
{
    if b < 0 {
        Computed::Nothing
    } else {
        of_option(whole_numbers::power(a, b))
    }
}

/// An operator of a signed type, or of numbers that fit each type.
fn compute_signed(how: Computing, a: i128, b: i128) -> Computed
    ensures { result ≡ numbers.compute_signed how a b }
{
    match how {
        Computing::Add => sum(a, b),
        Computing::Subtract => difference(a, b),
        Computing::Multiply => product(a, b),
        Computing::Divide => quotient(a, b),
        Computing::Modulo => modulo(a, b),
        Computing::Remainder => remainder(a, b),
        Computing::Power => power(a, b),
        Computing::And => truth(a != 0 && b != 0),
        Computing::Or => truth(a != 0 || b != 0),
        Computing::Xor => truth((a != 0) != (b != 0)),
    }
}

pub fn truth(holds: bool) -> Computed
    ensures { result ≡ numbers.truth holds }
{
    if holds {
        Computed::Number(1)
    } else {
        Computed::Number(0)
    }
}

/// The class of a number, where there is one.
fn wrapped(computed: Computed, m: u128) -> Computed
    requires modulus { IsModulus m }
    ensures { result ≡ numbers.wrapped computed m }
{
    match computed {
        Computed::Number(n) => number(reduced(n, m)),
        Computed::Outside => Computed::Outside,
        Computed::Nothing => Computed::Nothing,
    }
}

/// The bits of a number; of a negative one those of its class.
fn bits(n: i128, m: u128) -> u128
    requires modulus { IsModulus m }
    ensures { result ≡ numbers.bits n m }
{
    if n < 0 {
        reduced(n, m)
    } else {
        n.unsigned_abs()
    }
}

fn compute_modular(how: Computing, a: i128, b: i128, last: u64) -> Computed
    ensures { result ≡ numbers.compute_modular how a b last }
{
    let m = modulus(last);
    match how {
        Computing::Add => Computed::Number(class_of_sum(a, b, m)),
        Computing::Subtract => Computed::Number(class_of_difference(a, b, m)),
        Computing::Multiply => Computed::Number(class_of_product(a, b, m)),
        Computing::Divide => wrapped(quotient(a, b), m),
        Computing::Modulo => wrapped(modulo(a, b), m),
        Computing::Remainder => wrapped(remainder(a, b), m),
        Computing::Power => match class_of_power(a, b, m) {
            Some(n) => Computed::Number(n),
            None => Computed::Nothing,
        },
        Computing::And => number((bits(a, m) & bits(b, m)) % m),
        Computing::Or => number((bits(a, m) | bits(b, m)) % m),
        Computing::Xor => number((bits(a, m) ^ bits(b, m)) % m),
    }
}

/// What an operator makes of its operands, of a modular type where there is one.
pub fn compute(how: Computing, a: i128, b: i128, modular: Option<u64>) -> Computed
    ensures { result ≡ numbers.compute how a b modular }
{
    match modular {
        None => compute_signed(how, a, b),
        Some(last) => compute_modular(how, a, b, last),
    }
}

/// An operator before one operand.
#[derive(Clone, Copy, Debug)]
pub enum Preceding {
    Plus,
    Minus,
    Absolute,
    Not,
}

fn negated(n: i128) -> Computed
    ensures { result ≡ numbers.fitted (numbers.negative n) }
{
    of_option(n.checked_neg())
}

fn alone_signed(how: Preceding, n: i128) -> Computed
    ensures { result ≡ numbers.alone_signed how n }
{
    match how {
        Preceding::Plus => Computed::Number(n),
        Preceding::Minus => negated(n),
        Preceding::Absolute => {
            if n < 0 {
                negated(n)
            } else {
                Computed::Number(n)
            }
        }
        Preceding::Not => truth(n == 0),
    }
}

fn alone_modular(how: Preceding, n: i128, last: u64) -> Computed
    ensures { result ≡ numbers.alone_modular how n last }
{
    let m = modulus(last);
    let a = reduced(n, m);
    match how {
        Preceding::Plus => Computed::Number(n),
        Preceding::Minus => number((m - a) % m),
        Preceding::Absolute => alone_signed(Preceding::Absolute, n),
        Preceding::Not => number(m - 1 - a),
    }
}

/// What an operator before one operand makes of it, of a modular type where there is one.
pub fn compute_alone(how: Preceding, n: i128, modular: Option<u64>) -> Computed
    ensures { result ≡ numbers.compute_alone how n modular }
{
    match modular {
        None => alone_signed(how, n),
        Some(last) => alone_modular(how, n, last),
    }
}

/// Whether two values are in this relation.
pub fn relate(operator: RelationalOperator, a: i128, b: i128) -> bool
    ensures { result ≡ numbers.relate operator a b }
{
    match operator {
        RelationalOperator::Equal => a == b,
        RelationalOperator::NotEqual => a != b,
        RelationalOperator::Less => a < b,
        RelationalOperator::AtMost => a <= b,
        RelationalOperator::Greater => b < a,
        RelationalOperator::AtLeast => b <= a,
    }
}

/// The operator between truth values, or between modular numbers.
pub fn logical(operator: LogicalOperator) -> Computing
    ensures { result ≡ numbers.logical operator }
{
    match operator {
        LogicalOperator::And => Computing::And,
        LogicalOperator::Or => Computing::Or,
        LogicalOperator::Xor => Computing::Xor,
        LogicalOperator::AndThen => Computing::And,
        LogicalOperator::OrElse => Computing::Or,
    }
}

pub fn adding(operator: AddingOperator) -> Computing
    ensures { result ≡ numbers.adding operator }
{
    match operator {
        AddingOperator::Plus => Computing::Add,
        AddingOperator::Minus => Computing::Subtract,
    }
}

pub fn multiplying(operator: MultiplyingOperator) -> Computing
    ensures { result ≡ numbers.multiplying operator }
{
    match operator {
        MultiplyingOperator::Times => Computing::Multiply,
        MultiplyingOperator::Divide => Computing::Divide,
        MultiplyingOperator::Mod => Computing::Modulo,
        MultiplyingOperator::Rem => Computing::Remainder,
    }
}

/// The sign before a term.
pub fn sign(operator: AddingOperator) -> Preceding
    ensures { result ≡ numbers.sign operator }
{
    match operator {
        AddingOperator::Plus => Preceding::Plus,
        AddingOperator::Minus => Preceding::Minus,
    }
}

/// Whether a zero on the right of an operator is refused.
pub fn divides(how: Computing) -> bool
    ensures { result ≡ numbers.divides how }
{
    match how {
        Computing::Divide => true,
        Computing::Modulo => true,
        Computing::Remainder => true,
        _ => false,
    }
}

/// The value from low to high, or nothing.
pub fn within(low: i128, high: i128, n: i128) -> Computed
    ensures { result ≡ numbers.within low high n }
{
    if low <= n && n <= high {
        Computed::Number(n)
    } else {
        Computed::Nothing
    }
}

/// A product, as of a function of Ada.Real_Time.
pub fn scaled(factor: i128, n: i128) -> Computed
    ensures { result ≡ numbers.fitted (numbers.multiplied factor n) }
{
    product(factor, n)
}

/// How many values there are from low to high.
pub fn length(low: i128, high: i128) -> Computed
    ensures { result ≡ numbers.length low high }
{
    if high < low {
        return Computed::Number(0);
    }
    match difference(high, low) {
        Computed::Number(n) => sum(n, 1),
        _ => Computed::Outside,
    }
}
