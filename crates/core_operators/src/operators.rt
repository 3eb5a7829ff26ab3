ghost use Rattle.std.specs.Prelude.{◌≡◌, [], Some};
ghost use Rattle.core_operators.specs.Operators as specs;
ghost use Rattle.core_operators.specs.declared.operators.Operands.TheVariants as of;
ghost use Rattle.whole_numbers.specs.Classes.{IsModulus};

use crate::moduli::{complement, modulus};
use crate::truths::{both, negated, number_of, one_of, some_of};
use core_form::CoreOp;
use spark_base::Items;
use whole_numbers::{
    absolute, class_of_and, class_of_difference, class_of_or, class_of_power, class_of_product,
    class_of_sum, class_of_xor, modulo, power, quotient, remainder,
};

/// Up to three operands that are one number each; others are no operands of an operator but equality.
#[derive(Clone, Copy)]
pub enum Operands {
    One(i128),
    Two(i128, i128),
    Three(i128, i128, i128),
    Others,
}

/// A value that is one number.
pub fn single(value: &Items<i128>) -> Option<i128>
    ensures { result ≡ specs.single value.now }
{
    match value.as_slice() {
        [n] => Some(*n),
        _ => None,
    }
}

fn one_operand(a: Option<i128>) -> Operands
    ensures { result ≡ specs.operands_of a }
{
    match a {
        Some(n) => Operands::One(n),
        None => Operands::Others,
    }
}

fn two_operands(a: Option<i128>, b: Option<i128>) -> Operands
    ensures { result ≡ specs.two_of a b }
{
    match a {
        Some(n) => match b {
            Some(m) => Operands::Two(n, m),
            None => Operands::Others,
        },
        None => Operands::Others,
    }
}

fn three_operands(a: Option<i128>, b: Option<i128>, c: Option<i128>) -> Operands
    ensures { result ≡ specs.three_of a b c }
{
    match a {
        Some(n) => match b {
            Some(m) => match c {
                Some(k) => Operands::Three(n, m, k),
                None => Operands::Others,
            },
            None => Operands::Others,
        },
        None => Operands::Others,
    }
}

fn operands_in(args: &[Items<i128>]) -> Operands
    ensures { result ≡ specs.operands_in args.now }
{
    match args {
        [a] => one_operand(single(a)),
        [a, b] => two_operands(single(a), single(b)),
        [a, b, c] => three_operands(single(a), single(b), single(c)),
        _ => Operands::Others,
    }
}

fn apply_one(op: CoreOp, n: i128) -> Option<i128>
    ensures { result ≡ specs.made op [] (of.One n) }
{
    match op {
        CoreOp::Neg => n.checked_neg(),
        CoreOp::Abs => absolute(n),
        CoreOp::Not => negated(n),
        _ => None,
    }
}

fn apply_two(op: CoreOp, n: i128, m: i128) -> Option<i128>
    ensures { result ≡ specs.made op [] (of.Two n m) }
{
    match op {
        CoreOp::Add => n.checked_add(m),
        CoreOp::Sub => n.checked_sub(m),
        CoreOp::Mul => n.checked_mul(m),
        CoreOp::Div => quotient(n, m),
        CoreOp::Mod => modulo(n, m),
        CoreOp::Rem => remainder(n, m),
        CoreOp::Pow => power(n, m),
        CoreOp::And => both(n, m),
        CoreOp::Or => some_of(n, m),
        CoreOp::Xor => one_of(n, m),
        CoreOp::Lt => Some(number_of(n < m)),
        CoreOp::Le => Some(number_of(n <= m)),
        CoreOp::NotMod => complement(n, m),
        _ => None,
    }
}

// Within the modulus `m`, which is the third operand, `k`.
fn apply_within(op: CoreOp, a: i128, b: i128, k: i128, m: u128) -> Option<i128>
    requires modulus { IsModulus m }
    requires third { specs.modulus k ≡ Some m }
    ensures { result ≡ specs.made op [] (of.Three a b k) }
{
    match op {
        CoreOp::AddMod => Some(class_of_sum(a, b, m)),
        CoreOp::SubMod => Some(class_of_difference(a, b, m)),
        CoreOp::MulMod => Some(class_of_product(a, b, m)),
        CoreOp::PowMod => class_of_power(a, b, m),
        CoreOp::AndMod => Some(class_of_and(a, b, m)),
        CoreOp::OrMod => Some(class_of_or(a, b, m)),
        CoreOp::XorMod => Some(class_of_xor(a, b, m)),
        _ => None,
    }
}

fn apply_three(op: CoreOp, a: i128, b: i128, k: i128) -> Option<i128>
    ensures { result ≡ specs.made op [] (of.Three a b k) }
{
    match modulus(k) {
        Some(m) => apply_within(op, a, b, k, m),
        None => None,
    }
}

fn apply(op: CoreOp, operands: Operands) -> Option<i128>
    ensures { result ≡ specs.made op [] operands }
{
    match operands {
        Operands::One(n) => apply_one(op, n),
        Operands::Two(n, m) => apply_two(op, n, m),
        Operands::Three(n, m, k) => apply_three(op, n, m, k),
        Operands::Others => None,
    }
}

fn are_equal(a: &[i128], b: &[i128]) -> bool
    ensures { result ≡ specs.are_equal a.now b.now }
{
    if a.len() != b.len() {
        return false;
    }
    for i in 0..a.len() {
        if a[i] != b[i] {
            return false;
        }
    }
    true
}

// Whether two operands have the same cells; none of another count of them.
fn equal(args: &[Items<i128>]) -> Option<i128>
    ensures { result ≡ specs.equal args.now }
{
    match args {
        [a, b] => Some(number_of(are_equal(a.as_slice(), b.as_slice()))),
        _ => None,
    }
}

/// What an operator makes of its operands. None where it takes another count of them, where it does not take their values, by a zero
/// divisor, by a negative exponent, and by a result outside 128 bits. A modulus, the last operand, is 1 at least.
pub fn operate(op: CoreOp, args: &[Items<i128>]) -> Option<i128>
    ensures { result ≡ specs.operate op args.now }
{
    match op {
        CoreOp::Eq => equal(args),
        _ => apply(op, operands_in(args)),
    }
}
