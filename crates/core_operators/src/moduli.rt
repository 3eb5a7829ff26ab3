ghost use Rattle.std.specs.Prelude.{◌≡◌, IfSome};
ghost use Rattle.core_operators.specs.Operators as specs;
ghost use Rattle.whole_numbers.specs.Classes.{IsModulus};

/// A number that can be a modulus: 1 and more.
pub fn modulus(k: i128) -> Option<u128>
    ensures value { result ≡ specs.modulus k }
    ensures fine { IfSome result IsModulus }
{
    if k < 1 { None } else { Some(k.unsigned_abs()) }
}

/// The modulus less 1 less the operand, which is not reduced.
pub fn complement(n: i128, k: i128) -> Option<i128>
    ensures { result ≡ specs.complement n k }
{
    match modulus(k) {
        Some(m) => ((m - 1) as i128).checked_sub(n),
        None => None,
    }
}
