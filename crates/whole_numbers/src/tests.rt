// Numbers by tables; what they are was computed by hand.
use crate::{class_of_power, class_of_product, modulo, power, quotient, remainder};
use std::test::Fail;

const LOW: i128 = -170141183460469231731687303715884105728;

const HIGH: i128 = 170141183460469231731687303715884105727;

#[test]
fn division_of_each_pair_of_signs(rt: HostRuntime) -> Result<(), Fail> {
    let cases = [
        (7, 2, 3, 1, 1),
        (-7, 2, -3, -1, 1),
        (7, -2, -3, 1, -1),
        (-7, -2, 3, -1, -1),
    ];
    for (n, m, whole, rest, between) in cases {
        assert!(rt; quotient(n, m) == Some(whole));
        assert!(rt; remainder(n, m) == Some(rest));
        assert!(rt; modulo(n, m) == Some(between));
    }
    Ok(())
}

#[test]
fn what_there_is_not(rt: HostRuntime) -> Result<(), Fail> {
    assert!(rt; quotient(7, 0).is_none());
    assert!(rt; remainder(7, 0).is_none());
    assert!(rt; modulo(7, 0).is_none());
    assert!(rt; quotient(LOW, -1).is_none());
    assert!(rt; remainder(LOW, -1) == Some(0));
    assert!(rt; power(2, -1).is_none());
    Ok(())
}

#[test]
fn powers(rt: HostRuntime) -> Result<(), Fail> {
    assert!(rt; power(2, 126) == Some(85070591730234615865843651857942052864));
    assert!(rt; power(2, 127).is_none());
    assert!(rt; power(-2, 127) == Some(LOW));
    assert!(rt; power(-1, HIGH) == Some(-1));
    assert!(rt; power(0, 0) == Some(1));
    Ok(())
}

#[test]
fn products_within_the_greatest_modulus(rt: HostRuntime) -> Result<(), Fail> {
    let greatest = HIGH.unsigned_abs();
    assert!(rt; class_of_product(HIGH - 1, HIGH - 1, greatest) == 1);
    assert!(rt; class_of_power(-1, 3, greatest) == Some(HIGH - 1));
    assert!(rt; class_of_power(-1, -3, greatest).is_none());
    Ok(())
}
