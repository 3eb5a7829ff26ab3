// Operators of numbers, by tables; what they make was computed by hand.
use core_form::CoreOp;
use core_operators::operate;
use spark_base::{Items, NoMemory};
use std::alloc::Global;
use std::test::Fail;

const LOW: i128 = -170141183460469231731687303715884105728;

const HIGH: i128 = 170141183460469231731687303715884105727;

fn value(alloc: Global, n: i128) -> Result<Items<i128>, NoMemory> {
    let mut value = Items::new(alloc);
    value.push(n)?;
    Ok(value)
}

fn one(alloc: Global, op: CoreOp, n: i128) -> Result<Option<i128>, NoMemory> {
    let args = vec![in alloc; value(alloc, n)?]?;
    Ok(operate(op, args.as_slice()))
}

fn two(alloc: Global, op: CoreOp, n: i128, m: i128) -> Result<Option<i128>, NoMemory> {
    let args = vec![in alloc; value(alloc, n)?, value(alloc, m)?]?;
    Ok(operate(op, args.as_slice()))
}

fn three(alloc: Global, op: CoreOp, n: i128, m: i128, k: i128) -> Result<Option<i128>, NoMemory> {
    let args = vec![in alloc; value(alloc, n)?, value(alloc, m)?, value(alloc, k)?]?;
    Ok(operate(op, args.as_slice()))
}

#[test]
fn division_of_each_pair_of_signs(rt: HostRuntime) -> Result<(), Fail> {
    assert!(rt; two(rt.alloc(), CoreOp::Div, 7, 2)? == Some(3));
    assert!(rt; two(rt.alloc(), CoreOp::Div, -7, 2)? == Some(-3));
    assert!(rt; two(rt.alloc(), CoreOp::Div, 7, -2)? == Some(-3));
    assert!(rt; two(rt.alloc(), CoreOp::Div, -7, -2)? == Some(3));
    assert!(rt; two(rt.alloc(), CoreOp::Rem, 7, 2)? == Some(1));
    assert!(rt; two(rt.alloc(), CoreOp::Rem, -7, 2)? == Some(-1));
    assert!(rt; two(rt.alloc(), CoreOp::Rem, 7, -2)? == Some(1));
    assert!(rt; two(rt.alloc(), CoreOp::Rem, -7, -2)? == Some(-1));
    assert!(rt; two(rt.alloc(), CoreOp::Mod, 7, 2)? == Some(1));
    assert!(rt; two(rt.alloc(), CoreOp::Mod, -7, 2)? == Some(1));
    assert!(rt; two(rt.alloc(), CoreOp::Mod, 7, -2)? == Some(-1));
    assert!(rt; two(rt.alloc(), CoreOp::Mod, -7, -2)? == Some(-1));
    Ok(())
}

#[test]
fn what_fails(rt: HostRuntime) -> Result<(), Fail> {
    assert!(rt; two(rt.alloc(), CoreOp::Div, 1, 0)? == None);
    assert!(rt; two(rt.alloc(), CoreOp::Mod, 1, 0)? == None);
    assert!(rt; two(rt.alloc(), CoreOp::Rem, 1, 0)? == None);
    assert!(rt; two(rt.alloc(), CoreOp::Div, LOW, -1)? == None);
    assert!(rt; two(rt.alloc(), CoreOp::Add, HIGH, 1)? == None);
    assert!(rt; two(rt.alloc(), CoreOp::Pow, 2, -1)? == None);
    assert!(rt; one(rt.alloc(), CoreOp::Abs, LOW)? == None);
    assert!(rt; two(rt.alloc(), CoreOp::And, 2, 1)? == None);
    assert!(rt; one(rt.alloc(), CoreOp::Add, 1)? == None);
    assert!(rt; three(rt.alloc(), CoreOp::AddMod, 1, 1, 0)? == None);
    Ok(())
}

#[test]
fn powers(rt: HostRuntime) -> Result<(), Fail> {
    assert!(rt;
        two(rt.alloc(), CoreOp::Pow, 2, 126)? == Some(85070591730234615865843651857942052864)
    );
    assert!(rt; two(rt.alloc(), CoreOp::Pow, -2, 127)? == Some(LOW));
    assert!(rt; two(rt.alloc(), CoreOp::Pow, 2, 127)? == None);
    assert!(rt; two(rt.alloc(), CoreOp::Pow, -1, HIGH)? == Some(-1));
    assert!(rt; two(rt.alloc(), CoreOp::Pow, 0, 0)? == Some(1));
    assert!(rt; two(rt.alloc(), CoreOp::Pow, 3, HIGH)? == None);
    assert!(rt; three(rt.alloc(), CoreOp::PowMod, 3, HIGH, 7)? == Some(3));
    Ok(())
}

#[test]
fn classes(rt: HostRuntime) -> Result<(), Fail> {
    assert!(rt; three(rt.alloc(), CoreOp::AddMod, 5, 6, 7)? == Some(4));
    assert!(rt; three(rt.alloc(), CoreOp::SubMod, 5, 6, 7)? == Some(6));
    assert!(rt; three(rt.alloc(), CoreOp::MulMod, 5, 6, 7)? == Some(2));
    assert!(rt; three(rt.alloc(), CoreOp::AndMod, 6, 3, 8)? == Some(2));
    assert!(rt; three(rt.alloc(), CoreOp::OrMod, 6, 3, 7)? == Some(0));
    assert!(rt; three(rt.alloc(), CoreOp::XorMod, 6, 3, 8)? == Some(5));
    assert!(rt; two(rt.alloc(), CoreOp::NotMod, 2, 8)? == Some(5));
    Ok(())
}

#[test]
fn moduli_that_need_all_bits(rt: HostRuntime) -> Result<(), Fail> {
    let m = HIGH;
    assert!(rt; three(rt.alloc(), CoreOp::AddMod, m - 1, m - 1, m)? == Some(m - 2));
    assert!(rt; three(rt.alloc(), CoreOp::SubMod, 0, m - 1, m)? == Some(1));
    assert!(rt; three(rt.alloc(), CoreOp::MulMod, m - 1, m - 1, m)? == Some(1));
    assert!(rt; three(rt.alloc(), CoreOp::MulMod, LOW, LOW, m)? == Some(1));
    assert!(rt; three(rt.alloc(), CoreOp::PowMod, m - 1, m, m)? == Some(m - 1));
    assert!(rt; three(rt.alloc(), CoreOp::MulMod, 5, 6, 1)? == Some(0));
    assert!(rt; three(rt.alloc(), CoreOp::MulMod, 5, 6, -7)? == None);
    Ok(())
}
