// Rows and squares against lists of flags.
ghost use Rattle.std.specs.Prelude.{◌≡◌, ◌<◌, length, IfOk};

use flow_bits::{Row, Square};
use spark_base::NoMemory;
use std::alloc::Global;
use std::test::Fail;

fn has(row: &Row, i: u32) -> bool {
    i < row.size() && row.has(i)
}

fn relates(square: &Square, a: u32, b: u32) -> bool {
    a < square.size() && b < square.size() && square.has(a, b)
}

#[test]
fn a_row_of_seventy(rt: HostRuntime) -> Result<(), Fail> {
    let mut row = Row::new(rt.alloc(), 70)?;
    assert!(rt; row.add(69));
    assert!(rt; !row.add(69));
    assert!(rt; has(&row, 69) && !has(&row, 68));
    Ok(())
}

fn pair_of_three(alloc: Global, a: u32, b: u32) -> Result<Square, NoMemory>
    requires a { a < 3 }
    requires b { b < 3 }
    ensures { IfOk result (λ square. length square ≡ 3) }
{
    let mut square = Square::new(alloc, 3)?;
    square.add(a, b);
    Ok(square)
}

#[test]
fn two_pairs_composed(rt: HostRuntime) -> Result<(), Fail> {
    let first = pair_of_three(rt.alloc(), 0, 1)?;
    let second = pair_of_three(rt.alloc(), 1, 2)?;
    let mut third = Square::new(rt.alloc(), 3)?;
    assert!(rt; third.compose_into(&first, &second));
    assert!(rt; !third.compose_into(&first, &second));
    assert!(rt; count(&third) == 1 && relates(&third, 0, 2));
    Ok(())
}

#[test]
fn two_pairs_closed(rt: HostRuntime) -> Result<(), Fail> {
    let mut square = pair_of_three(rt.alloc(), 0, 1)?;
    square.add(1, 2);
    square.close();
    assert!(rt; count(&square) == 6);
    assert!(rt; relates(&square, 0, 1) && relates(&square, 1, 2) && relates(&square, 0, 2));
    assert!(rt; relates(&square, 0, 0) && relates(&square, 1, 1) && relates(&square, 2, 2));
    Ok(())
}

fn count(square: &Square) -> usize {
    (0..9u32)
        .filter(|i| relates(square, *i / 3, *i % 3))
        .count()
}

// One in so many is set, by no rule that a reader sees.
fn mixed(seed: u32, i: u32, one_in: u32) -> bool {
    let x = i
        .wrapping_add(seed.wrapping_mul(7919))
        .wrapping_mul(2_654_435_761);
    (x >> 13) % one_in.max(1) == 0
}

fn flags(alloc: Global, size: u32, seed: u32, one_in: u32) -> Result<Vec<bool>, NoMemory> {
    let mut flags = Vec::new(alloc);
    for i in 0..size {
        flags.push(mixed(seed, i, one_in))?;
    }
    Ok(flags)
}

fn flag(flags: &[bool], i: u32) -> bool {
    match flags.get(i as usize) {
        Some(flag) => *flag,
        None => false,
    }
}

fn row_of(alloc: Global, size: u32, flags: &[bool]) -> Result<Row, NoMemory>
    ensures { IfOk result (λ row. length row ≡ size) }
{
    let mut row = Row::new(alloc, size)?;
    for i in 0..size {
        if flag(flags, i) {
            row.add(i);
        }
    }
    Ok(row)
}

#[derive(Clone, Copy, Drop)]
enum Join {
    Union,
    Minus,
    Meet,
}

fn joined(join: Join, a: bool, b: bool) -> bool {
    match join {
        Join::Union => a || b,
        Join::Minus => a && !b,
        Join::Meet => a && b,
    }
}

fn is_joined(row: &Row, join: Join, one: &[bool], other: &[bool]) -> bool {
    (0..row.size()).all(|i| has(row, i) == joined(join, flag(one, i), flag(other, i)))
}

fn any_joined(size: u32, join: Join, one: &[bool], other: &[bool]) -> bool {
    (0..size).any(|i| joined(join, flag(one, i), flag(other, i)))
}

fn rows_agree(alloc: Global, size: u32, one_in: u32) -> Result<bool, NoMemory> {
    let one = flags(alloc, size, 1, one_in)?;
    let other = flags(alloc, size, 2, one_in)?;
    let with = row_of(alloc, size, other.as_slice())?;
    let mut union = row_of(alloc, size, one.as_slice())?;
    let mut minus = row_of(alloc, size, one.as_slice())?;
    let mut meet = row_of(alloc, size, one.as_slice())?;
    let meets = meet.meets(&with);
    let grew = union.union_into(&with);
    minus.minus_into(&with);
    meet.intersect_into(&with);
    let sets = is_joined(&union, Join::Union, one.as_slice(), other.as_slice())
        && is_joined(&minus, Join::Minus, one.as_slice(), other.as_slice())
        && is_joined(&meet, Join::Meet, one.as_slice(), other.as_slice());
    Ok(
        sets && meets == any_joined(size, Join::Meet, one.as_slice(), other.as_slice())
            && grew == any_joined(size, Join::Minus, other.as_slice(), one.as_slice()),
    )
}

fn place(size: u32, a: u32, b: u32) -> u32 {
    a.wrapping_mul(size).wrapping_add(b)
}

fn square_of(alloc: Global, size: u32, flags: &[bool]) -> Result<Square, NoMemory>
    ensures { IfOk result (λ square. length square ≡ size) }
{
    let mut square = Square::new(alloc, size)?;
    for a in 0..size {
        add_row(&mut square, a, size, flags);
    }
    Ok(square)
}

fn add_row(square: &mut Square, a: u32, size: u32, flags: &[bool])
    requires a { a < length square.old }
    requires size { length square.old ≡ size }
    ensures { length square.new ≡ length square.old }
{
    for b in 0..size {
        if flag(flags, place(size, a, b)) {
            square.add(a, b);
        }
    }
}

fn is_square(square: &Square, size: u32, wanted: &[bool]) -> bool {
    (0..size).all(|a| (0..size).all(|b| relates(square, a, b) == flag(wanted, place(size, a, b))))
}

fn set(flags: &mut [bool], i: u32) {
    if let Some(flag) = flags.get_mut(i as usize) {
        *flag = true;
    }
}

// Adds (a, c) for each (b, c) of another list.
fn follow(into: &mut [bool], from: &[bool], size: u32, a: u32, b: u32) {
    for c in 0..size {
        if flag(from, place(size, b, c)) {
            set(into, place(size, a, c));
        }
    }
}

fn compose_row(into: &mut [bool], first: &[bool], second: &[bool], size: u32, a: u32) {
    for b in 0..size {
        if flag(first, place(size, a, b)) {
            follow(into, second, size, a, b);
        }
    }
}

fn compose(into: &mut [bool], first: &[bool], second: &[bool], size: u32) {
    for a in 0..size {
        compose_row(into, first, second, size, a);
    }
}

fn compositions_agree(alloc: Global, size: u32) -> Result<bool, NoMemory> {
    let cells = size.wrapping_mul(size);
    let one = flags(alloc, cells, 3, size)?;
    let other = flags(alloc, cells, 4, size)?;
    let mut wanted = flags(alloc, cells, 5, size)?;
    let first = square_of(alloc, size, one.as_slice())?;
    let second = square_of(alloc, size, other.as_slice())?;
    let mut square = square_of(alloc, size, wanted.as_slice())?;
    compose(
        wanted.as_mut_slice(),
        one.as_slice(),
        other.as_slice(),
        size,
    );
    let grew = square.compose_into(&first, &second);
    let again = square.compose_into(&first, &second);
    Ok(!again && (grew || size < 2) && is_square(&square, size, wanted.as_slice()))
}

fn closures_agree(alloc: Global, size: u32) -> Result<bool, NoMemory> {
    let mut wanted = flags(alloc, size.wrapping_mul(size), 6, size)?;
    let mut square = square_of(alloc, size, wanted.as_slice())?;
    square.close();
    close(wanted.as_mut_slice(), size);
    Ok(is_square(&square, size, wanted.as_slice()))
}

fn close(ways: &mut [bool], size: u32) {
    for k in 0..size {
        close_by(ways, size, k);
    }
    for a in 0..size {
        set(ways, place(size, a, a));
    }
}

fn close_by(ways: &mut [bool], size: u32, k: u32) {
    for a in 0..size {
        if flag(ways, place(size, a, k)) {
            go_on(ways, size, a, k);
        }
    }
}

fn go_on(ways: &mut [bool], size: u32, a: u32, k: u32) {
    for c in 0..size {
        if flag(ways, place(size, k, c)) {
            set(ways, place(size, a, c));
        }
    }
}

#[test]
fn random_rows_and_squares(rt: HostRuntime) -> Result<(), Fail> {
    for size in [0, 1, 2, 63, 64, 65, 127, 128, 129, 511, 512, 513u32] {
        assert!(rt; rows_agree(rt.alloc(), size, 2)?, "{size}");
        assert!(rt; rows_agree(rt.alloc(), size, 200)?, "{size}");
        assert!(rt; compositions_agree(rt.alloc(), size)?, "{size}");
        assert!(rt; closures_agree(rt.alloc(), size)?, "{size}");
    }
    Ok(())
}
