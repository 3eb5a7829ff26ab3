// Long chains of types: they take no stack and no square time.
ghost use Rattle.std.specs.Prelude.{IfOk};
ghost use Rattle.types_objects.specs.Table.{IsTable};

use crate::tests::units_of_all;
use crate::walk::{Walk, walked};
use spark_base::{Bytes, NoMemory, TypeNo};
use std::alloc::{AllocError, Global};
use std::test::Fail;
use types_objects::{Types, leaf_paths, range_of};

/// A chain of declarations, each over the one before.
#[derive(Clone, Copy, Debug)]
enum Chain {
    /// Subtypes with a range within that of the one before.
    Subtypes,
    /// Records with one component of the one before.
    Records,
    /// Records with two components of the one before.
    Doubled,
}

fn declaration(alloc: Global, chain: Chain, n: u32) -> Result<String, AllocError> {
    let m = n.saturating_sub(1);
    match chain {
        Chain::Subtypes => Ok(format!(in alloc;
            "subtype T{n} is T{m} range T{m}'First + 1 .. T{m}'Last - 1;\n"
        )?),
        Chain::Records => Ok(format!(in alloc; "type T{n} is record A : T{m}; end record;\n")?),
        Chain::Doubled => Ok(format!(in alloc; "type T{n} is record A, B : T{m}; end record;\n")?),
    }
}

/// A file with the declarations from one number up to another.
fn file_of(alloc: Global, head: &str, chain: Chain, from: u32, to: u32) -> Result<Bytes, NoMemory> {
    let mut source = Bytes::from_slice(alloc, b"package P is\n")?;
    source.append(head.as_bytes())?;
    for n in from..to {
        source.append(declaration(alloc, chain, n)?.as_bytes())?;
    }
    source.append(b"end P;\n")?;
    Ok(source)
}

/// So many declarations in a chain, in files of ten thousand, as files are short.
fn walk_of(alloc: Global, head: &str, chain: Chain, count: u32) -> Result<Walk, NoMemory>
    ensures { IfOk result (λ w. IsTable w.types) }
{
    let mut sources = Vec::new(alloc);
    sources.push(file_of(alloc, head, chain, 0, 0)?)?;
    for part in 0..count.div_ceil(10000) {
        let from = part.saturating_mul(10000);
        let to = from.saturating_add(10000).min(count);
        sources.push(file_of(
            alloc,
            "",
            chain,
            from.saturating_add(1),
            to.saturating_add(1),
        )?)?;
    }
    let units = units_of_all(alloc, sources)?;
    walked(alloc, &units)
}

/// The number of a type's paths, and the length of the last.
fn paths_of(alloc: Global, types: &Types, of: u32) -> Result<(usize, usize), NoMemory>
    requires { IsTable types.now }
{
    if of as usize >= types.list.len() {
        return Ok((0, 0));
    }
    let paths = leaf_paths(alloc, types, TypeNo(of))?;
    match paths.as_slice().last() {
        None => Ok((0, 0)),
        Some(path) => Ok((paths.len(), path.len())),
    }
}

fn leaves_of(types: &Types, of: u32) -> Option<u32> {
    Some(types.list.get(of as usize)?.leaves)
}

#[test]
fn chains_of_subtypes_are_long(rt: HostRuntime) -> Result<(), Fail> {
    let alloc = rt.alloc();
    let walk = walk_of(
        alloc,
        "type T0 is range 0 .. 200000;\n",
        Chain::Subtypes,
        100000,
    )?;
    assert_eq!(rt; walk.types.list.len(), 100007);
    assert!(rt; walk.refusals.is_empty());
    match range_of(&walk.types, TypeNo(100006)) {
        None => assert!(rt; false),
        Some(range) => {
            assert_eq!(rt; (range.low, range.high), (100000, 100000));
            assert_eq!(rt; (range.least, range.greatest), (0, 200000));
            assert_eq!(rt; (range.subtype.0, range.first.0), (100006, 6));
        }
    }
    Ok(())
}

#[test]
fn records_are_deep_in_one_another(rt: HostRuntime) -> Result<(), Fail> {
    let alloc = rt.alloc();
    let walk = walk_of(alloc, "type T0 is range 0 .. 9;\n", Chain::Records, 100000)?;
    assert_eq!(rt; walk.types.list.len(), 100007);
    assert_eq!(rt; leaves_of(&walk.types, 100006), Some(1));
    assert_eq!(rt; paths_of(alloc, &walk.types, 100006)?, (1, 200000));
    Ok(())
}

#[test]
fn leaves_are_counted_up_to_a_limit(rt: HostRuntime) -> Result<(), Fail> {
    let alloc = rt.alloc();
    let walk = walk_of(alloc, "type T0 is range 0 .. 9;\n", Chain::Doubled, 40)?;
    assert_eq!(rt; leaves_of(&walk.types, 6 + 10), Some(1024));
    assert_eq!(rt; paths_of(alloc, &walk.types, 6 + 10)?, (1024, 20));
    assert_eq!(rt; leaves_of(&walk.types, 6 + 31), Some(2147483648));
    assert_eq!(rt; leaves_of(&walk.types, 6 + 32), Some(4294967295));
    assert_eq!(rt; leaves_of(&walk.types, 6 + 40), Some(4294967295));
    Ok(())
}

#[test]
fn records_of_nothing_have_no_paths(rt: HostRuntime) -> Result<(), Fail> {
    let alloc = rt.alloc();
    let walk = walk_of(alloc, "type T0 is null record;\n", Chain::Doubled, 60)?;
    assert_eq!(rt; leaves_of(&walk.types, 66), Some(0));
    assert_eq!(rt; paths_of(alloc, &walk.types, 66)?, (0, 0));
    Ok(())
}
