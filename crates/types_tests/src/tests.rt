// What sources declare, and what of it is refused.
use crate::refusals::{HEAD, REFUSED};
use crate::tables::DECLARED;
use crate::text::shown;
use crate::walk::{Walk, walked};
use ada_lexer::lex;
use ada_tree::Units;
use spark_base::{Bytes, FileNo, Items, NoMemory};
use spark_parser::parse;
use std::alloc::Global;
use std::test::Fail;

/// The trees of sources.
pub fn units_of_all(alloc: Global, sources: Vec<Bytes>) -> Result<Units, NoMemory> {
    let mut all = Items::new(alloc);
    for source in sources {
        match lex(alloc, FileNo(0), source) {
            Ok(tokens) => all.push(tokens)?,
            Err(_) => return Err(NoMemory),
        }
    }
    match parse(alloc, all.as_slice()) {
        Ok(units) => Ok(units),
        Err(_) => Err(NoMemory),
    }
}

/// The trees of one source.
pub fn units_of(alloc: Global, source: Bytes) -> Result<Units, NoMemory> {
    let mut sources = Vec::new(alloc);
    sources.push(source)?;
    units_of_all(alloc, sources)
}

#[test]
fn sources_declare_their_types(rt: HostRuntime) -> Result<(), Fail> {
    let alloc = rt.alloc();
    for (source, wanted) in DECLARED {
        let units = units_of(alloc, Bytes::from_slice(alloc, source.as_bytes())?)?;
        let walk = walked(alloc, &units)?;
        let found = shown(alloc, &units, &walk)?;
        assert_eq!(rt; found.as_str(), wanted);
    }
    Ok(())
}

/// The source of all declarations that are refused.
fn refused_source(alloc: Global) -> Result<Bytes, NoMemory> {
    let mut source = Bytes::from_slice(alloc, HEAD.as_bytes())?;
    for (text, _, _) in REFUSED {
        source.append(text.as_bytes())?;
        source.append(b"\n")?;
    }
    source.append(b"end P;\n")?;
    Ok(source)
}

/// Whether the refusals are those of the rows, on the lines from the seventh on.
fn are_refused(walk: &Walk) -> bool {
    let mut line: u32 = 7;
    let mut same = walk.refusals.len() == REFUSED.len();
    for ((code, at), (_, wanted, col)) in walk.refusals.as_slice().iter().zip(REFUSED.iter()) {
        same = same && code == wanted && at.line == line && at.col == *col;
        line = line.saturating_add(1);
    }
    same
}

#[test]
fn declarations_are_refused_at_their_places(rt: HostRuntime) -> Result<(), Fail> {
    let alloc = rt.alloc();
    let units = units_of(alloc, refused_source(alloc)?)?;
    let walk = walked(alloc, &units)?;
    assert!(rt; are_refused(&walk));
    let found = shown(alloc, &units, &walk)?;
    assert!(rt;
        found.as_str().starts_with(
            "6 T 0 .. 9\n7 S 2 .. 5, first 6\n8 M mod 8\n9 Color of Red Green Blue\n10 F1 record L:6\nY05 7:18\n"
        )
    );
    Ok(())
}
