// For which bodies there is no room.
use crate::samples::{add_leaves, body, call, contract, program, var};
use core_form::{Body, CoreStmt, Home, Program, well_formed};
use program_layout::layout;
use spark_base::{BodyNo, Items, NoMemory, PackageNo};
use spark_messages::{Code, PhaseFault};
use std::alloc::Global;
use std::test::Fail;

// Two bodies without calls, of which the second, on line 2, has so many locals and spares.
fn wide(alloc: Global, locals: u32, spares: u32) -> Result<Program, NoMemory> {
    let mut leaves = Items::new(alloc);
    add_leaves(alloc, &mut leaves, locals, 0)?;
    add_leaves(alloc, &mut leaves, spares, 1)?;
    let mut vars = Items::new(alloc);
    vars.push(var(alloc, Home::Local(BodyNo(1)), 0, locals))?;
    vars.push(var(alloc, Home::Spare(BodyNo(1)), locals, spares))?;
    let mut bodies = Items::new(alloc);
    bodies.push(body(alloc, 1, None, 0))?;
    bodies.push(body(alloc, 2, None, 0))?;
    let mut stmts = Items::new(alloc);
    stmts.push(CoreStmt::Back)?;
    program(alloc, vars, leaves, bodies, stmts)
}

fn with_outer(alloc: Global, mut body: Body, item: u32) -> Result<Body, NoMemory> {
    body.outer = Some(contract(alloc, item)?);
    Ok(body)
}

fn stmts(alloc: Global) -> Result<Items<CoreStmt>, NoMemory> {
    let mut stmts = Items::new(alloc);
    stmts.push(CoreStmt::Back)?;
    stmts.push(call(alloc, 0))?;
    stmts.push(call(alloc, 1))?;
    Ok(stmts)
}

// Bodies 0 and 1 have contracts, of 4,096 leaves and of the first of these. Then come 31 bodies that call body 0, so many bodies without
// calls, and one that calls body 1. They stand on lines from 1 on.
fn bodies(alloc: Global, without: u32) -> Result<Items<Body>, NoMemory> {
    let mut bodies = Items::new(alloc);
    bodies.push(with_outer(alloc, body(alloc, 1, None, 0), 0)?)?;
    bodies.push(with_outer(alloc, body(alloc, 2, None, 0), 1)?)?;
    for b in 0..31u32 {
        bodies.push(body(alloc, b + 3, None, 1))?;
    }
    for b in 0..without {
        bodies.push(body(alloc, b.saturating_add(34), None, 0))?;
    }
    bodies.push(body(alloc, without.saturating_add(34), None, 2))?;
    Ok(bodies)
}

// A library variable of 4,096 leaves, and one that spans so many of them.
fn large(alloc: Global, part: u32, without: u32) -> Result<Program, NoMemory> {
    let library = Home::Package(PackageNo(0));
    let mut leaves = Items::new(alloc);
    add_leaves(alloc, &mut leaves, 4096, 0)?;
    let mut vars = Items::new(alloc);
    vars.push(var(alloc, library, 0, 4096))?;
    vars.push(var(alloc, library, 0, part))?;
    program(alloc, vars, leaves, bodies(alloc, without)?, stmts(alloc)?)
}

// On which line a program is refused.
fn refused(alloc: Global, program: &Program) -> Option<u32> {
    if !well_formed(program) {
        return Some(0);
    }
    match layout(alloc, program) {
        Ok(_layout) => None,
        Err(PhaseFault::NoMemory) => Some(0),
        Err(PhaseFault::Refused(message)) => {
            if message.code == Code::X05 {
                Some(message.place.line)
            } else {
                Some(0)
            }
        }
    }
}

// Locals, spares, and the line of the refusal.
const WIDE: [(u32, u32, Option<u32>); 3] = [
    (4000, 96, None),
    (4000, 97, Some(2)),
    (0, 4097, Some(2)),
];

#[test]
fn frames_are_bounded(rt: HostRuntime) -> Result<(), Fail> {
    for (locals, spares, line) in WIDE {
        let program = wide(rt.alloc(), locals, spares)?;
        assert_eq!(rt; refused(rt.alloc(), &program), line, "{locals} {spares}");
    }
    Ok(())
}

// Leaves of the last row, bodies without calls, and the line of the refusal: 31 rows of 262,337 words, one of 256,103 and 58 of one word
// are 8,388,608 words.
const LARGE: [(u32, u32, Option<u32>); 3] = [
    (4047, 56, None),
    (4047, 57, Some(91)),
    (4048, 0, Some(34)),
];

#[test]
fn row_words_are_bounded(rt: HostRuntime) -> Result<(), Fail> {
    for (part, without, line) in LARGE {
        let program = large(rt.alloc(), part, without)?;
        assert_eq!(rt; refused(rt.alloc(), &program), line, "{part} {without}");
    }
    Ok(())
}
