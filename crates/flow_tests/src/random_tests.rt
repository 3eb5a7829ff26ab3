ghost use Rattle.std.specs.Prelude.{◌<◌};

// Random code with loops, exits and returns against the definition unrolled.
use crate::samples::{assign, has, list, program, read, relates_leaves};
use crate::unrolled::{
    NAMES, NEXT, NOWHERE, Plain, RETURNS, VOID, branch, clearing, leaving, moving, one, pair,
    repeat, seq,
};
use core_form::{CoreExpr, CoreStmt, Home, Place, Program, well_formed};
use flow_relations::{End, Flow, Outcome, flow_of};
use spark_base::{BodyNo, ExprNo, Items, LeafNo, NoMemory, PackageNo, StmtNo};
use std::alloc::Global;
use std::test::Fail;

const COUNT: u32 = 14;

// The next random number below a bound.
fn pick(random: &mut u64, below: u32) -> u32
    requires { 0 < below }
    ensures { result < below }
{
    *random = random
        .wrapping_mul(6364136223846793005)
        .wrapping_add(1442695040888963407);
    ((*random >> 33) % below as u64) as u32
}

// One of the statements before this, most often a late one.
fn earlier(random: &mut u64, n: u32) -> u32
    requires { 0 < n }
    ensures { result < n }
{
    n - 1 - pick(random, n.min(4))
}

fn at(facts: &[Plain], s: u32) -> Plain {
    match facts.get(s as usize) {
        Some(f) => *f,
        None => NOWHERE,
    }
}

fn part(alloc: Global, leaf: u32, by: u32) -> Result<Place, NoMemory> {
    Ok(Place {
        leaf: LeafNo(leaf),
        part: Items::from_vec(vec![in alloc; ExprNo(by)]?),
        whole: false,
        cells: 1,
    })
}

// A statement with no other in it.
fn simple(alloc: Global, random: &mut u64) -> Result<(CoreStmt, Plain), NoMemory> {
    let leaf = pick(random, VOID);
    let from = pick(random, VOID);
    match pick(random, 8) {
        0 => Ok((CoreStmt::Fresh(LeafNo(leaf)), clearing(leaf))),
        1 => {
            let by = pick(random, VOID);
            let to = part(alloc, leaf, by)?;
            let facts = moving(leaf, one(from) | one(by), true);
            Ok((
                CoreStmt::Move {
                    to,
                    from: ExprNo(from),
                    at: crate::samples::NOWHERE,
                },
                facts,
            ))
        }
        2 => Ok((CoreStmt::Back, leaving(RETURNS))),
        3 => {
            let loops = pick(random, 3);
            Ok((CoreStmt::Leave(loops), leaving(2 + loops as usize)))
        }
        4 => Ok((CoreStmt::Fail, NOWHERE)),
        _ => Ok((assign(alloc, leaf, from), moving(leaf, one(from), false))),
    }
}

// A statement made of two that stand before it.
fn compound(
    alloc: Global,
    random: &mut u64,
    facts: &[Plain],
    n: u32,
) -> Result<(CoreStmt, Plain), NoMemory>
    requires { 0 < n }
{
    let first = earlier(random, n);
    let second = earlier(random, n);
    let (a, b) = (at(facts, first), at(facts, second));
    match pick(random, 5) {
        0 => {
            let test = pick(random, VOID);
            let choice = CoreStmt::If {
                test: ExprNo(test),
                yes: StmtNo(first),
                no: StmtNo(second),
            };
            Ok((choice, branch(one(test), &a, &b)))
        }
        1 => Ok((CoreStmt::Loop(StmtNo(first)), repeat(&a))),
        _ => {
            let both = list(vec![in alloc; StmtNo(first), StmtNo(second)]?);
            Ok((both, seq(&a, &seq(&b, &leaving(NEXT)))))
        }
    }
}

// Code at random, within three loops that its exits may leave.
fn code(alloc: Global, random: &mut u64) -> Result<(Vec<CoreStmt>, Plain), NoMemory> {
    let mut stmts = Vec::new(alloc);
    let mut facts = Vec::new(alloc);
    for n in 0..COUNT {
        let (stmt, flow) = if n < 4 {
            simple(alloc, random)?
        } else {
            compound(alloc, random, facts.as_slice(), n)?
        };
        stmts.push(stmt)?;
        facts.push(flow)?;
    }
    let mut last = at(facts.as_slice(), COUNT - 1);
    for n in COUNT..COUNT + 3 {
        stmts.push(CoreStmt::Loop(StmtNo(n - 1)))?;
        last = repeat(&last);
    }
    Ok((stmts, last))
}

fn over_five(alloc: Global, stmts: Vec<CoreStmt>) -> Result<Program, NoMemory> {
    let home = Home::Package(PackageNo(0));
    let mut exprs = Vec::new(alloc);
    for leaf in 0..VOID {
        let value: CoreExpr = read(alloc, leaf);
        exprs.push(value)?;
    }
    program(
        alloc,
        &[home, home, home, home, home],
        Vec::new(alloc),
        exprs,
        stmts,
        StmtNo(COUNT + 2),
    )
}

// The ends at an outcome have these pairs.
fn is_end(flow: &Flow, outcome: Outcome, can: bool, kept: u64, dep: u64) -> bool {
    let mut ends = flow.ends.as_slice().iter();
    let Some(end) = ends.find(|e: &&End| e.outcome == outcome) else {
        return !can && kept == 0 && dep == 0;
    };
    for v in 0..NAMES {
        for w in 0..NAMES {
            if relates_leaves(&flow.frame, &end.kept, v, w) != (kept & pair(v, w) != 0)
                || relates_leaves(&flow.frame, &end.dep, v, w) != (dep & pair(v, w) != 0)
            {
                return false;
            }
        }
    }
    can
}

fn is_flow(flow: &Flow, plain: &Plain) -> bool {
    for v in 0..NAMES {
        if has(&flow.reads, v) != (plain.reads & one(v) != 0)
            || has(&flow.writes, v) != (plain.writes & one(v) != 0)
            || has(&flow.decides, v) != (plain.decides & one(v) != 0)
        {
            return false;
        }
    }
    is_end(
        flow,
        Outcome::Next,
        plain.can[NEXT],
        plain.kept[NEXT],
        plain.dep[NEXT],
    ) && is_end(
        flow,
        Outcome::Back,
        plain.can[RETURNS],
        plain.kept[RETURNS],
        plain.dep[RETURNS],
    )
}

#[test]
fn random_code_has_the_flow_of_its_unrollings(rt: HostRuntime) -> Result<(), Fail> {
    let mut random = 1;
    for _ in 0..200 {
        let (stmts, plain) = code(rt.alloc(), &mut random)?;
        let program = over_five(rt.alloc(), stmts)?;
        assert!(rt; well_formed(&program));
        assert_eq!(rt; program.bodies.len(), 1);
        let flow = flow_of(rt.alloc(), &program, BodyNo(0))?;
        assert!(rt; is_flow(&flow, &plain));
    }
    Ok(())
}
