// A call of a procedure with one formal of mode in, which moves it to a variable of a package.
ghost use Rattle.std.specs.Prelude.{◌≡◌, IfOk, IsTrue, length};
ghost use Rattle.core_form.specs.Code.{Outcome, Next};
ghost use Rattle.flow_facts.specs.Told.{AreSized, side_at};
ghost use Rattle.call_flow.specs.Told.{IsKnown};

use call_flow::{Known, dropped_facts, known_facts};
use flow_bits::{Row, Square};
use flow_facts::{Facts, prepend_move, skip_facts, then_with};
use spark_base::NoMemory;
use std::alloc::Global;
use std::test::Fail;

const GLOBAL: u32 = 0;

const LOCAL: u32 = 1;

/// The names of the frame.
const VOID: u32 = 2;

/// The name of the formal in the call.
const FORMAL: u32 = 2;

const BIG: u32 = 3;

fn row(alloc: Global, size: u32, i: u32) -> Result<Row, NoMemory>
    ensures { IfOk result (λ row. length row ≡ size) }
{
    let mut row = Row::new(alloc, size)?;
    if i < size {
        row.add(i);
    }
    Ok(row)
}

// The variable and the formal: the formal is read and kept, and decides both.
fn known(alloc: Global, returns: bool) -> Result<Known, NoMemory>
    ensures { IfOk result (IsKnown 3) }
{
    let mut depends = Square::new(alloc, 2)?;
    depends.add(1, 0);
    depends.add(1, 1);
    Ok(Known {
        names: vec![in alloc; GLOBAL, FORMAL]?,
        returns,
        reads: row(alloc, 2, 1)?,
        writes: row(alloc, 2, 0)?,
        keeps: row(alloc, 2, 1)?,
        depends,
    })
}

fn relates(square: &Square, v: u32, w: u32) -> bool {
    v < square.size() && w < square.size() && square.has(v, w)
}

fn has(row: &Row, v: u32) -> bool {
    v < row.size() && row.has(v)
}

fn has_only(square: &Square, pairs: &[(u32, u32)]) -> bool {
    (0..3).all(|v| (0..3).all(|w| relates(square, v, w) == pairs.contains(&(v, w))))
}

fn is_set(row: &Row, wanted: &[u32]) -> bool {
    (0..3).all(|v| has(row, v) == wanted.contains(&v))
}

// Whether it has no outcome but to go on.
fn is_alone(facts: &Facts) -> bool
    ensures { IsTrue result → (o : Outcome) → IsTrue (side_at facts.now o).reached → o ≡ Next }
{
    !facts.back.reached && facts.leaves.is_empty()
}

// The local is passed.
fn parts(alloc: Global, known: &Known) -> Result<Facts, NoMemory>
    requires { IsKnown 3 known.now }
    ensures { IfOk result (AreSized 4) }
{
    let second = known_facts(alloc, BIG, known)?;
    let mut rest = skip_facts(alloc, BIG)?;
    then_with(alloc, BIG, &second, &mut rest)?;
    let from = row(alloc, BIG + 1, LOCAL)?;
    let mut room = Row::new(alloc, BIG + 1)?;
    prepend_move(&mut rest, BIG, FORMAL, &from, &mut room);
    Ok(rest)
}

#[test]
fn a_call_behind_its_parts(rt: HostRuntime) -> Result<(), Fail> {
    let parts = parts(rt.alloc(), &known(rt.alloc(), true)?)?;
    assert!(rt; is_alone(&parts));
    let call = dropped_facts(rt.alloc(), VOID, BIG, &parts)?;
    assert!(rt; is_set(&call.reads, &[LOCAL]) && is_set(&call.writes, &[GLOBAL]));
    assert!(rt; is_set(&call.decides, &[]) && call.next.reached && !call.back.reached);
    assert!(rt; has_only(&call.next.kept, &[(LOCAL, LOCAL), (VOID, VOID)]));
    assert!(rt; has_only(&call.next.dep, &[(LOCAL, GLOBAL), (LOCAL, LOCAL)]));
    Ok(())
}

#[test]
fn a_call_that_cannot_return(rt: HostRuntime) -> Result<(), Fail> {
    let parts = parts(rt.alloc(), &known(rt.alloc(), false)?)?;
    assert!(rt; is_alone(&parts));
    let call = dropped_facts(rt.alloc(), VOID, BIG, &parts)?;
    assert!(rt; is_set(&call.reads, &[LOCAL]) && is_set(&call.writes, &[GLOBAL]));
    assert!(rt; !call.next.reached && call.next.kept.size() == 0 && call.next.dep.size() == 0);
    Ok(())
}
