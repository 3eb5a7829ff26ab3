// Three procedures on a circle: each calls the next where its formal is true, and the last assigns the library variable to itself then.
ghost use Rattle.std.specs.Prelude.{◌<◌, length};
ghost use Rattle.summary_rows.specs.Layout.{AreRows};

use crate::samples::{Shape, assignment, both, call, choice, procedure, program};
use body_summaries::summaries_of;
use core_form::{Body, CoreStmt, ParamMode, Program, well_formed};
use spark_base::{BodyNo, Items, LeafNo, NoMemory, StmtNo};
use std::alloc::Global;
use std::test::Fail;
use summary_rows::Rows;

const SHAPE: Shape = Shape {
    library: 1,
    bodies: 3,
};

// The call of the next body, what is done where the formal is true, and the code, from statement 3 * b + 2 on.
fn add_code(alloc: Global, b: u32, stmts: &mut Items<CoreStmt>) -> Result<(), NoMemory>
    requires { b < 3 }
{
    let next = if b == 2 { 0 } else { b + 1 };
    let first = if b == 2 { 1 } else { 0 };
    stmts.push(call(alloc, next, b + 1, b + 1)?)?;
    stmts.push(both(alloc, first, 3 * b + 2)?)?;
    stmts.push(choice(b + 1, 3 * b + 3, 0))
}

fn circle(alloc: Global) -> Result<Program, NoMemory> {
    let mut stmts = Items::new(alloc);
    stmts.push(CoreStmt::Seq(Items::new(alloc)))?;
    stmts.push(assignment(alloc, 0, 0))?;
    let mut bodies: Items<Body> = Items::new(alloc);
    for b in 0..3u32 {
        add_code(alloc, b, &mut stmts)?;
        bodies.push(procedure(alloc, b + 1, ParamMode::In, StmtNo(3 * b + 4))?)?;
    }
    program(alloc, SHAPE, bodies, stmts)
}

// Whether a row has the library variable as read, written and kept; the formal as read, as written, and as what the variable depends on.
fn facts(rows: &Rows, b: u32) -> [bool; 6]
    requires rows { AreRows rows.now }
    requires in_range { b < length rows.now.layout.outer }
    requires few { b < 3 }
{
    let body = BodyNo(b);
    let formal = LeafNo(b + 1);
    [
        rows.reads(body, LeafNo(0)),
        rows.writes(body, LeafNo(0)),
        rows.keeps(body, LeafNo(0)),
        rows.reads(body, formal),
        rows.writes(body, formal),
        rows.depends(body, formal, LeafNo(0)),
    ]
}

#[test]
fn the_variable_of_a_circle(rt: HostRuntime) -> Result<(), Fail> {
    let program = circle(rt.alloc())?;
    assert!(rt; well_formed(&program));
    assert!(rt; program.bodies.len() == 3);
    match summaries_of(rt.alloc(), &program) {
        Err(_) => assert!(rt; false),
        Ok(rows) => {
            for b in 0..3u32 {
                assert!(rt; rows.returns(BodyNo(b)));
                let found = facts(&rows, b);
                assert_eq!(rt;
                    found.as_slice(),
                    [true, true, true, true, false, true].as_slice()
                );
            }
        }
    }
    Ok(())
}
