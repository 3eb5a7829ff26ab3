//! From what the layout of a program is made.
ghost use Rattle.std.specs.Prelude.{◌<◌, ◌^◌, length, IfOk};
ghost use Rattle.core_form.specs.Fine.{IsWellFormed};
ghost use Rattle.program_layout.specs.Made.{AreBodiesOf};

use crate::beside::{leaves_beside, library_leaves};
use crate::holders::{add_passed, no_bodies};
use crate::named::add_named;
use crate::views::{add_contracts, rows_seen};
use body_calls::callers;
use core_form::Program;
use row_leaves::Bodies;
use spark_base::{Items, NoMemory};
use std::alloc::Global;

/// The lists of a program from which row leaves are made.
pub fn bodies_of(alloc: Global, program: &Program) -> Result<Bodies, NoMemory>
    requires fine { IsWellFormed program.now }
    requires few { length program.now.bodies < 2 ^ 32 }
    ensures { IfOk result (λ d. AreBodiesOf program.now d) }
{
    let library = library_leaves(alloc, program)?;
    let lists = callers(alloc, program)?;
    let mut holders = no_bodies(alloc, program.leaves.len())?;
    add_passed(program, &mut holders)?;
    add_named(alloc, program, library.as_slice(), &mut holders)?;
    add_contracts(
        alloc,
        program,
        library.as_slice(),
        lists.as_slice(),
        &mut holders,
    )?;
    let sees = rows_seen(alloc, program, lists.as_slice())?;
    Ok(Bodies {
        holders: Items::from_vec(holders),
        library,
        sees: Items::from_vec(sees),
        beside: leaves_beside(alloc, program)?,
    })
}
