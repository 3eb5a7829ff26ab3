ghost use Rattle.std.specs.Prelude.{ℕ, ◌↔◌, IfErr, IfOk};
ghost use Rattle.core_form.specs.Fine.{IsWellFormed};
ghost use Rattle.program_layout.specs.Rows.{IsLayoutFault, IsLayoutOf};
ghost use Rattle.row_equations.specs.Follow.{least_row};
ghost use Rattle.summary_rows.specs.Facts.{Fact};
ghost use Rattle.summary_rows.specs.Layout.{AreRows, IsTidy, told};

use crate::bodies::solve_alone;
use core_form::Program;
use program_layout::layout;
use spark_messages::PhaseFault;
use std::alloc::Global;
use summary_rows::Rows;

/// The rows of all bodies of a program, in the layout of the program: the least solution of their equations. It is refused (X05) where the
/// program has no layout. Its time is that of `program_layout::layout` and of `solve_alone`.
pub fn summaries_of(alloc: Global, program: &Program) -> Result<Rows, PhaseFault>
    requires fine { IsWellFormed program.now }
    ensures layout { IfOk result (λ rows. IsLayoutOf program.now rows.layout) }
    ensures rows { IfOk result (λ rows. AreRows rows) }
    ensures tidy { IfOk result (λ rows. IsTidy rows) }
    ensures least { IfOk result (λ rows. (f : Fact) → told rows f ↔ least_row program.now rows.layout f) }
    ensures refused { IfErr result (λ fault. IsLayoutFault program.now fault) }
{
    let layout = layout(alloc, program)?;
    let rows = solve_alone(alloc, program, &layout)?;
    Ok(rows)
}
