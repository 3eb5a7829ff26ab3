ghost use Rattle.std.specs.Prelude.{◌≡◌, ℕ, ◌↔◌, length, IfOk};
ghost use Rattle.core_form.specs.Fine.{IsWellFormed};
ghost use Rattle.summary_rows.specs.Facts.{Fact};
ghost use Rattle.summary_rows.specs.Layout.{AreRows, IsTidy, told};
ghost use Rattle.row_equations.specs.Follow.{least_row};
ghost use Rattle.body_summaries.specs.Bodies.{IsLayoutFor};

use crate::rows::row_words;
use body_calls::callers;
use core_form::Program;
use row_solver::RowEquations;
use spark_base::{BodyNo, NoMemory};
use std::alloc::Global;
use summary_rows::{Layout, Rows, Words};

// The bodies of a program, and the layout of their rows.
#[derive(Clone, Copy)]
struct Bodies<'a> {
    program: &'a Program,
    layout: &'a Layout,
}

impl<'a> RowEquations for Bodies<'a> {
    ghost use Rattle.row_equations.specs.Follow.{follows};
    ghost use Rattle.row_equations.proofs.Following.{calls_of};
    ghost use Rattle.body_summaries.specs.Bodies.{AreFit, is_equation};

    ghost layout = { λ it. it.layout.now };

    ghost calls = { λ it. calls_of it.program.now };

    ghost follow = { λ it. follows it.program.now it.layout.now };

    ghost is_fit = { λ it. AreFit it.program.now it.layout.now };

    ghost lawful = { λ it h. is_equation it.program.now it.layout.now };

    fn row_words(&self, alloc: Global, b: BodyNo, rows: &Rows) -> Result<Words, NoMemory> {
        let words = row_words(alloc, self.program, b, rows)?;
        Ok(words)
    }
}

/// The rows of all bodies of a program: they tell exactly the least solution of the equations, in which each body sees its callees by their
/// contracts, or else by their rows. The layout is one of the program's bodies, and of leaves of the program.
///
/// How often bodies are visited `row_solver::solve_alone` says. Want of memory is the only fault.
pub fn solve_alone(alloc: Global, program: &Program, layout: &Layout) -> Result<Rows, NoMemory>
    requires fine { IsWellFormed program.now }
    requires layout { IsLayoutFor program.now layout.now }
    ensures layout { IfOk result (λ rows. rows.layout ≡ layout.now) }
    ensures rows { IfOk result (λ rows. AreRows rows) }
    ensures tidy { IfOk result (λ rows. IsTidy rows) }
    ensures least { IfOk result (λ rows. (f : Fact) → told rows f ↔ least_row program.now layout.now f) }
{
    let callers = callers(alloc, program)?;
    let bodies = Bodies { program, layout };
    row_solver::solve_alone(alloc, &bodies, layout, callers.as_slice())
}
