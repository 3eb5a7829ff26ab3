ghost use Rattle.std.specs.Prelude.{◌≡◌, ℕ, ◌<◌, List, length, IfOk};
ghost use Rattle.spark_base.specs.declared.numbers.Span.{Span};
ghost use Rattle.core_form.specs.Code.{Assign, code_of, expr_of, spot_at};
ghost use Rattle.core_form.specs.Fine.{IsWellFormed, PlaceBelow};
ghost use Rattle.run_model.specs.Held.{AreNoCalls, IsHeldEffect, IsPlain, effect_told};
ghost use Rattle.run_model.specs.Machine.{Remaining, cells_seen, deed};
ghost use Rattle.run_model.specs.Runs.{IsSized};

use crate::cells::{bare, cells_seen, written};
use crate::values::{first_of, truth_of, value_of};
use core_form::{CoreStmt, Place, Program};
use spark_base::{ExprNo, Items, LeafNo, NoMemory, StmtNo};
use std::alloc::Global;

/// What a statement that is no sequence does.
#[derive(Drop)]
pub enum Effect {
    /// This branch was chosen.
    Chosen(StmtNo),
    /// A round of a loop with this body begins.
    Round(StmtNo),
    /// So many loops are left, and one more.
    Left(u32),
    /// The body returns.
    Returned,
    /// The leaf has these cells.
    Changed(LeafNo, Items<Option<i128>>),
}

// The effect of a move, or none where a run-time check fails.
fn move_effect(
    alloc: Global,
    program: &Program,
    library: &[Items<Option<i128>>],
    own: &[Items<Option<i128>>],
    to: &Place,
    from: ExprNo,
) -> Result<Option<Effect>, NoMemory>
    requires fine { IsWellFormed program.now }
    requires to { PlaceBelow (length program.now.leaves) (length program.now.exprs) to.now }
    requires from { from.0 < length program.now.exprs }
    requires library { IsSized program.now library.now }
    requires own { IsSized program.now own.now }
    ensures held { IfOk result (IsHeldEffect program.now) }
    ensures told { (at : Span) → IfOk result (λ e. (word : ℕ) (k : List Remaining) → effect_told program.now e k
        ≡ deed (cells_seen program.now library.now own.now) word (Assign (spot_at (expr_of program.now.exprs) to.now) (expr_of program.now.exprs from) at) k) }
{
    let exprs = program.exprs.len() as u32;
    let Some(value) = value_of(alloc, program, library, own, from)? else {
        return Ok(None);
    };
    if value.len() != to.cells as usize {
        return Ok(None);
    }
    let Some(first) = first_of(alloc, program, library, own, exprs, to)? else {
        return Ok(None);
    };
    let cells = cells_seen(program, library, own, to.leaf);
    Ok(Some(Effect::Changed(to.leaf, written(alloc, cells, first, &value)?)))
}

/// The effect of a statement that is no sequence, or none where a run-time check fails.
pub fn effect_of(
    alloc: Global,
    program: &Program,
    library: &[Items<Option<i128>>],
    own: &[Items<Option<i128>>],
    s: StmtNo,
) -> Result<Option<Effect>, NoMemory>
    requires fine { IsWellFormed program.now }
    requires calls { AreNoCalls program.now.stmts }
    requires in_range { s.0 < length program.now.stmts }
    requires plain { IsPlain (code_of program.now.exprs program.now.stmts s) }
    requires library { IsSized program.now library.now }
    requires own { IsSized program.now own.now }
    ensures held { IfOk result (IsHeldEffect program.now) }
    ensures told { IfOk result (λ e. (word : ℕ) (k : List Remaining) → effect_told program.now e k
        ≡ deed (cells_seen program.now library.now own.now) word (code_of program.now.exprs program.now.stmts s) k) }
{
    match program.stmt(s) {
        CoreStmt::Move { to, from, .. } => move_effect(alloc, program, library, own, to, *from),
        CoreStmt::Fresh(leaf) => {
            let count = cells_seen(program, library, own, *leaf).len();
            Ok(Some(Effect::Changed(*leaf, bare(alloc, count)?)))
        }
        CoreStmt::If { test, yes, no } => {
            match truth_of(alloc, program, library, own, *test)? {
                Some(true) => Ok(Some(Effect::Chosen(*yes))),
                Some(false) => Ok(Some(Effect::Chosen(*no))),
                None => Ok(None),
            }
        }
        CoreStmt::Loop(body) => Ok(Some(Effect::Round(*body))),
        CoreStmt::Leave(loops) => Ok(Some(Effect::Left(*loops))),
        CoreStmt::Back => Ok(Some(Effect::Returned)),
        CoreStmt::Fail => Ok(None),
        CoreStmt::Seq(_)
        | CoreStmt::Call { .. }
        | CoreStmt::Guarded { .. }
        | CoreStmt::DelayUntil(_)
        | CoreStmt::Clock(_) => unreachable!(),
    }
}
