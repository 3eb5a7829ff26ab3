//! The prefixes of a selected name, from the name down.
ghost use Rattle.std.specs.Prelude.{◌≡◌, ◌<◌, IfOk, IfSome, None};
ghost use Rattle.ada_forms.specs.Forms.{expr_of};
ghost use Rattle.name_marks.specs.Prefixes.{prefix_of, read_prefix, reversed, Spine};

use ada_forms::{ExprForm, expr_form};
use ada_tree::Units;
use spark_base::{ExprNo, NoMemory};
use std::alloc::Global;

/// The prefix of a selected name.
fn prefix_below(units: &Units, e: ExprNo) -> Option<ExprNo>
    ensures prefix { prefix_of (expr_of units.now.exprs e) ≡ read_prefix (expr_of units.now.exprs) result }
    ensures below { IfSome result (λ c. c.0 < e.0) }
{
    match expr_form(units, e).form {
        ExprForm::Selected { prefix, .. } => Some(prefix),
        _ => None,
    }
}

/// The prefixes of a name: those that are selected names, the name first, and the lowest, which is none.
#[derive(Drop)]
pub(crate) struct Descent {
    pub above: Vec<ExprNo>,
    pub lowest: ExprNo,
}

pub(crate) fn descend(alloc: Global, units: &Units, e: ExprNo) -> Result<Descent, NoMemory>
    ensures spine { IfOk result (λ d. Spine units.now.exprs e (reversed d.above.items) d.lowest) }
    ensures lowest { IfOk result (λ d. prefix_of (expr_of units.now.exprs d.lowest) ≡ None) }
{
    let mut above = Vec::new(alloc);
    let mut at = e;
    while let Some(prefix) = prefix_below(units, at) {
        above.push(at)?;
        at = prefix;
    }
    Ok(Descent { above, lowest: at })
}
