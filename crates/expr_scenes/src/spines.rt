//! The parts of names and operators that are read first, from the whole down.
ghost use Rattle.std.specs.Prelude.{◌≡◌, ◌<◌, ◌≤◌, All, IfOk, IfSome, None};
ghost use Rattle.expr_scenes.specs.Overs.{inner, inner_reading as reading_within, Leads, read_inner, reversed};
ghost use Rattle.expr_scenes.specs.Scenes.{tree};
ghost use Rattle.expr_scenes.specs.declared.spines.Step.{Step as Read};

use crate::scene::Scene;
use ada_forms::{ExprForm, expr_form};
use expr_rules::is_turned;
use part_slots::Reading;
use spark_base::{ExprNo, NoMemory};

/// The part that is read first.
fn inner_below(scene: &Scene, e: ExprNo) -> Option<ExprNo>
    ensures inner { inner (tree scene.now e) ≡ read_inner (tree scene.now) result }
    ensures below { IfSome result (λ c. c.0 < e.0) }
{
    match expr_form(scene.units, e).form {
        ExprForm::Selected { prefix, .. } => Some(prefix),
        ExprForm::Applied { prefix, .. } => Some(prefix),
        ExprForm::Attribute { prefix, .. } => Some(prefix),
        ExprForm::RangeAttribute { prefix, .. } => Some(prefix),
        ExprForm::Qualified { mark, .. } => Some(mark),
        ExprForm::Binary {
            operator,
            left,
            right,
            ..
        } => {
            if is_turned(scene.units, operator, left, right) {
                None
            } else {
                Some(left)
            }
        }
        _ => None,
    }
}

/// How that part is read.
fn inner_reading(scene: &Scene, e: ExprNo) -> Reading
    ensures { result ≡ reading_within (tree scene.now e) }
{
    match expr_form(scene.units, e).form {
        ExprForm::Binary { .. } => Reading::Free,
        _ => Reading::AsName,
    }
}

/// An expression, and how it is read.
#[derive(Clone, Copy, Debug)]
pub struct Step {
    pub e: ExprNo,
    pub reading: Reading,
}

/// The expressions with an inner part, the whole first, and the lowest, which has none.
#[derive(Drop)]
pub struct Descent {
    pub above: Vec<Step>,
    pub lowest: Step,
}

/// The parts of an expression that are read first, one in the other, from the whole down to one that has none. It fails for want of
/// memory alone.
pub fn descend(scene: &Scene, reading: Reading, e: ExprNo) -> Result<Descent, NoMemory>
    ensures leads { IfOk result (λ d. Leads scene.now.units.now.exprs (record { e = e; reading = reading }) (reversed d.above.items) d.lowest) }
    ensures leaf { IfOk result (λ d. inner (tree scene.now d.lowest.e) ≡ None) }
    ensures below { IfOk result (λ d. All (λ (x : Read). x.e.0 ≤ e.0) d.above.items) }
    ensures lowest { IfOk result (λ d. d.lowest.e.0 ≤ e.0) }
{
    let mut above = Vec::new(scene.alloc);
    let mut at = Step { e, reading };
    while let Some(inner) = inner_below(scene, at.e) {
        above.push(at)?;
        let reading = inner_reading(scene, at.e);
        at = Step { e: inner, reading };
    }
    Ok(Descent { above, lowest: at })
}
