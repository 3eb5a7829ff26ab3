ghost use Rattle.std.specs.Prelude.{◌≡◌, IfNone, IfOk, IfSome};
ghost use Rattle.first_conditions.specs.Conditions.{MeetsConditions, variable_keys};

use crate::fit::{is_fit_body, is_fit_spec};
use crate::known::{declared, knows_lines, lists_items};
use crate::names::KeyTable;
use first_path::Source;
use spark_base::NoMemory;
use std::alloc::Global;

/// The keys of a source's variables, in their order, and none where it does not meet the conditions.
#[tactic(auto, using(crate::proofs::Parts::meets, crate::proofs::Parts::fit_spec, crate::proofs::Parts::fit_body, crate::proofs::Parts::fit_items, crate::proofs::Parts::known_names))]
pub fn conditions(alloc: Global, source: &Source) -> Result<Option<KeyTable>, NoMemory>
    ensures some { IfOk result (λ r. IfSome r (λ t. MeetsConditions source.now × (t ≡ variable_keys source.now.spec.variables))) }
    ensures none { IfOk result (λ r. IfNone r (MeetsConditions source.now → ⊥)) }
{
    if !is_fit_spec(&source.spec) {
        return Ok(None);
    }
    if !is_fit_body(&source.spec, &source.body) {
        return Ok(None);
    }
    let Some(table) = declared(alloc, &source.spec)? else {
        return Ok(None);
    };
    if !lists_items(alloc, &table, &source.spec.procedure.global)? {
        return Ok(None);
    }
    if !knows_lines(alloc, &table, source.body.procedure.lines.as_slice())? {
        return Ok(None);
    }
    Ok(Some(table))
}
