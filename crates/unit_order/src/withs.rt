//! The names in the with clauses of a unit.
ghost use Rattle.std.specs.Prelude.{◌≡◌, ◌++◌, map, IfOk, OnOk};
ghost use Rattle.ada_forms.specs.Declarations.{decl_of};
ghost use Rattle.ada_forms.specs.Forms.{expr_of};
ghost use Rattle.unit_order.specs.Withs.{names_in, withs_of};

use ada_forms::{DeclForm, decl_form};
use ada_tree::Units;
use spark_base::{DeclNo, ExprNo, NoMemory};
use std::alloc::Global;

/// Adds the names in a with clause.
fn add_names(units: &Units, d: DeclNo, names: &mut Vec<ExprNo>) -> Result<(), NoMemory>
    ensures { OnOk result (map (expr_of units.now.exprs) names.new.items
        ≡ map (expr_of units.now.exprs) names.old.items ++ names_in (decl_of units.now d)) }
{
    if let DeclForm::With { units: list } = decl_form(units, d).form {
        names.extend_from_slice(list)?;
    }
    Ok(())
}

/// The names in the with clauses among declarations, in their order.
pub(crate) fn with_names(
    alloc: Global,
    units: &Units,
    decls: &[DeclNo],
) -> Result<Vec<ExprNo>, NoMemory>
    ensures { IfOk result (λ names. map (expr_of units.now.exprs) names.items ≡ withs_of units.now decls.now) }
{
    let mut names = Vec::new(alloc);
    for d in decls {
        add_names(units, *d, &mut names)?;
    }
    Ok(names)
}
