//! The types that marks name.
ghost use Rattle.std.specs.Prelude.{◌≡◌};
ghost use Rattle.ada_forms.specs.Forms.{expr_of};
ghost use Rattle.types_objects.specs.Marks as spec;

use crate::predefined::{Predefined, predefined_name};
use crate::types::Types;
use ada_forms::{ExprForm, expr_form};
use ada_tree::Units;
use spark_base::{DeclNo, ExprNo, Name, TypeNo};
use static_eval::Known;

/// The type that a predefined name is, if it is one.
fn type_predefined(what: Option<Predefined>) -> Option<TypeNo>
    ensures { result ≡ spec.type_predefined what }
{
    match what {
        Some(Predefined::Type(t)) => Some(t),
        _ => None,
    }
}

fn type_denoted(types: &Types, name: &Name, denoted: Option<DeclNo>) -> Option<TypeNo>
    ensures { result ≡ spec.type_denoted types.now name.now denoted }
{
    match denoted {
        None => type_predefined(predefined_name(name.written.as_slice())),
        Some(d) => types.of_decl(d),
    }
}

fn type_named(types: &Types, units: &Units, known: &Known, e: ExprNo) -> Option<TypeNo>
    ensures { result ≡ spec.type_named types.now known.now (expr_of units.now.exprs e) }
{
    match expr_form(units, e).form {
        ExprForm::Identifier(name) => type_denoted(types, name, known.names.find(e.0)),
        ExprForm::Selected { name, .. } => type_denoted(types, name, known.names.find(e.0)),
        _ => None,
    }
}

/// What is no type of the table counts as Integer.
pub fn there(types: &Types, t: Option<TypeNo>) -> TypeNo
    ensures { result ≡ spec.there types.now t }
{
    match t {
        None => TypeNo(1),
        Some(t) => {
            if (t.0 as usize) < types.list.len() {
                t
            } else {
                TypeNo(1)
            }
        }
    }
}

/// The type that a mark names; Integer where there is none.
pub fn type_of_mark(types: &Types, units: &Units, known: &Known, e: ExprNo) -> TypeNo
    ensures { result ≡ spec.type_of_mark types.now known.now (expr_of units.now.exprs e) }
{
    there(types, type_named(types, units, known, e))
}
