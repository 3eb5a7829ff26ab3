//! Declarations that wait for the types of others.
ghost use Rattle.std.specs.Prelude.{◌≡◌};
ghost use Rattle.ada_forms.specs.Declarations.{decl_of};
ghost use Rattle.ada_forms.specs.Forms.{expr_of};
ghost use Rattle.types_objects.specs.Awaited as spec;

use crate::types::Types;
use ada_forms::{DeclForm, ExprForm, decl_form, expr_form};
use ada_tree::Units;
use spark_base::{DeclNo, ExprNo};
use static_eval::Known;

/// A declaration that has no type yet.
fn missing(types: &Types, denoted: Option<DeclNo>) -> Option<DeclNo>
    ensures { result ≡ spec.missing types.now denoted }
{
    match denoted {
        None => None,
        Some(d) => match types.of_decl(d) {
            None => Some(d),
            Some(_) => None,
        },
    }
}

fn mark_awaits(types: &Types, units: &Units, known: &Known, e: ExprNo) -> Option<DeclNo>
    ensures { result ≡ spec.mark_awaits types.now known.now (expr_of units.now.exprs e) }
{
    match expr_form(units, e).form {
        ExprForm::Identifier(_) => missing(types, known.names.find(e.0)),
        ExprForm::Selected { .. } => missing(types, known.names.find(e.0)),
        _ => None,
    }
}

fn subtype_awaits(types: &Types, units: &Units, known: &Known, e: ExprNo) -> Option<DeclNo>
    ensures { result ≡ spec.subtype_awaits types.now known.now (expr_of units.now.exprs e) }
{
    match expr_form(units, e).form {
        ExprForm::Indication { mark } => mark_awaits(types, units, known, mark),
        ExprForm::Constrained { mark, .. } => mark_awaits(types, units, known, mark),
        _ => None,
    }
}

/// What the index of an array that is declared there waits for: of a type its number, of an object or a component its type.
fn array_awaits(types: &Types, units: &Units, known: &Known, d: DeclNo) -> Option<DeclNo>
    ensures { result ≡ spec.array_awaits types.now known.now d (decl_of units.now d) }
{
    match decl_form(units, d).form {
        DeclForm::ArrayType { .. } => missing(types, Some(d)),
        DeclForm::Subtype { .. } => missing(types, Some(d)),
        DeclForm::Object { subtype, .. } => subtype_awaits(types, units, known, subtype),
        DeclForm::Component { subtype, .. } => subtype_awaits(types, units, known, subtype),
        _ => None,
    }
}

fn denoted_awaits(
    types: &Types,
    units: &Units,
    known: &Known,
    denoted: Option<DeclNo>,
) -> Option<DeclNo>
    ensures { result ≡ spec.denoted_awaits types.now units.now known.now denoted }
{
    match denoted {
        None => None,
        Some(d) => array_awaits(types, units, known, d),
    }
}

fn prefix_awaits(types: &Types, units: &Units, known: &Known, e: ExprNo) -> Option<DeclNo>
    ensures { result ≡ spec.prefix_awaits types.now units.now known.now (expr_of units.now.exprs e) }
{
    match expr_form(units, e).form {
        ExprForm::Identifier(_) => denoted_awaits(types, units, known, known.names.find(e.0)),
        ExprForm::Selected { .. } => denoted_awaits(types, units, known, known.names.find(e.0)),
        _ => None,
    }
}

fn attribute_awaits(types: &Types, units: &Units, known: &Known, e: ExprNo) -> Option<DeclNo>
    ensures { result ≡ spec.attribute_awaits types.now units.now known.now (expr_of units.now.exprs e) }
{
    match expr_form(units, e).form {
        ExprForm::RangeAttribute { prefix, .. } => prefix_awaits(types, units, known, prefix),
        _ => None,
    }
}

fn index_awaits(types: &Types, units: &Units, known: &Known, e: ExprNo) -> Option<DeclNo>
    ensures { result ≡ spec.index_awaits types.now units.now known.now (expr_of units.now.exprs e) }
{
    match expr_form(units, e).form {
        ExprForm::SubtypeRange { subtype } => subtype_awaits(types, units, known, subtype),
        ExprForm::AttributeRange { attribute } => attribute_awaits(types, units, known, attribute),
        _ => None,
    }
}

fn component_awaits(types: &Types, units: &Units, known: &Known, d: DeclNo) -> Option<DeclNo>
    ensures { result ≡ spec.component_awaits types.now known.now (decl_of units.now d) }
{
    match decl_form(units, d).form {
        DeclForm::Component { subtype, .. } => subtype_awaits(types, units, known, subtype),
        _ => None,
    }
}

fn components_await(
    types: &Types,
    units: &Units,
    known: &Known,
    components: &[DeclNo],
) -> Option<DeclNo>
    ensures { result ≡ spec.components_await types.now units.now known.now components.now }
{
    for d in components {
        if let Some(awaited) = component_awaits(types, units, known, *d) {
            return Some(awaited);
        }
    }
    None
}

fn or_next(first: Option<DeclNo>, next: Option<DeclNo>) -> Option<DeclNo>
    ensures { result ≡ spec.or_next first next }
{
    match first {
        None => next,
        Some(d) => Some(d),
    }
}

/// The first declaration of those that the type of a declaration is made of that has no type yet, as a private type before its full
/// declaration. Where there is none, the declaration can be added.
pub fn awaited_by(types: &Types, units: &Units, known: &Known, d: DeclNo) -> Option<DeclNo>
    ensures { result ≡ spec.awaited_by types.now units.now known.now (decl_of units.now d) }
{
    match decl_form(units, d).form {
        DeclForm::ArrayType { index, element, .. } => or_next(
            index_awaits(types, units, known, index),
            mark_awaits(types, units, known, element),
        ),
        DeclForm::RecordType { components, .. } => components_await(
            types, units, known, components,
        ),
        DeclForm::Subtype { subtype, .. } => subtype_awaits(types, units, known, subtype),
        DeclForm::Object { subtype, .. } => subtype_awaits(types, units, known, subtype),
        DeclForm::Component { subtype, .. } => subtype_awaits(types, units, known, subtype),
        _ => None,
    }
}
