//! The range that an array has before its entry is there.
ghost use Rattle.std.specs.Prelude.{◌≡◌, IfOk, OnOk};
ghost use Rattle.ada_forms.specs.Declarations.{decl_of};
ghost use Rattle.ada_forms.specs.Forms.{expr_of};
ghost use Rattle.types_objects.specs.Early as spec;
ghost use Rattle.types_objects.specs.Table.{IsTable};
ghost use Rattle.types_objects.specs.Telling.{with_range};

use crate::made::{Made, NewType, index_between, indicated, range_in};
use crate::ranges::{Limits, discrete_range, greatest_at, limits_at, range_with};
use crate::telling::tell_range;
use crate::types::{TypeForm, Types};
use ada_forms::{DeclForm, ExprForm, decl_form, expr_form};
use ada_tree::Units;
use spark_base::{DeclNo, ExprNo, Name, NoMemory};
use static_eval::{Known, range_of_indication};
use static_meanings::Range;
use std::alloc::Global;

fn own_limits(form: &TypeForm) -> Option<Limits>
    ensures { result ≡ spec.own_limits form.now }
{
    match form {
        TypeForm::Signed { low, high } => Some(Limits {
            low: *low,
            high: *high,
        }),
        _ => None,
    }
}

/// The range of an index of its own. It has no number yet: that of its first type stands for it.
fn range_to_come(types: &Types, new: &NewType) -> Option<Range>
    requires table { IsTable types.now }
    ensures { result ≡ spec.range_to_come types.now new.now }
{
    let first = new.first;
    range_with(
        first,
        first,
        own_limits(&new.def.form),
        limits_at(types, first),
        greatest_at(types, first),
    )
}

fn range_made(types: &Types, made: Made) -> Option<Range>
    requires table { IsTable types.now }
    ensures { result ≡ spec.range_made types.now made }
{
    match made {
        Made::Same(t) => discrete_range(types, t),
        Made::One(new) => range_to_come(types, &new),
        _ => None,
    }
}

/// The range that the index of an array will have.
fn early_index(
    alloc: Global,
    types: &Types,
    units: &Units,
    known: &Known,
    name: &Name,
    d: DeclNo,
    index: ExprNo,
) -> Result<Option<Range>, NoMemory>
    requires table { IsTable types.now }
    ensures { IfOk result (λ r. r ≡ spec.early_index types.now units.now known.now name.now d (expr_of units.now.exprs index)) }
{
    match expr_form(units, index).form {
        ExprForm::SubtypeRange { subtype } => {
            let made = indicated(alloc, types, units, known, name, d, subtype)?;
            Ok(range_made(types, made))
        }
        ExprForm::BoundsRange { low, high } => {
            let made = index_between(alloc, units, known, name, d, low, high)?;
            Ok(range_made(types, made))
        }
        ExprForm::AttributeRange { attribute } => range_in(alloc, units, known, attribute),
        _ => Ok(None),
    }
}

/// The range of a declaration that waits: of an array that of its index, of a subtype that of its mark.
fn early_range(
    alloc: Global,
    types: &Types,
    units: &Units,
    known: &Known,
    d: DeclNo,
) -> Result<Option<Range>, NoMemory>
    requires table { IsTable types.now }
    ensures { IfOk result (λ r. r ≡ spec.early_range types.now units.now known.now (decl_of units.now d)) }
{
    match decl_form(units, d).form {
        DeclForm::ArrayType { name, index, .. } => early_index(
            alloc, types, units, known, name, d, index,
        ),
        DeclForm::Subtype { subtype, .. } => Ok(range_of_indication(units, known, subtype)),
        _ => Ok(None),
    }
}

/// Makes known the range of a declaration that waits for a type, if it has one: an array whose elements are of a private type has
/// its bounds from its declaration on, and so have its subtypes. What `tell_type` tells of it later counts then.
pub fn tell_early(
    alloc: Global,
    known: &mut Known,
    types: &Types,
    units: &Units,
    d: DeclNo,
) -> Result<(), NoMemory>
    requires table { IsTable types.now }
    ensures { OnOk result (known.new ≡ with_range known.old d (spec.early_range types.now units.now known.old (decl_of units.now d))) }
{
    let range = early_range(alloc, types, units, known, d)?;
    tell_range(known, d, range)
}
