//! What a declaration makes of types.
ghost use Rattle.std.specs.Prelude.{◌≡◌, ◌<◌, ◌-◌, ◌^◌, All, IfOk, length};
ghost use Rattle.ada_forms.specs.Declarations.{decl_of};
ghost use Rattle.ada_forms.specs.Forms.{expr_of};
ghost use Rattle.static_eval.specs.Known.{said};
ghost use Rattle.types_objects.specs.Counts.{AreCounted};
ghost use Rattle.types_objects.specs.Made as spec;
ghost use Rattle.types_objects.specs.Table.{IsTable};
ghost use Rattle.types_objects.specs.declared.types.FieldDef.{FieldDef as Field};

use crate::bounds::{Formed, modular_type, range_type, subtype_bounds};
use crate::counts::leaves_of_fields;
use crate::firsts::first_of;
use crate::marks::{there, type_of_mark};
use crate::types::{FieldDef, TypeDef, TypeForm, Types};
use ada_forms::{DeclForm, ExprForm, decl_form, expr_form};
use ada_tree::Units;
use spark_base::{DeclNo, ExprNo, Items, Name, NoMemory, Pos, TypeNo};
use spark_messages::Code;
use static_eval::{Known, either, judge, range_of_mark};
use static_meanings::{Range, integers};
use std::alloc::Global;

/// A type, and its first type.
#[derive(Debug, Drop)]
pub struct NewType {
    pub def: TypeDef,
    pub first: TypeNo,
}

/// What a declaration makes.
#[derive(Debug, Drop)]
pub enum Made {
    Refused { code: Code, place: Pos },
    /// A type that is there.
    Same(TypeNo),
    One(NewType),
    /// The index of an array, and the array.
    Two(NewType, NewType),
}

/// The same name once more.
fn copied(alloc: Global, name: &Name) -> Result<Name, NoMemory>
    ensures { IfOk result (λ n. n ≡ name.now) }
{
    Name::new(alloc, name.written.as_slice())
}

/// A type of its own.
fn own(n: u32, name: Name, d: DeclNo, form: TypeForm, leaves: u32) -> Made
    ensures { result ≡ spec.one_own n name d form leaves }
{
    Made::One(own_type(n, name, d, form, leaves))
}

fn own_type(n: u32, name: Name, d: DeclNo, form: TypeForm, leaves: u32) -> NewType
    ensures { result ≡ spec.own n name d form leaves }
{
    NewType {
        def: TypeDef {
            name,
            decl: Some(d),
            form,
            leaves,
        },
        first: TypeNo(n),
    }
}

fn numeric(n: u32, name: Name, d: DeclNo, formed: Formed) -> Made
    ensures { result ≡ spec.numeric n name d formed }
{
    match formed {
        Formed::Bounds { low, high } => own(n, name, d, TypeForm::Signed { low, high }, 1),
        Formed::Modulus(m) => own(n, name, d, TypeForm::Modular(m), 1),
        Formed::Refused { code, place } => Made::Refused { code, place },
    }
}

fn derived(first: TypeNo, name: Name, d: DeclNo, form: TypeForm) -> Made
    ensures { result ≡ spec.derived first name d form }
{
    Made::One(NewType {
        def: TypeDef {
            name,
            decl: Some(d),
            form,
            leaves: 1,
        },
        first,
    })
}

/// A subtype with bounds of its own, whatever its first type is.
fn bounded(first: TypeNo, name: Name, d: DeclNo, formed: Formed) -> Made
    ensures { result ≡ spec.bounded first name d formed }
{
    match formed {
        Formed::Bounds { low, high } => derived(first, name, d, TypeForm::Signed { low, high }),
        Formed::Modulus(m) => derived(first, name, d, TypeForm::Modular(m)),
        Formed::Refused { code, place } => Made::Refused { code, place },
    }
}

/// What a subtype indication makes: without a range it is its mark.
pub fn indicated(
    alloc: Global,
    types: &Types,
    units: &Units,
    known: &Known,
    name: &Name,
    d: DeclNo,
    subtype: ExprNo,
) -> Result<Made, NoMemory>
    ensures { IfOk result (λ m. m ≡ spec.indicated types.now units.now known.now name.now d (expr_of units.now.exprs subtype)) }
{
    match expr_form(units, subtype).form {
        ExprForm::Indication { mark } => Ok(Made::Same(type_of_mark(types, units, known, mark))),
        ExprForm::Constrained { mark, low, high } => {
            let formed = subtype_bounds(
                alloc,
                units,
                known,
                range_of_mark(units, known, mark),
                low,
                high,
            )?;
            let first = first_of(types, type_of_mark(types, units, known, mark));
            Ok(bounded(first, copied(alloc, name)?, d, formed))
        }
        _ => Ok(Made::Same(TypeNo(1))),
    }
}

fn or_integers(range: Option<Range>) -> Range
    ensures { result ≡ spec.or_integers range }
{
    match range {
        None => integers(),
        Some(range) => range,
    }
}

/// The bounds of the first type.
fn widest(range: Range) -> Range
    ensures { result ≡ spec.widest range }
{
    Range {
        subtype: range.first,
        low: range.least,
        high: range.greatest,
        ..range
    }
}

/// The index `L .. H`, of the type of its bounds.
pub fn index_between(
    alloc: Global,
    units: &Units,
    known: &Known,
    name: &Name,
    d: DeclNo,
    low: ExprNo,
    high: ExprNo,
) -> Result<Made, NoMemory>
    ensures { IfOk result (λ m. m ≡ spec.index_between units.now known.now name.now d (expr_of units.now.exprs low) (expr_of units.now.exprs high)) }
{
    let of_low = judge(alloc, units, known, low)?.of;
    let of_high = judge(alloc, units, known, high)?.of;
    let of = or_integers(either(of_low, of_high));
    let formed = subtype_bounds(alloc, units, known, Some(widest(of)), low, high)?;
    Ok(bounded(of.first, copied(alloc, name)?, d, formed))
}

fn subtype_in(types: &Types, range: Option<Range>) -> TypeNo
    ensures { result ≡ spec.subtype_in types.now range }
{
    match range {
        None => TypeNo(1),
        Some(range) => there(types, Some(range.subtype)),
    }
}

/// The range that a Range attribute gives.
pub fn range_in(
    alloc: Global,
    units: &Units,
    known: &Known,
    attribute: ExprNo,
) -> Result<Option<Range>, NoMemory>
    ensures { IfOk result (λ r. r ≡ spec.range_in units.now known.now (expr_of units.now.exprs attribute)) }
{
    match expr_form(units, attribute).form {
        ExprForm::RangeAttribute { prefix, .. } => {
            let said = judge(alloc, units, known, prefix)?;
            Ok(said.range)
        }
        _ => Ok(None),
    }
}

/// What the index of an array makes.
fn index_of(
    alloc: Global,
    types: &Types,
    units: &Units,
    known: &Known,
    name: &Name,
    d: DeclNo,
    index: ExprNo,
) -> Result<Made, NoMemory>
    ensures { IfOk result (λ m. m ≡ spec.index_of types.now units.now known.now name.now d (expr_of units.now.exprs index)) }
{
    match expr_form(units, index).form {
        ExprForm::SubtypeRange { subtype } => indicated(
            alloc, types, units, known, name, d, subtype,
        ),
        ExprForm::BoundsRange { low, high } => index_between(
            alloc, units, known, name, d, low, high,
        ),
        ExprForm::AttributeRange { attribute } => {
            let range = range_in(alloc, units, known, attribute)?;
            Ok(Made::Same(subtype_in(types, range)))
        }
        _ => Ok(Made::Same(TypeNo(1))),
    }
}

/// An array over what its index makes.
fn array_over(n: u32, name: Name, d: DeclNo, of: TypeNo, index: Made) -> Made
    requires room { n < 2 ^ 32 - 1 }
    ensures { result ≡ spec.array_over n name d of index }
{
    match index {
        Made::Same(index) => own(n, name, d, TypeForm::Array { index, of }, 1),
        Made::One(first) => {
            let index = TypeNo(n);
            Made::Two(
                first,
                own_type(n + 1, name, d, TypeForm::Array { index, of }, 1),
            )
        }
        Made::Two(a, b) => Made::Two(a, b),
        Made::Refused { code, place } => Made::Refused { code, place },
    }
}

/// The name of a literal of an enumeration.
fn literal_of(alloc: Global, units: &Units, d: DeclNo) -> Result<Option<Name>, NoMemory>
    ensures { IfOk result (λ name. name ≡ spec.literal_of (decl_of units.now d)) }
{
    match decl_form(units, d).form {
        DeclForm::EnumerationLiteral { name } => Ok(Some(copied(alloc, name)?)),
        _ => Ok(None),
    }
}

/// The names of the literals of an enumeration.
fn literal_names(alloc: Global, units: &Units, literals: &[DeclNo]) -> Result<Items<Name>, NoMemory>
    ensures { IfOk result (λ names. names ≡ spec.literal_names units.now literals.now) }
{
    let mut names = Items::new(alloc);
    for d in literals {
        if let Some(name) = literal_of(alloc, units, *d)? {
            names.push(name)?;
        }
    }
    Ok(names)
}

/// The type of a component: the entry of its own, if it has a range, else that of its mark.
fn component_type(
    types: &Types,
    units: &Units,
    known: &Known,
    entry: Option<TypeNo>,
    subtype: ExprNo,
) -> TypeNo
    ensures { result ≡ spec.component_type types.now known.now entry (expr_of units.now.exprs subtype) }
{
    match entry {
        Some(t) => there(types, Some(t)),
        None => match expr_form(units, subtype).form {
            ExprForm::Indication { mark } => type_of_mark(types, units, known, mark),
            ExprForm::Constrained { mark, .. } => type_of_mark(types, units, known, mark),
            _ => TypeNo(1),
        },
    }
}

/// A component of a record.
#[tactic(auto, using(crate::proofs::Tables::number_read))]
fn component_of(
    alloc: Global,
    types: &Types,
    units: &Units,
    known: &Known,
    d: DeclNo,
) -> Result<Option<FieldDef>, NoMemory>
    ensures { IfOk result (λ field. field ≡ spec.component_of types.now known.now d (decl_of units.now d)) }
{
    match decl_form(units, d).form {
        DeclForm::Component {
            name,
            subtype,
            preset,
        } => Ok(Some(FieldDef {
            name: copied(alloc, name)?,
            of: component_type(types, units, known, types.of_decl(d), subtype),
            preset,
        })),
        _ => Ok(None),
    }
}

/// The components of a record.
fn fields_of(
    alloc: Global,
    types: &Types,
    units: &Units,
    known: &Known,
    components: &[DeclNo],
) -> Result<Items<FieldDef>, NoMemory>
    ensures { IfOk result (λ fields. fields ≡ spec.fields_of types.now units.now known.now components.now) }
{
    let mut fields = Items::new(alloc);
    for d in components {
        if let Some(field) = component_of(alloc, types, units, known, *d)? {
            fields.push(field)?;
        }
    }
    Ok(fields)
}

/// A record of these components.
fn record_of(types: &Types, n: u32, name: Name, d: DeclNo, fields: Items<FieldDef>) -> Made
    requires counted { AreCounted types.now.list }
    requires there { All (λ (f : Field). f.of.0 < length types.now.list) fields }
    ensures { result ≡ spec.record_of types.now n name d fields }
{
    let leaves = leaves_of_fields(types, fields.as_slice());
    own(n, name, d, TypeForm::Fields(fields), leaves)
}

/// What a declaration makes where so many types are there.
#[tactic(auto, using(crate::proofs::Tables::fields_there))]
pub fn made_by(
    alloc: Global,
    types: &Types,
    units: &Units,
    known: &Known,
    n: u32,
    d: DeclNo,
) -> Result<Made, NoMemory>
    requires table { IsTable types.now }
    requires room { n < 2 ^ 32 - 1 }
    ensures { IfOk result (λ m. m ≡ spec.made_by types.now units.now known.now n (decl_of units.now d)) }
{
    match decl_form(units, d).form {
        DeclForm::EnumerationType { name, literals } => {
            let names = literal_names(alloc, units, literals)?;
            Ok(own(n, copied(alloc, name)?, d, TypeForm::Enumeration(names), 1))
        }
        DeclForm::RangeType { name, low, high } => {
            let formed = range_type(alloc, units, known, low, high)?;
            Ok(numeric(n, copied(alloc, name)?, d, formed))
        }
        DeclForm::ModularType { name, modulus } => {
            let formed = modular_type(alloc, units, known, modulus)?;
            Ok(numeric(n, copied(alloc, name)?, d, formed))
        }
        DeclForm::ArrayType {
            name,
            index,
            element,
        } => {
            let of = type_of_mark(types, units, known, element);
            let index = index_of(alloc, types, units, known, name, d, index)?;
            Ok(array_over(n, copied(alloc, name)?, d, of, index))
        }
        DeclForm::NullRecordType { name } => Ok(record_of(
            types,
            n,
            copied(alloc, name)?,
            d,
            Items::new(alloc),
        )),
        DeclForm::RecordType { name, components } => {
            let fields = fields_of(alloc, types, units, known, components)?;
            Ok(record_of(types, n, copied(alloc, name)?, d, fields))
        }
        DeclForm::Subtype { name, subtype } => indicated(
            alloc, types, units, known, name, d, subtype,
        ),
        DeclForm::Object { name, subtype, .. } => indicated(
            alloc, types, units, known, name, d, subtype,
        ),
        DeclForm::Component { name, subtype, .. } => indicated(
            alloc, types, units, known, name, d, subtype,
        ),
        DeclForm::Protected { name, .. } => Ok(own(
            n,
            copied(alloc, name)?,
            d,
            TypeForm::Protected(d),
            0,
        )),
        DeclForm::Task { name, .. } => Ok(own(n, copied(alloc, name)?, d, TypeForm::Task(d), 0)),
        _ => Ok(Made::Same(TypeNo(1))),
    }
}
