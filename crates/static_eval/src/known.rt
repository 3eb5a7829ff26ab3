//! What is known of the declarations of a source.
ghost use Rattle.std.specs.Prelude.{◌≡◌};
ghost use Rattle.ada_forms.specs.Forms.{expr_of};
ghost use Rattle.ada_forms.specs.Declarations.{read};
ghost use Rattle.static_eval.specs.Known as told;

use crate::judgements::either;
use ada_forms::{DeclForm, ExprForm, decl_form, expr_form};
use ada_tree::Units;
use spark_base::{DeclNo, ExprNo, Name};
use static_meanings::{Meaning, Pairs, Range, mark, object, predefined, unknown};
use std::alloc::Global;

/// What the declarations so far have told.
#[derive(Debug, Drop)]
pub struct Known {
    /// By declaration: the values of static constants, named numbers and literals.
    pub values: Pairs<i128>,
    /// By expression: what names denote. A name without a pair is predefined.
    pub names: Pairs<DeclNo>,
    /// By declaration: the bounds of discrete types and subtypes, and of arrays those of their index. An object, a literal or a
    /// parameter may have its own; else it has those of its mark.
    pub ranges: Pairs<Range>,
}

impl Known {
    /// Where nothing is known.
    pub fn new(alloc: Global) -> Self
        ensures { result ≡ told.nothing }
    {
        Known {
            values: Pairs::new(alloc),
            names: Pairs::new(alloc),
            ranges: Pairs::new(alloc),
        }
    }
}

fn range_named(known: &Known, name: &Name, denoted: Option<DeclNo>) -> Option<Range>
    ensures { result ≡ told.range_named known.now name.now denoted }
{
    match denoted {
        None => predefined(name.written.as_slice()).range,
        Some(d) => known.ranges.find(d.0),
    }
}

/// The range of the subtype that a mark names.
pub fn range_of_mark(units: &Units, known: &Known, e: ExprNo) -> Option<Range>
    ensures { result ≡ told.range_of_mark known.now (expr_of units.now.exprs e) }
{
    match expr_form(units, e).form {
        ExprForm::Identifier(name) => range_named(known, name, known.names.find(e.0)),
        ExprForm::Selected { name, .. } => range_named(known, name, known.names.find(e.0)),
        _ => None,
    }
}

fn range_of_maybe(units: &Units, known: &Known, e: Option<ExprNo>) -> Option<Range>
    ensures { result ≡ told.range_of_maybe known.now (read (expr_of units.now.exprs) e) }
{
    match e {
        None => None,
        Some(e) => range_of_mark(units, known, e),
    }
}

/// The range of the mark of a subtype indication.
pub fn range_of_indication(units: &Units, known: &Known, e: ExprNo) -> Option<Range>
    ensures { result ≡ told.range_of_indication known.now (expr_of units.now.exprs e) }
{
    match expr_form(units, e).form {
        ExprForm::Indication { mark } => range_of_mark(units, known, mark),
        ExprForm::Constrained { mark, .. } => range_of_mark(units, known, mark),
        _ => None,
    }
}

/// What the name of a declaration means.
fn declared_meaning(units: &Units, known: &Known, d: DeclNo) -> Meaning
    ensures { result ≡ told.declared_meaning units.now known.now d }
{
    let range = known.ranges.find(d.0);
    let value = known.values.find(d.0);
    match decl_form(units, d).form {
        DeclForm::EnumerationType { .. } => mark(range),
        DeclForm::RangeType { .. } => mark(range),
        DeclForm::ModularType { .. } => mark(range),
        DeclForm::ArrayType { .. } => mark(range),
        DeclForm::NullRecordType { .. } => mark(range),
        DeclForm::PrivateType { .. } => mark(range),
        DeclForm::RecordType { .. } => mark(range),
        DeclForm::Subtype { .. } => mark(range),
        DeclForm::Object { subtype, .. } => object(
            either(range, range_of_indication(units, known, subtype)),
            value,
        ),
        DeclForm::Component { subtype, .. } => object(
            either(range, range_of_indication(units, known, subtype)),
            value,
        ),
        DeclForm::Formal { mark, .. } => object(
            either(range, range_of_mark(units, known, mark)),
            value,
        ),
        DeclForm::Subprogram { result_mark, .. } => {
            object(
                either(range, range_of_maybe(units, known, result_mark)),
                value,
            )
        }
        DeclForm::ExpressionFunction { mark, .. } => object(
            either(range, range_of_mark(units, known, mark)),
            value,
        ),
        DeclForm::SubprogramBody { result_mark, .. } => {
            object(
                either(range, range_of_maybe(units, known, result_mark)),
                value,
            )
        }
        DeclForm::ProtectedSubprogram { result_mark, .. } => {
            object(
                either(range, range_of_maybe(units, known, result_mark)),
                value,
            )
        }
        _ => object(range, value),
    }
}

/// What a name means.
pub fn meaning_at(units: &Units, known: &Known, e: ExprNo, name: &Name) -> Meaning
    ensures { result ≡ told.meaning_at units.now known.now e name.now }
{
    match known.names.find(e.0) {
        None => predefined(name.written.as_slice()),
        Some(d) => declared_meaning(units, known, d),
    }
}

/// What an index or a call means: the type of its result, where it denotes one.
pub fn result_at(units: &Units, known: &Known, e: ExprNo) -> Meaning
    ensures { result ≡ told.result_at units.now known.now e }
{
    match known.names.find(e.0) {
        None => unknown(),
        Some(d) => declared_meaning(units, known, d),
    }
}
