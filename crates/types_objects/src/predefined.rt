//! The predefined names, and the types that stand in the table before all others.
ghost use Rattle.std.specs.Prelude.{◌≡◌, IfOk};
ghost use Rattle.types_objects.specs.Predefined as spec;
ghost use Rattle.types_objects.specs.Table.{IsTable};

use crate::types::{TypeDef, TypeForm, Types};
use ada_tree::is_written;
use spark_base::{Items, Name, NoMemory, TypeNo};
use static_meanings::Pairs;
use std::alloc::Global;

/// What a predefined name is.
#[derive(Clone, Copy, Debug, PartialEq, Eq)]
pub enum Predefined {
    Type(TypeNo),
    /// A literal of Boolean, by its position, or a constant of Time_Span, in nanoseconds.
    Constant { of: TypeNo, value: i128 },
    /// A function from Integer to Time_Span: so many nanoseconds to a unit.
    Scale(i128),
    /// The function that tells the time.
    Clock,
    /// The state that it reads.
    ClockTime,
}

fn type_of(number: u32) -> Option<Predefined>
    ensures { result ≡ spec.type_of number }
{
    Some(Predefined::Type(TypeNo(number)))
}

fn constant(number: u32, value: i128) -> Option<Predefined>
    ensures { result ≡ spec.constant number value }
{
    Some(Predefined::Constant {
        of: TypeNo(number),
        value,
    })
}

fn scale(nanoseconds: i128) -> Option<Predefined>
    ensures { result ≡ spec.scale nanoseconds }
{
    Some(Predefined::Scale(nanoseconds))
}

/// What a name is that is visible everywhere, in whatever case.
#[tactic(auto, unfolding(crate::specs::Predefined::standard_name))]
pub fn standard_name(text: &[u8]) -> Option<Predefined>
    ensures { result ≡ spec.standard_name text.now }
{
    if is_written(text, b"boolean") {
        type_of(0)
    } else if is_written(text, b"integer") {
        type_of(1)
    } else if is_written(text, b"natural") {
        type_of(2)
    } else if is_written(text, b"positive") {
        type_of(3)
    } else if is_written(text, b"false") {
        constant(0, 0)
    } else if is_written(text, b"true") {
        constant(0, 1)
    } else {
        None
    }
}

/// What a name of Ada.Real_Time is, in whatever case.
#[tactic(auto, unfolding(crate::specs::Predefined::real_time_name))]
pub fn real_time_name(text: &[u8]) -> Option<Predefined>
    ensures { result ≡ spec.real_time_name text.now }
{
    if is_written(text, b"time") {
        type_of(4)
    } else if is_written(text, b"time_span") {
        type_of(5)
    } else if is_written(text, b"time_span_zero") {
        constant(5, 0)
    } else if is_written(text, b"nanoseconds") {
        scale(1)
    } else if is_written(text, b"microseconds") {
        scale(1_000)
    } else if is_written(text, b"milliseconds") {
        scale(1_000_000)
    } else if is_written(text, b"seconds") {
        scale(1_000_000_000)
    } else if is_written(text, b"minutes") {
        scale(60_000_000_000)
    } else if is_written(text, b"clock") {
        Some(Predefined::Clock)
    } else if is_written(text, b"clock_time") {
        Some(Predefined::ClockTime)
    } else {
        None
    }
}

/// What a predefined name is. None of Ada.Real_Time is one that is visible everywhere.
pub fn predefined_name(text: &[u8]) -> Option<Predefined>
    ensures { result ≡ spec.predefined_name text.now }
{
    match standard_name(text) {
        Some(what) => Some(what),
        None => real_time_name(text),
    }
}

fn named(alloc: Global, text: &[u8]) -> Result<Name, NoMemory>
    ensures { IfOk result (λ name. name ≡ spec.named text.now) }
{
    Name::new(alloc, text)
}

/// A scalar type of this name.
fn scalar(alloc: Global, name: &[u8], form: TypeForm) -> Result<TypeDef, NoMemory>
    ensures { IfOk result (λ x. x ≡ spec.scalar name.now form) }
{
    Ok(TypeDef {
        name: named(alloc, name)?,
        decl: None,
        form,
        leaves: 1,
    })
}

/// Integer, or a subtype of it.
fn whole(alloc: Global, name: &[u8], low: i128) -> Result<TypeDef, NoMemory>
    ensures { IfOk result (λ x. x ≡ spec.whole name.now low) }
{
    scalar(
        alloc,
        name,
        TypeForm::Signed {
            low,
            high: 2147483647,
        },
    )
}

fn boolean(alloc: Global) -> Result<TypeDef, NoMemory>
    ensures { IfOk result (λ x. x ≡ spec.boolean) }
{
    let literals = Vec::from_array(alloc, [named(alloc, b"False")?, named(alloc, b"True")?])?;
    scalar(
        alloc,
        b"Boolean",
        TypeForm::Enumeration(Items::from_vec(literals)),
    )
}

fn defs(alloc: Global) -> Result<Vec<TypeDef>, NoMemory>
    ensures { IfOk result (λ list. list.items ≡ spec.defs) }
{
    Ok(Vec::from_array(
        alloc,
        [
            boolean(alloc)?,
            whole(alloc, b"Integer", -2147483648)?,
            whole(alloc, b"Natural", 0)?,
            whole(alloc, b"Positive", 1)?,
            scalar(alloc, b"Time", TypeForm::Moment)?,
            scalar(alloc, b"Time_Span", TypeForm::Duration)?,
        ],
    )?)
}

fn firsts(alloc: Global) -> Result<Vec<TypeNo>, NoMemory>
    ensures { IfOk result (λ list. list.items ≡ spec.firsts) }
{
    let numbers = [
        TypeNo(0),
        TypeNo(1),
        TypeNo(1),
        TypeNo(1),
        TypeNo(4),
        TypeNo(5),
    ];
    Ok(Vec::from_array(alloc, numbers)?)
}

impl Types {
    /// The predefined types alone: Boolean, Integer, Natural, Positive, Time and Time_Span, in this order.
    #[tactic(auto, using(crate::proofs::Opening::opening_table))]
    pub fn predefined(alloc: Global) -> Result<Self, NoMemory>
        ensures types { IfOk result (λ t. t ≡ spec.opening) }
        ensures table { IfOk result (λ t. IsTable t) }
    {
        Ok(Types {
            list: Items::from_vec(defs(alloc)?),
            first: Items::from_vec(firsts(alloc)?),
            numbers: Pairs::new(alloc),
        })
    }
}
