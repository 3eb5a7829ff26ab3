//! What is told of units that are refused.
ghost use Rattle.std.specs.Prelude.{◌≡◌, slice_get, IfOk};
ghost use Rattle.std.specs.Option.{option_copied, option_map};
ghost use Rattle.ada_forms.specs.Forms.{expr_of};
ghost use Rattle.spark_messages.specs.MessageTexts.{refusal_text};
ghost use Rattle.spark_messages.specs.declared.messages.Code.TheVariants.{N03};
ghost use Rattle.unit_order.specs.Orders as spec;
ghost use Rattle.unit_order.specs.Withs.{withs_of};

use crate::spelling::{Spelling, spell};
use crate::withs::with_names;
use ada_tree::{Unit, Units};
use spark_base::{Bytes, DeclNo, ExprNo, FileNo, NoMemory, Pos};
use spark_messages::message_texts::{
    declared_twice_text, differing_text, not_visible_text, refusal_text, second_main_text,
};
use spark_messages::{Code, Kind, Message};
use std::alloc::Global;
use unit_names::UnitFault;

fn file_of(unit: Option<&Unit>) -> FileNo
    ensures { result ≡ spec.file_of (option_copied unit.entry) }
{
    match unit {
        Some(unit) => unit.span.file,
        None => FileNo(0),
    }
}

fn place_of(unit: Option<&Unit>) -> Pos
    ensures { result ≡ spec.place_of (option_copied unit.entry) }
{
    match unit {
        Some(unit) => unit.span.from,
        None => Pos { line: 1, col: 1 },
    }
}

/// The name of a unit, as it was written.
fn name_of(unit: Option<&Unit>) -> &[u8]
    ensures { result.now ≡ spec.name_of (option_copied unit.entry) }
{
    match unit {
        Some(unit) => spelled(unit),
        None => &[],
    }
}

fn spelled(unit: &Unit) -> &[u8]
    ensures { result.now ≡ spec.spelled unit.now.name }
{
    match &unit.name {
        Some(name) => name.written.as_slice(),
        None => &[],
    }
}

fn decls_of(unit: Option<&Unit>) -> &[DeclNo]
    ensures { result.now ≡ spec.decls_of (option_copied unit.entry) }
{
    match unit {
        Some(unit) => unit.decls.as_slice(),
        None => &[],
    }
}

/// The refusal of a unit, at its name.
fn refused_at(unit: Option<&Unit>, code: Code, text: Bytes) -> Message
    ensures { result ≡ spec.refused_at (option_copied unit.entry) code text }
{
    Message {
        file: file_of(unit),
        place: place_of(unit),
        code,
        text,
        kind: Kind::Refused,
    }
}

/// The spelling of a name, or nothing.
fn spelling_of(alloc: Global, units: &Units, name: Option<ExprNo>) -> Result<Spelling, NoMemory>
    ensures begins { IfOk result (λ s. s.begins ≡ spec.place_of_name (option_map (expr_of units.now.exprs) name)) }
    ensures text { IfOk result (λ s. s.text ≡ spec.text_of_name (option_map (expr_of units.now.exprs) name)) }
{
    match name {
        Some(name) => spell(alloc, units, name),
        None => Ok(Spelling {
            begins: Pos { line: 1, col: 1 },
            text: Bytes::new(alloc),
        }),
    }
}

/// The refusal of a name in the with clauses of a unit, at its first identifier.
fn refused_with(
    alloc: Global,
    units: &Units,
    unit: Option<&Unit>,
    with: usize,
) -> Result<Message, NoMemory>
    ensures { IfOk result (λ m. m ≡ spec.refused_with (spec.file_of (option_copied unit.entry))
        (slice_get (withs_of units.now (spec.decls_of (option_copied unit.entry))) with)) }
{
    let names = with_names(alloc, units, decls_of(unit))?;
    let spelling = spelling_of(alloc, units, names.get(with).copied())?;
    Ok(Message {
        file: file_of(unit),
        place: spelling.begins,
        code: Code::N01,
        text: not_visible_text(alloc, spelling.text.as_slice())?,
        kind: Kind::Refused,
    })
}

/// The message of a fault of the names of units.
pub(crate) fn name_message(
    alloc: Global,
    units: &Units,
    fault: UnitFault,
) -> Result<Message, NoMemory>
    ensures { IfOk result (λ m. m ≡ spec.name_message units.now fault) }
{
    match fault {
        UnitFault::Doubled { unit } => {
            let unit = units.units.get(unit);
            let text = declared_twice_text(alloc, name_of(unit))?;
            Ok(refused_at(unit, Code::N02, text))
        }
        UnitFault::SecondMain { unit } => {
            let unit = units.units.get(unit);
            let text = second_main_text(alloc, name_of(unit))?;
            Ok(refused_at(unit, Code::N11, text))
        }
        UnitFault::Unseen { unit, with } => {
            refused_with(alloc, units, units.units.get(unit), with)
        }
        UnitFault::WithoutSpec { unit } => {
            let unit = units.units.get(unit);
            let text = differing_text(alloc, name_of(unit))?;
            Ok(refused_at(unit, Code::N05, text))
        }
    }
}

fn unit_by(units: &Units, place: Option<usize>) -> Option<&Unit>
    ensures { option_copied result ≡ spec.unit_by units.now place }
{
    match place {
        Some(place) => units.units.get(place),
        None => None,
    }
}

/// The message of a circle of specs that with each other, at the spec of this place.
pub(crate) fn circle_message(
    alloc: Global,
    units: &Units,
    place: Option<usize>,
) -> Result<Message, NoMemory>
    ensures { IfOk result (λ m. m ≡ spec.refused_at (spec.unit_by units.now place) N03 (refusal_text N03)) }
{
    let text = Bytes::from_slice(alloc, refusal_text(Code::N03).as_bytes())?;
    Ok(refused_at(unit_by(units, place), Code::N03, text))
}
