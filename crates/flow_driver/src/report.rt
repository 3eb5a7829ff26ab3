ghost use Rattle.std.specs.Prelude.{◌≡◌, ◌++◌, ◌∷◌, [], ◌+◌, ◌<◌, ◌^◌, Some, length, slice_get, IfOk, OnOk, IfSome, IfNone};
ghost use Rattle.std.specs.Option.{option_copied};
ghost use Rattle.core_form.specs.Fine.{IsWellFormed};
ghost use Rattle.flow_driver.specs.Report.{IsReading, HasReport, AreFlowMessages, AreBodyMessages, AreMessagesFrom, checked_contract, refusal};
ghost use Rattle.first_conditions.specs.Conditions.{MeetsConditions};
ghost use Rattle.first_path.specs.Nested.{AreNested};
ghost use Rattle.flow_driver.specs.Found.{Appends, IsLoweredFrom};

use crate::global_check::append_global_messages;
use core_form::{Body, Contract, Program};
use first_conditions::conditions;
use first_lower::lower;
use first_path::{Source, reading_of, sources_are_one};
use flow_relations::row_of_body;
use spark_base::{BodyNo, Bytes, FileNo, Items, NoMemory, Pos};
use spark_messages::message_texts::outside_text;
use spark_messages::{Code, Kind, Message, ordered};
use std::alloc::Global;

/// What the analysis of a source says: its refusals, or else the messages of the flow.
#[derive(Debug, Drop)]
pub struct Report {
    /// In order, each once.
    pub messages: Items<Message>,
    /// Whether the messages are refusals.
    pub refused: bool,
}

/// The program of a source that was read, and none where it does not meet the conditions.
fn lowered(alloc: Global, source: &Source) -> Result<Option<Program>, NoMemory>
    requires { AreNested source.now.body.procedure.lines }
    ensures some { IfOk result (λ r. IfSome r (IsLoweredFrom source.now)) }
    ensures none { IfOk result (λ r. IfNone r (MeetsConditions source.now → ⊥)) }
{
    match conditions(alloc, source)? {
        Some(table) => {
            let program = lower(alloc, source, &table)?;
            Ok(Some(program))
        }
        None => Ok(None),
    }
}

/// The program of a source, and none where it is outside the first path.
fn read_program(alloc: Global, bytes: Bytes) -> Result<Option<Program>, NoMemory>
    ensures reading { IfOk result (λ r. IsReading bytes r) }
    ensures fine { IfOk result (λ r. IfSome r IsWellFormed) }
{
    sources_are_one();
    match reading_of(alloc, FileNo(0), bytes)? {
        Some(source) => {
            let program = lowered(alloc, &source)?;
            Ok(program)
        }
        None => Ok(None),
    }
}

/// The contract by which a body is checked.
fn checked_contract(body: &Body) -> Option<&Contract>
    ensures { option_copied result ≡ checked_contract body.now }
{
    match &body.inner {
        Some(contract) => Some(contract),
        None => body.outer.as_ref(),
    }
}

/// Adds the messages on a body.
fn append_body_messages(
    alloc: Global,
    list: &mut Items<Message>,
    program: &Program,
    number: BodyNo,
    body: &Body,
) -> Result<(), NoMemory>
    requires fine { IsWellFormed program.now }
    requires body { slice_get program.now.bodies number.0 ≡ Some body.now }
    ensures { OnOk result (Appends (AreBodyMessages program.now number.0 body.now (checked_contract body.now)) list.old list.new) }
{
    match checked_contract(body) {
        Some(contract) => {
            let row = row_of_body(alloc, program, number)?;
            append_global_messages(alloc, list, program, &row, body, contract)?;
            Ok(())
        }
        None => Ok(()),
    }
}

/// The messages on all bodies, one body after another.
fn messages_found(alloc: Global, program: &Program) -> Result<Items<Message>, NoMemory>
    requires { IsWellFormed program.now }
    ensures { IfOk result (AreMessagesFrom program.now 0 program.now.bodies) }
{
    let count = program.bodies.len();
    if count > u32::MAX as usize {
        return Err(NoMemory);
    }
    let mut list = Items::new(alloc);
    for b in 0..count {
        append_body_messages(
            alloc,
            &mut list,
            program,
            BodyNo(b as u32),
            program.bodies.at(b),
        )?;
    }
    Ok(list)
}

/// The messages of the flow of a program, in order, each once.
fn flow_messages(alloc: Global, program: &Program) -> Result<Items<Message>, NoMemory>
    requires { IsWellFormed program.now }
    ensures { IfOk result (AreFlowMessages program.now) }
{
    let found = messages_found(alloc, program)?;
    let list = ordered(found.into_vec())?;
    Ok(Items::from_vec(list))
}

/// The refusal of a source that is outside the first path.
fn refusal(alloc: Global) -> Result<Message, NoMemory>
    ensures { IfOk result (λ m. m ≡ refusal) }
{
    Ok(Message {
        file: FileNo(0),
        place: Pos { line: 1, col: 1 },
        code: Code::U01,
        text: outside_text(alloc, b"source")?,
        kind: Kind::Refused,
    })
}

/// The report of a source.
pub fn report_of(alloc: Global, source: Bytes) -> Result<Report, NoMemory>
    ensures { IfOk result (HasReport source) }
{
    match read_program(alloc, source)? {
        Some(program) => {
            let messages = flow_messages(alloc, &program)?;
            Ok(Report {
                messages,
                refused: false,
            })
        }
        None => {
            let mut messages = Items::new(alloc);
            messages.push(refusal(alloc)?)?;
            Ok(Report {
                messages,
                refused: true,
            })
        }
    }
}
