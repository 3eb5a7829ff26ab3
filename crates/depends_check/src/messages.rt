ghost use Rattle.std.specs.Prelude.{◌<◌, OnOk, length};
ghost use Rattle.core_form.specs.Fine.{IsFineBody, IsWellFormed};
ghost use Rattle.summary_rows.specs.Layout.{AreRows};
ghost use Rattle.used_modes.specs.Added.{Adds};
ghost use Rattle.depends_check.specs.DependsCheck.{IsDependsMessage, IsWrongDepends};

use crate::checked::checked_depends;
use crate::dependencies::append_dependencies;
use crate::faults::append_faults;
use core_form::{Body, Contract, Program};
use spark_base::{BodyNo, Items, NoMemory};
use spark_messages::Message;
use std::alloc::Global;
use summary_rows::Rows;

fn append_wrong_depends(
    alloc: Global,
    list: &mut Items<Message>,
    program: &Program,
    rows: &Rows,
    number: BodyNo,
    body: &Body,
    contract: &Contract,
) -> Result<(), NoMemory>
    requires fine { IsWellFormed program.now }
    requires rows { AreRows rows.now }
    requires in_range { number.0 < length rows.now.layout.outer }
    requires body { IsFineBody program.now body.now }
    ensures { OnOk result (Adds list.old list.new (IsWrongDepends program.now rows.now number.0 body.now contract.now)) }
{
    append_faults(alloc, list, program, number, body, contract)?;
    append_dependencies(alloc, list, program, rows, number, body, contract)
}

/// Adds the messages on the Depends of a body, which has this number, by its row: of an output that depends on what the Depends
/// does not say (D01), or does not depend on what it says (D02, a warning), and of an item on a wrong side, or not on its own (D03).
pub fn append_depends_messages(
    alloc: Global,
    list: &mut Items<Message>,
    program: &Program,
    rows: &Rows,
    number: BodyNo,
    body: &Body,
) -> Result<(), NoMemory>
    requires fine { IsWellFormed program.now }
    requires rows { AreRows rows.now }
    requires in_range { number.0 < length rows.now.layout.outer }
    requires body { IsFineBody program.now body.now }
    ensures { OnOk result (Adds list.old list.new (IsDependsMessage program.now rows.now number.0 body.now)) }
{
    match checked_depends(body) {
        Some(contract) => {
            append_wrong_depends(alloc, list, program, rows, number, body, contract)
        }
        None => Ok(()),
    }
}
