ghost use Rattle.std.specs.Prelude.{◌≡◌, ◌<◌, OnOk, Some, length, slice_get, All, IsSomeAnd};
ghost use Rattle.core_form.specs.Fine.{IsFineBody, IsFineContract, IsWellFormed};
ghost use Rattle.summary_rows.specs.Layout.{AreRows};
ghost use Rattle.used_modes.specs.Added.{Adds};
ghost use Rattle.used_modes.specs.UsedModes.{row_of};
ghost use Rattle.global_check.specs.GlobalCheck as spec;
ghost use Rattle.global_check.specs.GlobalCheck.{IsGlobalMessage, IsWrongGlobal};

use crate::functions::append_function_writing;
use crate::listed::append_listed;
use crate::listing::checked_contract;
use crate::unlisted::append_unlisted;
use core_form::{Body, Contract, Program};
use spark_base::{BodyNo, Items, NoMemory};
use spark_messages::Message;
use std::alloc::Global;
use summary_rows::Rows;

// Adds G01 to G04.
fn append_wrong_global(
    alloc: Global,
    list: &mut Items<Message>,
    program: &Program,
    rows: &Rows,
    number: BodyNo,
    body: &Body,
    contract: &Contract,
) -> Result<(), NoMemory>
    requires fine { IsWellFormed program.now }
    requires rows { AreRows rows.now }
    requires in_range { number.0 < length rows.now.layout.outer }
    requires contract { IsFineContract program.now contract.now }
    ensures { OnOk result (Adds list.old list.new (IsWrongGlobal program.now (row_of rows.now number.0) body.now contract.now)) }
{
    append_unlisted(alloc, list, program, rows, number, body, contract)?;
    append_listed(
        alloc,
        list,
        program,
        rows,
        number,
        body,
        contract.globals.as_slice(),
    )
}

/// Adds the messages on the Global of a body, which has this number, by its row: of an item that is used and not listed (G01),
/// that is listed in another mode than it is used (G02 and G03) or for more (G04, a warning), and that a function writes (G05).
pub fn append_global_messages(
    alloc: Global,
    list: &mut Items<Message>,
    program: &Program,
    rows: &Rows,
    number: BodyNo,
    body: &Body,
) -> Result<(), NoMemory>
    requires fine { IsWellFormed program.now }
    requires rows { AreRows rows.now }
    requires in_range { number.0 < length rows.now.layout.outer }
    requires body { IsFineBody program.now body.now }
    ensures { OnOk result (Adds list.old list.new (IsGlobalMessage program.now (row_of rows.now number.0) number.0 body.now)) }
{
    if let Some(contract) = checked_contract(body) {
        append_wrong_global(alloc, list, program, rows, number, body, contract)?;
    }
    append_function_writing(alloc, list, program, rows, number, body)
}
