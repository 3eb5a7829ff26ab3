ghost use Rattle.std.specs.Prelude.{◌≡◌, ◌<◌, All, IfOk, Some, length, slice_get};
ghost use Rattle.core_form.specs.Fine.{IsFineBody, IsFineContract, IsWellFormed};
ghost use Rattle.flow_bits.specs.Sets.{Tells, either};
ghost use Rattle.summary_rows.specs.Layout.{AreRows};
ghost use Rattle.callee_view.specs.Seen.{ContractReads, IsFormalLeaf, IsGlobalLeaf, IsOwnLeaf, is_moved_in, is_read};
ghost use Rattle.used_modes.specs.UsedModes.{row_of};
ghost use Rattle.initializes_check.specs.InitializesCheck.{reads_outside};

use crate::counts::no_leaves;
use core_form::{Body, Contract, Formal, GlobalItem, Item, Mode, ParamMode, Program};
use flow_bits::Row;
use spark_base::{BodyNo, LeafNo, NoMemory};
use state_map::expand;
use std::alloc::Global;
use summary_rows::Rows;

fn is_read(mode: Mode) -> bool
    ensures { result ≡ is_read mode }
{
    match mode {
        Mode::Input | Mode::InOut => true,
        Mode::Output | Mode::ProofIn => false,
    }
}

fn is_moved_in(mode: ParamMode) -> bool
    ensures { result ≡ is_moved_in mode }
{
    match mode {
        ParamMode::In | ParamMode::InOut => true,
        ParamMode::Out => false,
    }
}

// Adds the leaves of the inputs of a Global.
fn add_inputs(program: &Program, globals: &[GlobalItem], into: &mut Row)
    requires fine { IsWellFormed program.now }
    requires globals { All (λ g. g.item.0 < length program.now.items) globals.now }
    requires size { length into.old ≡ length program.now.leaves }
    ensures size { length into.new ≡ length into.old }
    ensures set { Tells into.new (either into.old (IsGlobalLeaf program.now is_read globals.now)) }
{
    for global in globals {
        if is_read(global.mode) {
            expand(program, *program.items.at(global.item.0 as usize), into);
        }
    }
}

// Adds the leaves of the formals that a body takes in.
fn add_formals(program: &Program, formals: &[Formal], into: &mut Row)
    requires fine { IsWellFormed program.now }
    requires formals { All (λ f. f.var.0 < length program.now.vars) formals.now }
    requires size { length into.old ≡ length program.now.leaves }
    ensures size { length into.new ≡ length into.old }
    ensures set { Tells into.new (either into.old (IsFormalLeaf program.now is_moved_in formals.now)) }
{
    for formal in formals {
        if is_moved_in(formal.mode) {
            expand(program, Item::Whole(formal.var), into);
        }
    }
}

// Adds the leaves of the object to which an operation belongs.
fn add_own(program: &Program, body: &Body, into: &mut Row)
    requires fine { IsWellFormed program.now }
    requires body { IsFineBody program.now body.now }
    requires size { length into.old ≡ length program.now.leaves }
    ensures size { length into.new ≡ length into.old }
    ensures set { Tells into.new (either into.old (IsOwnLeaf program.now body.now)) }
{
    if let Some(object) = body.object {
        expand(program, Item::Guard(object), into);
    }
}

// Adds what a body reads by its row.
fn add_reads_of_row(rows: &Rows, body: BodyNo, into: &mut Row)
    requires rows { AreRows rows.now }
    requires in_range { body.0 < length rows.now.layout.outer }
    ensures size { length into.new ≡ length into.old }
    ensures set { Tells into.new (either into.old (λ v. (v < length into.old) × (row_of rows.now body.0).reads v)) }
{
    for leaf in 0..into.size() {
        if rows.reads(body, LeafNo(leaf)) {
            into.add(leaf);
        }
    }
}

// Adds the leaves that a body with this contract is said to read.
fn add_reads_of_contract(
    program: &Program,
    number: BodyNo,
    body: &Body,
    contract: &Contract,
    into: &mut Row,
)
    requires fine { IsWellFormed program.now }
    requires body { IsFineBody program.now body.now }
    requires contract { IsFineContract program.now contract.now }
    requires size { length into.old ≡ length program.now.leaves }
    ensures size { length into.new ≡ length into.old }
    ensures set { Tells into.new (either into.old (ContractReads program.now number.0 body.now contract.now)) }
{
    add_inputs(program, contract.globals.as_slice(), into);
    add_formals(program, body.formals.as_slice(), into);
    add_own(program, body, into);
}

// Adds the leaves that the environment sees a body read.
fn add_reads_outside(program: &Program, rows: &Rows, number: BodyNo, body: &Body, into: &mut Row)
    requires fine { IsWellFormed program.now }
    requires rows { AreRows rows.now }
    requires in_range { number.0 < length rows.now.layout.outer }
    requires body { slice_get program.now.bodies number.0 ≡ Some body.now }
    requires size { length into.old ≡ length program.now.leaves }
    ensures size { length into.new ≡ length into.old }
    ensures set { Tells into.new (either into.old (λ v. (v < length program.now.leaves) × reads_outside program.now rows.now number.0 v)) }
{
    match &body.outer {
        Some(contract) => add_reads_of_contract(program, number, body, contract, into),
        None => add_reads_of_row(rows, number, into),
    }
}

// What a body reads as the environment sees it.
pub fn read_outside(
    alloc: Global,
    program: &Program,
    rows: &Rows,
    number: BodyNo,
    body: &Body,
) -> Result<Row, NoMemory>
    requires fine { IsWellFormed program.now }
    requires rows { AreRows rows.now }
    requires in_range { number.0 < length rows.now.layout.outer }
    requires body { slice_get program.now.bodies number.0 ≡ Some body.now }
    ensures size { IfOk result (λ row. length row ≡ length program.now.leaves) }
    ensures set { IfOk result (λ row. Tells row (λ v. (v < length program.now.leaves) × reads_outside program.now rows.now number.0 v)) }
{
    let mut reads = no_leaves(alloc, program)?;
    add_reads_outside(program, rows, number, body, &mut reads);
    Ok(reads)
}
