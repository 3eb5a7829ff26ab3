ghost use Rattle.std.specs.Prelude.{◌≡◌, ℕ, ◌<◌, ◌↔◌, OnOk, IsSomeAnd, IsTrue, Some, length, slice_get};
ghost use Rattle.core_form.specs.Fine.{IsWellFormed, home_of};
ghost use Rattle.flow_bits.specs.Sets.{Has};
ghost use Rattle.summary_rows.specs.Layout.{AreRows};
ghost use Rattle.used_modes.specs.Added.{Adds};
ghost use Rattle.used_modes.specs.UsedModes.{row_of};
ghost use Rattle.initializes_check.specs.InitializesCheck.{IsForeignWrite, IsHomeIn, IsOfStart, IsUnsetThen, reads_outside};

use crate::outside::read_outside;
use crate::unlisted::is_home_in;
use core_form::{Body, Program};
use flow_bits::Row;
use spark_base::{BodyNo, Items, LeafNo, NoMemory};
use spark_messages::message_texts::{foreign_write_text, unassigned_at_start_text};
use spark_messages::{Code, Message};
use std::alloc::Global;
use summary_rows::Rows;
use used_modes::{error_at, is_library, note};

// Whether a leaf belongs to the package of a body.
fn is_own(program: &Program, body: &Body, leaf: LeafNo) -> bool
    ensures { IsTrue result ↔ IsSomeAnd body.now.«package» (λ k. IsSomeAnd (home_of program.now leaf.0) (IsHomeIn k.0)) }
{
    match (body.package, program.leaves.get(leaf.0 as usize)) {
        (Some(package), Some(leaf)) => match program.vars.get(leaf.var.0 as usize) {
            Some(var) => is_home_in(package, var.home),
            None => false,
        },
        _ => false,
    }
}

// Adds I03 on a leaf.
fn append_foreign_write(
    alloc: Global,
    list: &mut Items<Message>,
    program: &Program,
    rows: &Rows,
    number: BodyNo,
    body: &Body,
    number_of_leaf: LeafNo,
) -> Result<(), NoMemory>
    requires rows { AreRows rows.now }
    requires in_range { number.0 < length rows.now.layout.outer }
    ensures { OnOk result (Adds list.old list.new (IsForeignWrite program.now (row_of rows.now number.0) body.now number_of_leaf.0)) }
{
    if !rows.writes(number, number_of_leaf)
        || !is_library(program, number_of_leaf)
        || is_own(program, body, number_of_leaf)
    {
        return Ok(());
    }
    let Some(package) = body.package else {
        return Ok(());
    };
    match (
        program.packages.get(package.0 as usize),
        program.leaves.get(number_of_leaf.0 as usize),
    ) {
        (Some(package), Some(leaf)) => {
            let text = foreign_write_text(alloc, package.name.as_slice(), leaf.name.as_slice())?;
            note(list, error_at(body.place, Code::I03, text))
        }
        _ => Ok(()),
    }
}

// Adds I03.
pub fn append_foreign_writes(
    alloc: Global,
    list: &mut Items<Message>,
    program: &Program,
    rows: &Rows,
    number: BodyNo,
    body: &Body,
) -> Result<(), NoMemory>
    requires fine { IsWellFormed program.now }
    requires rows { AreRows rows.now }
    requires in_range { number.0 < length rows.now.layout.outer }
    ensures { OnOk result (Adds list.old list.new (λ m. (leaf : ℕ) × IsForeignWrite program.now (row_of rows.now number.0) body.now leaf m)) }
{
    let count = program.leaves.len() as u32;
    for leaf in 0..count {
        append_foreign_write(alloc, list, program, rows, number, body, LeafNo(leaf))?;
    }
    Ok(())
}

// Adds I04 on a leaf, for what is read and what may be unassigned.
fn append_unset_leaf(
    alloc: Global,
    list: &mut Items<Message>,
    program: &Program,
    reads: &Row,
    unset: &Row,
    body: &Body,
    name: &[u8],
    leaf: u32,
) -> Result<(), NoMemory>
    requires reads { length reads.now ≡ length program.now.leaves }
    requires unset { length unset.now ≡ length program.now.leaves }
    requires leaf { leaf < length program.now.leaves }
    ensures { OnOk result (Adds list.old list.new (IsUnsetThen program.now (Has reads.now) (Has unset.now) body.now name.now leaf)) }
{
    if !reads.has(leaf) || !unset.has(leaf) {
        return Ok(());
    }
    let is_leaf = program.leaves.at(leaf as usize);
    let text = unassigned_at_start_text(alloc, is_leaf.name.as_slice(), name)?;
    note(list, error_at(body.place, Code::I04, text))
}

fn append_unset_leaves(
    alloc: Global,
    list: &mut Items<Message>,
    program: &Program,
    reads: &Row,
    unset: &Row,
    body: &Body,
    name: &[u8],
) -> Result<(), NoMemory>
    requires fine { IsWellFormed program.now }
    requires reads { length reads.now ≡ length program.now.leaves }
    requires unset { length unset.now ≡ length program.now.leaves }
    ensures { OnOk result (Adds list.old list.new (λ m. (leaf : ℕ) × IsUnsetThen program.now (Has reads.now) (Has unset.now) body.now name.now leaf m)) }
{
    let count = program.leaves.len() as u32;
    for leaf in 0..count {
        append_unset_leaf(alloc, list, program, reads, unset, body, name, leaf)?;
    }
    Ok(())
}

// Adds I04 on a body of this name that begins where these leaves may be unassigned.
pub fn append_start(
    alloc: Global,
    list: &mut Items<Message>,
    program: &Program,
    rows: &Rows,
    unset: &Row,
    number: BodyNo,
    body: &Body,
    name: &[u8],
) -> Result<(), NoMemory>
    requires fine { IsWellFormed program.now }
    requires rows { AreRows rows.now }
    requires in_range { number.0 < length rows.now.layout.outer }
    requires body { slice_get program.now.bodies number.0 ≡ Some body.now }
    requires unset { length unset.now ≡ length program.now.leaves }
    ensures { OnOk result (Adds list.old list.new
        (IsOfStart program.now (reads_outside program.now rows.now) (Has unset.now) number body.now name.now)) }
{
    let reads = read_outside(alloc, program, rows, number, body)?;
    append_unset_leaves(alloc, list, program, &reads, unset, body, name)
}
