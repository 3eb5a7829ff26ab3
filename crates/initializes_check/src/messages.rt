ghost use Rattle.std.specs.Prelude.{◌≡◌, ℕ, ◌+◌, ◌<◌, ◌≤◌, All, IfSome, OnOk, IsSomeAnd, length, slice_get};
ghost use Rattle.core_form.specs.Fine.{IsWellFormed};
ghost use Rattle.flow_bits.specs.Sets.{Has};
ghost use Rattle.summary_rows.specs.Layout.{AreRows};
ghost use Rattle.used_modes.specs.Added.{Adds, SomeOf};
ghost use Rattle.used_modes.specs.UsedModes.{row_of};
ghost use Rattle.initializes_check.specs.InitializesCheck.{IsInitialMessageBy, IsOfElaboration, IsOfInitializes, IsOfMain, IsOfPackage, IsOfTask, loose_by, reads_outside};

use crate::counts::count_of;
use crate::initial::append_unassigned;
use crate::moments::loose_after;
use crate::starts::{append_foreign_writes, append_start};
use crate::unlisted::append_unlisted;
use core_form::{InitialItem, Package, Program, TaskUnit};
use flow_bits::Row;
use spark_base::{BodyNo, Items, NoMemory, PackageNo, Span};
use spark_messages::Message;
use std::alloc::Global;
use summary_rows::Rows;

// Adds I01 and I02 on an Initializes.
fn append_of_initializes(
    alloc: Global,
    list: &mut Items<Message>,
    program: &Program,
    unset: &Row,
    number: PackageNo,
    written: Option<Span>,
    items: &[InitialItem],
) -> Result<(), NoMemory>
    requires fine { IsWellFormed program.now }
    requires size { length unset.now ≡ length program.now.leaves }
    requires listed { All (λ i. i.item.0 < length program.now.items) items.now }
    ensures { OnOk result (Adds list.old list.new (IsOfInitializes program.now (Has unset.now) number.0 written items.now)) }
{
    append_unassigned(alloc, list, program, unset, items)?;
    append_unlisted(alloc, list, program, unset, number, written, items)
}

// Adds I01 and I02 on a package.
fn append_of_package(
    alloc: Global,
    list: &mut Items<Message>,
    program: &Program,
    moments: &[Row],
    number: PackageNo,
    package: &Package,
) -> Result<(), NoMemory>
    requires fine { IsWellFormed program.now }
    requires moments { length moments.now ≡ length program.now.order + 1 }
    requires sizes { All (λ row. length row ≡ length program.now.leaves) moments.now }
    requires listed { IfSome «package».now.initial (λ initial. All (λ i. i.item.0 < length program.now.items) initial) }
    ensures { OnOk result (Adds list.old list.new (IsOfPackage program.now (loose_by moments.now) number.0 «package».now)) }
{
    match &package.initial {
        Some(initial) => {
            let unset = loose_after(alloc, program, moments, number)?;
            let written = package.initial_place;
            append_of_initializes(
                alloc,
                list,
                program,
                &unset,
                number,
                written,
                initial.as_slice(),
            )
        }
        None => Ok(()),
    }
}

// Adds I01 and I02.
fn append_of_packages(
    alloc: Global,
    list: &mut Items<Message>,
    program: &Program,
    moments: &[Row],
) -> Result<(), NoMemory>
    requires fine { IsWellFormed program.now }
    requires moments { length moments.now ≡ length program.now.order + 1 }
    requires sizes { All (λ row. length row ≡ length program.now.leaves) moments.now }
    ensures { OnOk result (Adds list.old list.new (λ m. (k : ℕ) ×
        IsSomeAnd (slice_get program.now.packages k) (λ «package». IsOfPackage program.now (loose_by moments.now) k «package» m))) }
{
    let count = count_of(program.packages.len())?;
    for k in 0..count {
        let package = program.packages.at(k as usize);
        append_of_package(alloc, list, program, moments, PackageNo(k), package)?;
    }
    Ok(())
}

// Adds I03 and I04 on an elaboration that begins where these leaves may be unassigned.
fn append_elaboration(
    alloc: Global,
    list: &mut Items<Message>,
    program: &Program,
    rows: &Rows,
    unset: &Row,
    number: BodyNo,
) -> Result<(), NoMemory>
    requires fine { IsWellFormed program.now }
    requires rows { AreRows rows.now }
    requires bodies { length program.now.bodies ≤ length rows.now.layout.outer }
    requires unset { length unset.now ≡ length program.now.leaves }
    requires number { number.0 < length program.now.bodies }
    ensures { OnOk result (Adds list.old list.new
        (IsOfElaboration program.now (row_of rows.now) (reads_outside program.now rows.now) (Has unset.now) number)) }
{
    let body = program.bodies.at(number.0 as usize);
    append_foreign_writes(alloc, list, program, rows, number, body)?;
    let name = body.name.as_slice();
    append_start(alloc, list, program, rows, unset, number, body, name)
}

// Adds I03 and I04 on elaborations.
fn append_elaborations(
    alloc: Global,
    list: &mut Items<Message>,
    program: &Program,
    rows: &Rows,
    moments: &[Row],
) -> Result<(), NoMemory>
    requires fine { IsWellFormed program.now }
    requires rows { AreRows rows.now }
    requires bodies { length program.now.bodies ≤ length rows.now.layout.outer }
    requires moments { length moments.now ≡ length program.now.order + 1 }
    requires sizes { All (λ row. length row ≡ length program.now.leaves) moments.now }
    ensures { OnOk result (Adds list.old list.new (λ m. (n : ℕ) × IsSomeAnd (slice_get program.now.order n)
        (λ b. IsOfElaboration program.now (row_of rows.now) (reads_outside program.now rows.now) (loose_by moments.now n) b m))) }
{
    for n in 0..program.order.len() {
        let number = *program.order.at(n);
        append_elaboration(alloc, list, program, rows, &moments[n], number)?;
    }
    Ok(())
}

// Adds I04 on the main.
fn append_main(
    alloc: Global,
    list: &mut Items<Message>,
    program: &Program,
    rows: &Rows,
    unset: &Row,
) -> Result<(), NoMemory>
    requires fine { IsWellFormed program.now }
    requires rows { AreRows rows.now }
    requires bodies { length program.now.bodies ≤ length rows.now.layout.outer }
    requires unset { length unset.now ≡ length program.now.leaves }
    ensures { OnOk result (Adds list.old list.new (λ m. IsSomeAnd program.now.main (λ b.
        IsOfMain program.now (reads_outside program.now rows.now) (Has unset.now) b m))) }
{
    match program.main {
        Some(number) => {
            let body = program.bodies.at(number.0 as usize);
            let name = body.name.as_slice();
            append_start(alloc, list, program, rows, unset, number, body, name)
        }
        None => Ok(()),
    }
}

fn append_task(
    alloc: Global,
    list: &mut Items<Message>,
    program: &Program,
    rows: &Rows,
    unset: &Row,
    task: &TaskUnit,
) -> Result<(), NoMemory>
    requires fine { IsWellFormed program.now }
    requires rows { AreRows rows.now }
    requires bodies { length program.now.bodies ≤ length rows.now.layout.outer }
    requires unset { length unset.now ≡ length program.now.leaves }
    requires task { task.now.body.0 < length program.now.bodies }
    ensures { OnOk result (Adds list.old list.new (IsOfTask program.now (reads_outside program.now rows.now) (Has unset.now) task.now)) }
{
    let body = program.bodies.at(task.body.0 as usize);
    let name = task.name.as_slice();
    append_start(alloc, list, program, rows, unset, task.body, body, name)
}

// Adds I04 on tasks.
fn append_tasks(
    alloc: Global,
    list: &mut Items<Message>,
    program: &Program,
    rows: &Rows,
    unset: &Row,
    tasks: &[TaskUnit],
) -> Result<(), NoMemory>
    requires fine { IsWellFormed program.now }
    requires rows { AreRows rows.now }
    requires bodies { length program.now.bodies ≤ length rows.now.layout.outer }
    requires unset { length unset.now ≡ length program.now.leaves }
    requires tasks { All (λ t. t.body.0 < length program.now.bodies) tasks.now }
    ensures { OnOk result (Adds list.old list.new (λ m. SomeOf
        (λ t. IsOfTask program.now (reads_outside program.now rows.now) (Has unset.now) t m) tasks.now)) }
{
    for task in tasks {
        append_task(alloc, list, program, rows, unset, task)?;
    }
    Ok(())
}

/// Adds the messages on elaborations and on what begins behind them, by rows and by what may be unassigned: of an Initializes that lists what may be
/// unassigned after its package (I01), or that lacks what is surely assigned then (I02, a warning), and of a body that writes what belongs to another
/// package (I03), or reads what may be unassigned where it begins (I04). The n-th set has the leaves that may be unassigned before the n-th item
/// of the order, counted from 0, and the last those behind all. 2^32 packages, states or variables are want of memory.
pub fn append_initial_messages(
    alloc: Global,
    list: &mut Items<Message>,
    program: &Program,
    rows: &Rows,
    moments: &[Row],
) -> Result<(), NoMemory>
    requires fine { IsWellFormed program.now }
    requires rows { AreRows rows.now }
    requires bodies { length program.now.bodies ≤ length rows.now.layout.outer }
    requires moments { length moments.now ≡ length program.now.order + 1 }
    requires sizes { All (λ row. length row ≡ length program.now.leaves) moments.now }
    ensures { OnOk result (Adds list.old list.new (IsInitialMessageBy program.now rows.now moments.now)) }
{
    append_of_packages(alloc, list, program, moments)?;
    append_elaborations(alloc, list, program, rows, moments)?;
    let last = &moments[program.order.len()];
    append_main(alloc, list, program, rows, last)?;
    append_tasks(alloc, list, program, rows, last, program.tasks.as_slice())
}
