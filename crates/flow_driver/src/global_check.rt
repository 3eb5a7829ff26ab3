//! The messages on the Global of a body.
ghost use Rattle.std.specs.Prelude.{◌≡◌, ◌+◌, ◌++◌, ◌<◌, ◌≤◌, ◌^◌, [], ◌∷◌, Some, All, length, slice_get, IfOk, OnOk, IfSome, true, false, ◌||◌};
ghost use Rattle.std.specs.Option.{option_copied};
ghost use Rattle.core_form.specs.Fine.{IsFineItem, IsWellFormed};
ghost use Rattle.flow_bits.specs.Sets.{Tells, either};
ghost use Rattle.flow_relations.specs.Told.{AreRowsSized};
ghost use Rattle.flow_driver.specs.GlobalCheck as spec;
ghost use Rattle.flow_driver.specs.GlobalCheck.{has, some_leaf, some_of, stays, mode_used};

use core_form::{Body, Contract, GlobalItem, Item, Mode, Program, Var};
use flow_bits::Row;
use flow_relations::BodyRow;
use spark_base::{Bytes, ItemNo, Items, NoMemory, Span};
use spark_messages::message_texts::{
    UsedMode, read_output_text, unlisted_text, written_input_text,
};
use spark_messages::{Code, Kind, Message};
use std::alloc::Global;

/// Whether a leaf is in the set.
fn has(row: &Row, leaf: u32) -> bool
    requires { leaf < length row.now }
    ensures { result ≡ has row.now leaf }
{
    row.has(leaf)
}

/// Whether some leaf of a variable is in the set.
fn some_of(row: &Row, var: &Var) -> bool
    requires leaves { var.now.from.0 + var.now.count ≤ length row.now }
    requires room { length row.now < 2 ^ 32 }
    ensures { result ≡ some_of (has row.now) var.now }
{
    for i in 0..var.count {
        if has(row, var.from.0 + i) {
            return true;
        }
    }
    false
}

/// Whether a leaf may hold its entry value at the return, by the row of a body that may return.
fn stays(row: &BodyRow, leaf: u32) -> bool
    requires keeps { leaf < length row.now.keeps }
    requires leaves { leaf < length row.now.leaves }
    ensures { result ≡ stays row.now leaf }
{
    has(&row.keeps, leaf) || !has(&row.leaves, leaf)
}

/// Whether some leaf of a variable may hold its entry value at the return.
fn some_stays(row: &BodyRow, var: &Var) -> bool
    requires keeps { var.now.from.0 + var.now.count ≤ length row.now.keeps }
    requires leaves { var.now.from.0 + var.now.count ≤ length row.now.leaves }
    requires room { length row.now.leaves < 2 ^ 32 }
    ensures { result ≡ some_of (stays row.now) var.now }
{
    for i in 0..var.count {
        if stays(row, var.from.0 + i) {
            return true;
        }
    }
    false
}

/// What is done with an item of which some leaf is read, written, left.
fn mode_used(read: bool, written: bool, left: bool) -> UsedMode
    ensures { result ≡ mode_used read written left }
{
    match (read, written, left) {
        (false, false, _) => UsedMode::Nothing,
        (true, false, _) => UsedMode::Input,
        (false, true, false) => UsedMode::Output,
        _ => UsedMode::InOut,
    }
}

/// Whether a body may leave what a variable held before.
fn is_left(row: &BodyRow, var: &Var) -> bool
    requires sized { AreRowsSized (length row.now.leaves) row.now }
    requires var { var.now.from.0 + var.now.count ≤ length row.now.leaves }
    requires room { length row.now.leaves < 2 ^ 32 }
    ensures { result ≡ spec.is_left row.now var.now }
{
    row.returns && some_stays(row, var)
}

/// What a body does with a variable.
fn used_mode(row: &BodyRow, var: &Var) -> UsedMode
    requires sized { AreRowsSized (length row.now.leaves) row.now }
    requires var { var.now.from.0 + var.now.count ≤ length row.now.leaves }
    requires room { length row.now.leaves < 2 ^ 32 }
    ensures { result ≡ spec.used_mode row.now var.now }
{
    let read = some_of(&row.reads, var);
    let written = some_of(&row.writes, var);
    let left = is_left(row, var);
    mode_used(read, written, left)
}

/// An error at the beginning of a span.
fn error_at(span: Span, code: Code, text: Bytes) -> Message
    ensures { result ≡ spec.error_at span code text }
{
    Message {
        file: span.file,
        place: span.from,
        code,
        text,
        kind: Kind::Error,
    }
}

/// The variable of an item, where it is one.
fn var_of<'a>(program: &'a Program, item: Item) -> Option<&'a Var>
    requires fine { IsWellFormed program.now }
    ensures var { option_copied result ≡ spec.var_of program.now item }
    ensures within { IfSome result (λ v. v.now.from.0 + v.now.count ≤ length program.now.leaves) }
{
    match item {
        Item::Whole(var) => program.vars.get(var.0 as usize),
        Item::State(_) | Item::Guard(_) => None,
    }
}

/// The variable that an item of a Global names.
fn var_named<'a>(program: &'a Program, global: GlobalItem) -> Option<&'a Var>
    requires fine { IsWellFormed program.now }
    ensures var { option_copied result ≡ spec.var_named program.now global }
    ensures within { IfSome result (λ v. v.now.from.0 + v.now.count ≤ length program.now.leaves) }
{
    match program.items.get(global.item.0 as usize) {
        Some(item) => var_of(program, *item),
        None => None,
    }
}

/// Adds an item to the listed ones, unless it is for proofs alone.
fn add_listed(row: &mut Row, global: GlobalItem)
    requires { global.item.0 < length row.old }
    ensures size { length row.new ≡ length row.old }
    ensures set { Tells row.new (either row.old (λ i. spec.is_listed (global ∷ []) i ≡ true)) }
{
    if global.mode != Mode::ProofIn {
        row.add(global.item.0);
    }
}

/// The items that a Global lists, other than for proofs alone.
fn listed_items(alloc: Global, globals: &[GlobalItem], count: u32) -> Result<Row, NoMemory>
    requires { All (λ g. g.item.0 < count) globals.now }
    ensures size { IfOk result (λ row. length row ≡ count) }
    ensures set { IfOk result (λ row. Tells row (λ i. spec.is_listed globals.now i ≡ true)) }
{
    let mut row = Row::new(alloc, count)?;
    for global in globals {
        add_listed(&mut row, *global);
    }
    Ok(row)
}

/// Adds G01 on a variable that is not listed.
fn append_unlisted_var(
    alloc: Global,
    list: &mut Items<Message>,
    body: &Body,
    var: &Var,
    used: UsedMode,
) -> Result<(), NoMemory>
    ensures { OnOk result (list.new ≡ list.old ++ spec.unlisted_var body.now var.now used) }
{
    if used == UsedMode::Nothing {
        return Ok(());
    }
    let text = unlisted_text(alloc, var.name.as_slice(), used, body.name.as_slice())?;
    list.push(error_at(body.place, Code::G01, text))
}

/// Adds G01 on an item, unless it is listed.
fn append_unlisted(
    alloc: Global,
    list: &mut Items<Message>,
    row: &BodyRow,
    body: &Body,
    listed: bool,
    var: Option<&Var>,
) -> Result<(), NoMemory>
    requires sized { AreRowsSized (length row.now.leaves) row.now }
    requires room { length row.now.leaves < 2 ^ 32 }
    requires var { IfSome var (λ v. v.now.from.0 + v.now.count ≤ length row.now.leaves) }
    ensures { OnOk result (list.new ≡ list.old ++ spec.unlisted_item row.now body.now listed (option_copied var.entry)) }
{
    match var {
        Some(var) if !listed => append_unlisted_var(alloc, list, body, var, used_mode(row, var)),
        _ => Ok(()),
    }
}

/// Adds G02 on a variable that is an input.
fn append_input_var(
    alloc: Global,
    list: &mut Items<Message>,
    row: &BodyRow,
    body: &Body,
    place: Span,
    var: Option<&Var>,
) -> Result<(), NoMemory>
    requires sized { AreRowsSized (length row.now.leaves) row.now }
    requires room { length row.now.leaves < 2 ^ 32 }
    requires var { IfSome var (λ v. v.now.from.0 + v.now.count ≤ length row.now.leaves) }
    ensures { OnOk result (list.new ≡ list.old ++ spec.input_var row.now body.now place (option_copied var.entry)) }
{
    match var {
        Some(var) if some_of(&row.writes, var) => {
            let text = written_input_text(alloc, var.name.as_slice(), body.name.as_slice())?;
            list.push(error_at(place, Code::G02, text))
        }
        _ => Ok(()),
    }
}

/// Whether a body may read what a variable held before, or leave it.
fn is_read_or_left(row: &BodyRow, var: &Var) -> bool
    requires sized { AreRowsSized (length row.now.leaves) row.now }
    requires var { var.now.from.0 + var.now.count ≤ length row.now.leaves }
    requires room { length row.now.leaves < 2 ^ 32 }
    ensures { result ≡ (spec.is_read row.now var.now || spec.is_left row.now var.now) }
{
    some_of(&row.reads, var) || is_left(row, var)
}

/// Adds G03 on a variable that is an output.
fn append_output_var(
    alloc: Global,
    list: &mut Items<Message>,
    row: &BodyRow,
    body: &Body,
    place: Span,
    var: Option<&Var>,
) -> Result<(), NoMemory>
    requires sized { AreRowsSized (length row.now.leaves) row.now }
    requires room { length row.now.leaves < 2 ^ 32 }
    requires var { IfSome var (λ v. v.now.from.0 + v.now.count ≤ length row.now.leaves) }
    ensures { OnOk result (list.new ≡ list.old ++ spec.output_var row.now body.now place (option_copied var.entry)) }
{
    match var {
        Some(var) if is_read_or_left(row, var) => {
            let text = read_output_text(alloc, var.name.as_slice(), body.name.as_slice())?;
            list.push(error_at(place, Code::G03, text))
        }
        _ => Ok(()),
    }
}

/// Adds G02 and G03 on an item of a Global.
fn append_listed(
    alloc: Global,
    list: &mut Items<Message>,
    program: &Program,
    row: &BodyRow,
    body: &Body,
    global: GlobalItem,
) -> Result<(), NoMemory>
    requires fine { IsWellFormed program.now }
    requires sized { AreRowsSized (length program.now.leaves + 1) row.now }
    ensures { OnOk result (list.new ≡ list.old ++ spec.listed_item program.now row.now body.now global global.mode) }
{
    match global.mode {
        Mode::Input => {
            let var = var_named(program, global);
            append_input_var(alloc, list, row, body, global.place, var)
        }
        Mode::Output => {
            let var = var_named(program, global);
            append_output_var(alloc, list, row, body, global.place, var)
        }
        Mode::InOut | Mode::ProofIn => Ok(()),
    }
}

/// Adds G02 and G03 on each item of a Global.
fn append_listed_items(
    alloc: Global,
    list: &mut Items<Message>,
    program: &Program,
    row: &BodyRow,
    body: &Body,
    globals: &[GlobalItem],
) -> Result<(), NoMemory>
    requires fine { IsWellFormed program.now }
    requires sized { AreRowsSized (length program.now.leaves + 1) row.now }
    ensures { OnOk result (list.new ≡ list.old ++ spec.listed_messages program.now row.now body.now globals.now) }
{
    for global in globals {
        append_listed(alloc, list, program, row, body, *global)?;
    }
    Ok(())
}

/// Adds G01 on each item that is not listed.
fn append_unlisted_items(
    alloc: Global,
    list: &mut Items<Message>,
    program: &Program,
    row: &BodyRow,
    body: &Body,
    listed: &Row,
) -> Result<(), NoMemory>
    requires fine { IsWellFormed program.now }
    requires sized { AreRowsSized (length program.now.leaves + 1) row.now }
    requires listed { length listed.now ≡ length program.now.items }
    requires room { length program.now.items < 2 ^ 32 }
    ensures { OnOk result (list.new ≡ list.old ++ spec.unlisted_from program.now row.now body.now (has listed.now) 0 program.now.items) }
{
    for (i, item) in program.items.as_slice().iter().enumerate() {
        let var = var_of(program, *item);
        append_unlisted(alloc, list, row, body, has(listed, i as u32), var)?;
    }
    Ok(())
}

/// Adds the messages on a body with this Global.
pub fn append_global_messages(
    alloc: Global,
    list: &mut Items<Message>,
    program: &Program,
    row: &BodyRow,
    body: &Body,
    contract: &Contract,
) -> Result<(), NoMemory>
    requires fine { IsWellFormed program.now }
    requires sized { AreRowsSized (length program.now.leaves + 1) row.now }
    requires contract { All (λ g. g.item.0 < length program.now.items) contract.now.globals }
    ensures { OnOk result (list.new ≡ list.old ++ spec.global_messages program.now row.now body.now contract.now) }
{
    let count = program.items.len();
    if count > u32::MAX as usize {
        return Err(NoMemory);
    }
    let globals = contract.globals.as_slice();
    let listed = listed_items(alloc, globals, count as u32)?;
    append_unlisted_items(alloc, list, program, row, body, &listed)?;
    append_listed_items(alloc, list, program, row, body, globals)
}
