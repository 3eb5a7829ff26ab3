ghost use Rattle.std.specs.Prelude.{◌≡◌, ℕ, ◌+◌, ◌<◌, ◌≤◌, ◌^◌, ◌↔◌, All, IsTrue, length, false};
ghost use Rattle.core_form.specs.Fine.{IsFineItem, IsWellFormed};
ghost use Rattle.core_form.specs.Leaves.{IsLeafOfSome, IsLeafOfVar};
ghost use Rattle.summary_rows.specs.Layout.{AreRows, IsAt, outer_of};
ghost use Rattle.used_modes.specs.UsedModes as spec;
ghost use Rattle.used_modes.specs.UsedModes.{HasMode, IsLeft, IsLibrary, IsLibraryHome, SomeLeaf, asked, row_of};

use core_form::{Home, Item, Program};
use spark_base::{BodyNo, LeafNo, VarNo};
use spark_messages::message_texts::UsedMode;
use summary_rows::Rows;

/// What may be asked of a leaf: whether a body reads it, writes it, or may leave it as it was where it returns.
#[derive(Clone, Copy, Debug, PartialEq, Eq)]
pub enum Question {
    Read,
    Written,
    Stays,
}

fn is_library_home(home: Home) -> bool
    ensures { IsTrue result ↔ IsLibraryHome home }
{
    match home {
        Home::Package(_) | Home::Clock => true,
        Home::Local(_) | Home::Formal(_) | Home::Outcome(_) | Home::Spare(_) => false,
    }
}

/// Whether a leaf is of a package or the clock. There is none behind the last.
pub fn is_library(program: &Program, leaf: LeafNo) -> bool
    ensures { IsTrue result ↔ IsLibrary program.now leaf.0 }
{
    match program.leaves.get(leaf.0 as usize) {
        Some(l) => match program.vars.get(l.var.0 as usize) {
            Some(var) => is_library_home(var.home),
            None => false,
        },
        None => false,
    }
}

/// The leaves of which the row of a body speaks.
pub fn row_leaves(rows: &Rows, body: BodyNo) -> &[LeafNo]
    requires { body.0 < length rows.now.layout.outer }
    ensures { result.now ≡ outer_of rows.now.layout body.0 }
{
    rows.layout.outer.at(body.0 as usize).as_slice()
}

fn has_leaf(leaves: &[LeafNo], leaf: LeafNo) -> bool
    ensures { IsTrue result ↔ ((i : ℕ) × IsAt leaves.now leaf.0 i) }
{
    for other in leaves {
        if *other == leaf {
            return true;
        }
    }
    false
}

fn is_asked(rows: &Rows, body: BodyNo, question: Question, leaf: LeafNo) -> bool
    requires rows { AreRows rows.now }
    requires in_range { body.0 < length rows.now.layout.outer }
    ensures { IsTrue result ↔ asked (row_of rows.now body.0) question leaf.0 }
{
    match question {
        Question::Read => rows.reads(body, leaf),
        Question::Written => rows.writes(body, leaf),
        Question::Stays => rows.keeps(body, leaf) || !has_leaf(row_leaves(rows, body), leaf),
    }
}

// Of so many leaves, from one on.
fn some_of_run(rows: &Rows, body: BodyNo, question: Question, from: u32, count: u32) -> bool
    requires rows { AreRows rows.now }
    requires in_range { body.0 < length rows.now.layout.outer }
    requires room { from + count < 2 ^ 32 }
    ensures { IsTrue result ↔ ((leaf : ℕ) × (((from ≤ leaf) × (leaf < from + count)) × asked (row_of rows.now body.0) question leaf)) }
{
    for leaf in from..from + count {
        if is_asked(rows, body, question, LeafNo(leaf)) {
            return true;
        }
    }
    false
}

fn some_of_var(program: &Program, rows: &Rows, body: BodyNo, question: Question, var: VarNo) -> bool
    requires fine { IsWellFormed program.now }
    requires rows { AreRows rows.now }
    requires in_range { body.0 < length rows.now.layout.outer }
    requires var { var.0 < length program.now.vars }
    ensures { IsTrue result ↔ ((leaf : ℕ) × (IsLeafOfVar program.now var.0 leaf × asked (row_of rows.now body.0) question leaf)) }
{
    let var = program.vars.at(var.0 as usize);
    some_of_run(rows, body, question, var.from.0, var.count)
}

fn some_of_vars(
    program: &Program,
    rows: &Rows,
    body: BodyNo,
    question: Question,
    vars: &[VarNo],
) -> bool
    requires fine { IsWellFormed program.now }
    requires rows { AreRows rows.now }
    requires in_range { body.0 < length rows.now.layout.outer }
    requires vars { All (λ v. v.0 < length program.now.vars) vars.now }
    ensures { IsTrue result ↔ ((leaf : ℕ) × (IsLeafOfSome program.now vars.now leaf × asked (row_of rows.now body.0) question leaf)) }
{
    for var in vars {
        if some_of_var(program, rows, body, question, *var) {
            return true;
        }
    }
    false
}

/// Whether the answer is yes for some leaf of an item. It takes no memory.
pub fn some_leaf(
    program: &Program,
    rows: &Rows,
    body: BodyNo,
    question: Question,
    item: Item,
) -> bool
    requires fine { IsWellFormed program.now }
    requires rows { AreRows rows.now }
    requires in_range { body.0 < length rows.now.layout.outer }
    requires item { IsFineItem program.now item }
    ensures { IsTrue result ↔ SomeLeaf program.now item (asked (row_of rows.now body.0) question) }
{
    match item {
        Item::Whole(var) => some_of_var(program, rows, body, question, var),
        Item::State(state) => {
            let state = program.states.list.at(state as usize);
            some_of_vars(program, rows, body, question, state.variables.as_slice())
        }
        Item::Guard(object) => {
            let object = program.objects.at(object.0 as usize);
            some_of_var(program, rows, body, question, object.var)
        }
    }
}

/// Whether a body may return, and leave some leaf of an item as it was.
pub fn is_left(program: &Program, rows: &Rows, body: BodyNo, item: Item) -> bool
    requires fine { IsWellFormed program.now }
    requires rows { AreRows rows.now }
    requires in_range { body.0 < length rows.now.layout.outer }
    requires item { IsFineItem program.now item }
    ensures { IsTrue result ↔ IsLeft program.now (row_of rows.now body.0) item }
{
    rows.returns(body) && some_leaf(program, rows, body, Question::Stays, item)
}

/// What a body does with an item: the one mode that it has.
pub fn used_mode(program: &Program, rows: &Rows, body: BodyNo, item: Item) -> UsedMode
    requires fine { IsWellFormed program.now }
    requires rows { AreRows rows.now }
    requires in_range { body.0 < length rows.now.layout.outer }
    requires item { IsFineItem program.now item }
    ensures { HasMode program.now (row_of rows.now body.0) item result }
{
    let read = some_leaf(program, rows, body, Question::Read, item);
    if !some_leaf(program, rows, body, Question::Written, item) {
        return if read {
            UsedMode::Input
        } else {
            UsedMode::Nothing
        };
    }
    if read || is_left(program, rows, body, item) {
        UsedMode::InOut
    } else {
        UsedMode::Output
    }
}
