ghost use Rattle.std.specs.Prelude.{◌≡◌, ◌<◌, ◌^◌, ◌⊎◌, ◌↔◌, IfOk, IsTrue, length};
ghost use Rattle.flow_bits.specs.Sets.{Has, Relates, Tells, TellsPairs};
ghost use Rattle.summary_rows.specs.Facts.{Depending};
ghost use Rattle.summary_rows.specs.Layout.{AreRows, outer_of, told};
ghost use Rattle.callee_view.specs.Seen.{of_body, row_told};
ghost use Rattle.callee_view.specs.Shown.{AreKnownSized, Shows, leaf_at, part_asked};

use call_flow::Known;
use flow_bits::{Row, Square};
use spark_base::{BodyNo, LeafNo, NoMemory};
use std::alloc::Global;
use summary_rows::Rows;

/// What a row may tell of a leaf.
#[derive(Clone, Copy)]
pub(crate) enum Question {
    Reads,
    Writes,
    Keeps,
}

fn tells(rows: &Rows, body: BodyNo, question: Question, leaf: LeafNo) -> bool
    requires rows { AreRows rows.now }
    requires in_range { body.0 < length rows.now.layout.outer }
    ensures { IsTrue result ↔ told rows.now (of_body body.0 (part_asked question leaf.0)) }
{
    match question {
        Question::Reads => rows.reads(body, leaf),
        Question::Writes => rows.writes(body, leaf),
        Question::Keeps => rows.keeps(body, leaf),
    }
}

// Adds a place, where the row tells so of its leaf.
fn add_where_told(
    rows: &Rows,
    body: BodyNo,
    question: Question,
    outer: &[LeafNo],
    i: u32,
    into: &mut Row,
)
    requires rows { AreRows rows.now }
    requires in_range { body.0 < length rows.now.layout.outer }
    requires place { i < length outer.now }
    requires size { length into.old ≡ length outer.now }
    ensures size { length into.new ≡ length into.old }
    ensures set { Tells into.new (λ x. Has into.old x
        ⊎ ((i ≡ x) × told rows.now (of_body body.0 (part_asked question (leaf_at outer.now x))))) }
{
    if tells(rows, body, question, outer[i as usize]) {
        into.add(i);
    }
}

// The places of the leaves of which the row tells so.
fn places_told(
    alloc: Global,
    rows: &Rows,
    body: BodyNo,
    question: Question,
    outer: &[LeafNo],
) -> Result<Row, NoMemory>
    requires rows { AreRows rows.now }
    requires in_range { body.0 < length rows.now.layout.outer }
    requires room { length outer.now < 2 ^ 32 }
    ensures size { IfOk result (λ row. length row ≡ length outer.now) }
    ensures set { IfOk result (λ row. Tells row (λ x. (x < length outer.now) × told rows.now (of_body body.0 (part_asked question (leaf_at outer.now x))))) }
{
    let count = outer.len() as u32;
    let mut row = Row::new(alloc, count)?;
    for i in 0..count {
        add_where_told(rows, body, question, outer, i, &mut row);
    }
    Ok(row)
}

// Adds a pair of places, where the row tells that the one leaf decides the other.
fn add_pair_told(rows: &Rows, body: BodyNo, outer: &[LeafNo], i: u32, j: u32, into: &mut Square)
    requires rows { AreRows rows.now }
    requires in_range { body.0 < length rows.now.layout.outer }
    requires from { i < length outer.now }
    requires to { j < length outer.now }
    requires size { length into.old ≡ length outer.now }
    ensures size { length into.new ≡ length into.old }
    ensures set { TellsPairs into.new (λ x y. Relates into.old x y
        ⊎ ((i ≡ x) × ((j ≡ y) × told rows.now (of_body body.0 (Depending (leaf_at outer.now x) (leaf_at outer.now y)))))) }
{
    if rows.depends(body, outer[i as usize], outer[j as usize]) {
        into.add(i, j);
    }
}

// Adds the pairs of places that begin with this one.
fn add_pairs_told(rows: &Rows, body: BodyNo, outer: &[LeafNo], i: u32, into: &mut Square)
    requires rows { AreRows rows.now }
    requires in_range { body.0 < length rows.now.layout.outer }
    requires room { length outer.now < 2 ^ 32 }
    requires from { i < length outer.now }
    requires size { length into.old ≡ length outer.now }
    ensures size { length into.new ≡ length into.old }
    ensures set { TellsPairs into.new (λ x y. Relates into.old x y
        ⊎ ((i ≡ x) × ((y < length outer.now) × told rows.now (of_body body.0 (Depending (leaf_at outer.now x) (leaf_at outer.now y)))))) }
{
    let count = outer.len() as u32;
    for j in 0..count {
        add_pair_told(rows, body, outer, i, j, into);
    }
}

// The pairs of places of leaves of which the row tells that the one decides the other.
fn pairs_told(
    alloc: Global,
    rows: &Rows,
    body: BodyNo,
    outer: &[LeafNo],
) -> Result<Square, NoMemory>
    requires rows { AreRows rows.now }
    requires in_range { body.0 < length rows.now.layout.outer }
    requires room { length outer.now < 2 ^ 32 }
    ensures size { IfOk result (λ square. length square ≡ length outer.now) }
    ensures set { IfOk result (λ square. TellsPairs square (λ x y. (x < length outer.now)
        × ((y < length outer.now) × told rows.now (of_body body.0 (Depending (leaf_at outer.now x) (leaf_at outer.now y)))))) }
{
    let count = outer.len() as u32;
    let mut square = Square::new(alloc, count)?;
    for i in 0..count {
        add_pairs_told(rows, body, outer, i, &mut square);
    }
    Ok(square)
}

// What is known of a body by its row, which is of these leaves.
fn known_of_row(
    alloc: Global,
    rows: &Rows,
    body: BodyNo,
    outer: &[LeafNo],
    names: Vec<u32>,
) -> Result<Known, NoMemory>
    requires rows { AreRows rows.now }
    requires in_range { body.0 < length rows.now.layout.outer }
    requires outer { outer.now ≡ outer_of rows.now.layout body.0 }
    requires room { length outer.now < 2 ^ 32 }
    requires names { length names.items ≡ length outer.now }
    ensures names { IfOk result (λ k. k.names.items ≡ names.items) }
    ensures size { IfOk result (λ k. AreKnownSized (length outer.now) k) }
    ensures shows { IfOk result (λ k. Shows outer.now k (row_told rows.now.layout (told rows.now) body.0)) }
{
    let may_return = rows.returns(body);
    let reads = places_told(alloc, rows, body, Question::Reads, outer)?;
    let writes = places_told(alloc, rows, body, Question::Writes, outer)?;
    let keeps = places_told(alloc, rows, body, Question::Keeps, outer)?;
    let depends = pairs_told(alloc, rows, body, outer)?;
    Ok(Known {
        names,
        returns: may_return,
        reads,
        writes,
        keeps,
        depends,
    })
}

/// What is known of a body by its row, whose leaves have these names. 2^32 leaves or more are want of memory.
pub fn row_known(
    alloc: Global,
    rows: &Rows,
    body: BodyNo,
    names: Vec<u32>,
) -> Result<Known, NoMemory>
    requires rows { AreRows rows.now }
    requires in_range { body.0 < length rows.now.layout.outer }
    requires names { length names.items ≡ length (outer_of rows.now.layout body.0) }
    ensures names { IfOk result (λ k. k.names.items ≡ names.items) }
    ensures size { IfOk result (λ k. AreKnownSized (length names.items) k) }
    ensures shows { IfOk result (λ k. Shows (outer_of rows.now.layout body.0) k (row_told rows.now.layout (told rows.now) body.0)) }
{
    let outer = rows.layout.outer.at(body.0 as usize).as_slice();
    if outer.len() > u32::MAX as usize {
        return Err(NoMemory);
    }
    known_of_row(alloc, rows, body, outer, names)
}
