ghost use Rattle.std.specs.Prelude.{◌≡◌, ℕ, ◌+◌, ◌<◌, ◌≤◌, ◌^◌, ◌⊎◌, length, IfOk, OnOk};
ghost use Rattle.flow_bits.specs.Sets.{Has, Tells};
ghost use Rattle.flow_relations.specs.Framing.{AreNumbered, IsFrame, IsFraming, Spreads, frame_size, name_at, place_at};

use flow_bits::Row;
use spark_base::{LeafNo, NoMemory};
use std::alloc::Global;

/// The leaves of which a body's squares speak by numbers, in increasing order: the leaf at a place has that number, and
/// their count stands for "not assigned".
#[derive(Drop)]
pub struct Frame {
    pub leaves: Vec<LeafNo>,
    /// The number of the program's leaves, which stands for "not assigned" among leaves.
    pub void: u32,
}

/// The numbers of leaves.
#[derive(Drop)]
pub struct Places {
    /// The number of each leaf; a leaf behind the last is its own.
    pub numbers: Vec<u32>,
    /// It is above each number, and stands for "not assigned".
    pub void: u32,
}

/// A frame, and the numbers of its leaves.
#[derive(Drop)]
pub struct Framing {
    pub frame: Frame,
    pub places: Places,
}

impl Frame {
    /// The leaf of a number, and "not assigned" behind the last.
    pub fn leaf(&self, number: u32) -> u32
        ensures { result ≡ name_at self.now number }
    {
        match self.leaves.as_slice().get(number as usize) {
            Some(leaf) => leaf.0,
            None => self.void,
        }
    }
}

impl Places {
    /// Each of so many leaves is its own number. It takes no memory.
    pub fn own(alloc: Global, leaves: u32) -> Places
        ensures void { result.void ≡ leaves }
        ensures own { (v : ℕ) → place_at result v ≡ v }
    {
        Places {
            numbers: Vec::new(alloc),
            void: leaves,
        }
    }

    /// The number of a leaf.
    pub fn number(&self, leaf: LeafNo) -> u32
        ensures { result ≡ place_at self.now leaf.0 }
    {
        match self.numbers.as_slice().get(leaf.0 as usize) {
            Some(number) => *number,
            None => leaf.0,
        }
    }
}

// Numbers the next leaf: it is the last of the frame, or it has no number of its own.
fn add_leaf(
    leaves: &mut Vec<LeafNo>,
    numbers: &mut Vec<u32>,
    leaf: u32,
    inside: &Row,
) -> Result<(), NoMemory>
    requires leaf { leaf < length inside.now }
    requires first { Has inside.now 0 }
    requires numbered { AreNumbered inside.now leaf leaves.old.items numbers.old.items }
    ensures numbered { OnOk result (AreNumbered inside.now (leaf + 1) leaves.new.items numbers.new.items) }
{
    if inside.has(leaf) {
        numbers.push(leaves.len() as u32)?;
        leaves.push(LeafNo(leaf))?;
    } else {
        numbers.push(0)?;
    }
    Ok(())
}

/// The frame of a set of leaves. Other leaves are given the number of the first, so that each has one.
pub fn frame_from(alloc: Global, inside: &Row, void: u32) -> Result<Framing, NoMemory>
    requires void { length inside.now ≡ void + 1 }
    requires room { void + 1 < 2 ^ 32 }
    requires first { Has inside.now 0 }
    ensures { IfOk result (IsFraming void (λ v. (v < void) × Has inside.now v)) }
{
    let mut leaves = Vec::new(alloc);
    let mut numbers = Vec::new(alloc);
    for leaf in 0..void {
        add_leaf(&mut leaves, &mut numbers, leaf, inside)?;
    }
    let count = leaves.len() as u32;
    numbers.push(count)?;
    Ok(Framing {
        frame: Frame { leaves, void },
        places: Places {
            numbers,
            void: count,
        },
    })
}

// Adds the leaf of a number, where the number is in a set.
fn spread_one(number: u32, from: &Row, frame: &Frame, into: &mut Row)
    requires number { number < length from.now }
    requires leaf { name_at frame.now number < length into.old }
    ensures size { length into.new ≡ length into.old }
    ensures set { Tells into.new (λ v. Has into.old v ⊎ ((name_at frame.now number ≡ v) × Has from.now number)) }
{
    if from.has(number) {
        into.add(frame.leaf(number));
    }
}

/// The leaves of a set of numbers.
pub fn spread_row(alloc: Global, from: &Row, frame: &Frame) -> Result<Row, NoMemory>
    requires frame { IsFrame frame.now }
    requires size { length from.now ≡ frame_size frame.now + 1 }
    ensures size { IfOk result (λ row. length row ≡ frame.now.void + 1) }
    ensures set { IfOk result (λ row. Tells row (Spreads (name_at frame.now) (frame_size frame.now) frame.now.void (Has from.now))) }
{
    let mut row = Row::new(alloc, frame.void + 1)?;
    for number in 0..from.size() {
        spread_one(number, from, frame, &mut row);
    }
    Ok(row)
}

// Adds a number, where its leaf is in a set.
fn number_one(number: u32, from: &Row, frame: &Frame, into: &mut Row)
    requires number { number < length into.old }
    requires leaf { name_at frame.now number < length from.now }
    ensures size { length into.new ≡ length into.old }
    ensures set { Tells into.new (λ i. Has into.old i ⊎ ((i ≡ number) × Has from.now (name_at frame.now number))) }
{
    if from.has(frame.leaf(number)) {
        into.add(number);
    }
}

/// The numbers of those of the frame's leaves that are in a set.
pub fn number_row(alloc: Global, from: &Row, frame: &Frame, size: u32) -> Result<Row, NoMemory>
    requires frame { IsFrame frame.now }
    requires from { length from.now ≡ frame.now.void + 1 }
    requires size { size ≡ frame_size frame.now + 1 }
    ensures size { IfOk result (λ row. length row ≡ size) }
    ensures set { IfOk result (λ row. Tells row (λ i. (i < size) × Has from.now (name_at frame.now i))) }
{
    let mut row = Row::new(alloc, size)?;
    for number in 0..size {
        number_one(number, from, frame, &mut row);
    }
    Ok(row)
}
