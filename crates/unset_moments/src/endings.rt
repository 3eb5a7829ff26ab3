ghost use Rattle.std.specs.Prelude.{◌≡◌, ℕ, ◌+◌, ◌<◌, ◌≤◌, ◌⊎◌, ◌↔◌, [], All, IfOk, IsSomeAnd, IsTrue, length, slice_index_or};
ghost use Rattle.core_form.specs.Fine.{IsWellFormed, home_of};
ghost use Rattle.flow_bits.specs.Sets.{Has, Tells};
ghost use Rattle.unset_moments.specs.Moments.{IsPackageHome, loose_after, loose_before, loose_first};

use core_form::{Home, Program};
use flow_bits::Row;
use spark_base::{LeafNo, NoMemory};
use std::alloc::Global;

/// What an item of the elaboration order does with leaves until it returns. Where it cannot return, nothing is unassigned or kept then.
#[derive(Drop)]
pub struct Ending {
    /// Leaves of its package that it declares: it makes them fresh.
    pub declared: Row,
    /// Leaves that may be unassigned at its return, since they were made fresh and not assigned.
    pub unset: Row,
    /// Leaves that may hold at its return what they held before.
    pub kept: Row,
}

fn is_package_home(home: Home) -> bool
    ensures { IsTrue result ↔ IsPackageHome home }
{
    match home {
        Home::Package(_) => true,
        Home::Local(_) | Home::Formal(_) | Home::Outcome(_) | Home::Spare(_) | Home::Clock => false,
    }
}

// Whether a leaf is one of a package.
fn is_package_leaf(program: &Program, leaf: LeafNo) -> bool
    ensures { IsTrue result ↔ loose_first program.now leaf.0 }
{
    match program.leaves.get(leaf.0 as usize) {
        Some(leaf) => match program.vars.get(leaf.var.0 as usize) {
            Some(var) => is_package_home(var.home),
            None => false,
        },
        None => false,
    }
}

// Adds a leaf, where it is one of a package.
fn add_leaf(program: &Program, leaf: u32, into: &mut Row)
    requires { leaf < length into.old }
    ensures size { length into.new ≡ length into.old }
    ensures set { Tells into.new (λ v. Has into.old v ⊎ ((v ≡ leaf) × loose_first program.now v)) }
{
    if is_package_leaf(program, LeafNo(leaf)) {
        into.add(leaf);
    }
}

// What is unassigned before all items.
fn first_moment(alloc: Global, program: &Program) -> Result<Row, NoMemory>
    requires fine { IsWellFormed program.now }
    ensures size { IfOk result (λ row. length row ≡ length program.now.leaves) }
    ensures set { IfOk result (λ row. Tells row (loose_first program.now)) }
{
    let count = program.leaves.len() as u32;
    let mut row = Row::new(alloc, count)?;
    for leaf in 0..count {
        add_leaf(program, leaf, &mut row);
    }
    Ok(row)
}

fn copy_of(alloc: Global, row: &Row) -> Result<Row, NoMemory>
    ensures { IfOk result (λ copy. copy ≡ row.now) }
{
    let mut copy = Row::new(alloc, row.size())?;
    copy.copy_from(row);
    Ok(copy)
}

// What may be unassigned behind an item.
fn next_moment(alloc: Global, item: &Ending, loose: &Row) -> Result<Row, NoMemory>
    requires declared { length item.now.declared ≡ length loose.now }
    requires unset { length item.now.unset ≡ length loose.now }
    requires kept { length item.now.kept ≡ length loose.now }
    ensures size { IfOk result (λ row. length row ≡ length loose.now) }
    ensures set { IfOk result (λ row. Tells row (loose_after item.now (Has loose.now))) }
{
    let mut row = copy_of(alloc, loose)?;
    row.minus_into(&item.declared);
    row.intersect_into(&item.kept);
    let mut own = copy_of(alloc, &item.declared)?;
    own.intersect_into(&item.unset);
    row.union_into(&own);
    Ok(row)
}

/// What may be unassigned before each item of the elaboration order, and behind all, by what each item does: the n-th set is that before the n-th
/// item, counted from 0, and the last that behind all. Sets of leaves are as long as there are leaves.
pub fn moments(alloc: Global, program: &Program, items: &[Ending]) -> Result<Vec<Row>, NoMemory>
    requires fine { IsWellFormed program.now }
    requires declared { All (λ e. length e.declared ≡ length program.now.leaves) items.now }
    requires unset { All (λ e. length e.unset ≡ length program.now.leaves) items.now }
    requires kept { All (λ e. length e.kept ≡ length program.now.leaves) items.now }
    ensures count { IfOk result (λ rows. length rows.items ≡ length items.now + 1) }
    ensures sizes { IfOk result (λ rows. All (λ row. length row ≡ length program.now.leaves) rows.items) }
    ensures sets { IfOk result (λ rows. (n : ℕ) → n ≤ length items.now → Tells (slice_index_or rows.items n []) (loose_before program.now items.now n)) }
{
    let mut rows = vec![in alloc; first_moment(alloc, program)?]?;
    for (n, item) in items.iter().enumerate() {
        let next = next_moment(alloc, item, &rows[n])?;
        rows.push(next)?;
    }
    Ok(rows)
}
