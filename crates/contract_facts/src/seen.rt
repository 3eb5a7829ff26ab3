ghost use Rattle.std.specs.Option.{option_copied};
ghost use Rattle.std.specs.Prelude.{◌≡◌, ℕ, ◌<◌, ◌^◌, IfOk, length, slice_get};
ghost use Rattle.core_form.specs.Fine.{IsWellFormed};
ghost use Rattle.summary_rows.specs.Layout.{AreRows, IsAt, IsIncreasing, IsLayout, outer_of, told};
ghost use Rattle.callee_view.specs.Seen.{contract_seen, seen, stands_in};
ghost use Rattle.callee_view.specs.Shown.{AreKnownSized, IsAbout, Shows};
ghost use Rattle.contract_facts.specs.Seeing.{AreSeenLeaves};

use crate::view::{contract_known, contract_leaves};
use call_flow::Known;
use callee_view::row_known;
use core_form::{Body, Contract, Program};
use spark_base::{BodyNo, Items, LeafNo, NoMemory, PackageNo};
use std::alloc::Global;
use summary_rows::{Layout, Rows};

// Whether a body stands in the body of a package.
fn stands_in(program: &Program, caller: BodyNo, inside: PackageNo) -> bool
    requires in_range { caller.0 < length program.now.bodies }
    ensures { result ≡ stands_in (slice_get program.now.bodies caller.0) inside }
{
    let caller = program.bodies.at(caller.0 as usize);
    caller.package == Some(inside) && !caller.in_spec
}

/// The contract of a body that a caller sees: the refined one from the body of its package, where it is written; else the outer one.
pub fn contract_seen<'a>(
    program: &Program,
    caller: BodyNo,
    callee: &'a Body,
) -> Option<&'a Contract>
    requires in_range { caller.0 < length program.now.bodies }
    ensures { option_copied result ≡ contract_seen (slice_get program.now.bodies caller.0) callee.now }
{
    match (callee.package, &callee.inner) {
        (Some(package), Some(inner)) if stands_in(program, caller, package) => Some(inner),
        _ => callee.outer.as_ref(),
    }
}

// The same leaves once more.
fn copy_of(alloc: Global, leaves: &[LeafNo]) -> Result<Items<LeafNo>, NoMemory>
    ensures { IfOk result (λ copy. copy ≡ leaves.now) }
{
    let mut copy = Items::new(alloc);
    for leaf in leaves {
        copy.push(*leaf)?;
    }
    Ok(copy)
}

/// The leaves of which a caller sees a body speak, in increasing order: those of the contract that it sees; where there is none,
/// those of the body's row.
pub fn seen_leaves(
    alloc: Global,
    program: &Program,
    layout: &Layout,
    caller: BodyNo,
    callee: BodyNo,
) -> Result<Items<LeafNo>, NoMemory>
    requires fine { IsWellFormed program.now }
    requires caller { caller.0 < length program.now.bodies }
    requires callee { callee.0 < length program.now.bodies }
    requires layout { IsLayout layout.now }
    requires bodies { length layout.now.outer ≡ length program.now.bodies }
    requires row { (v i : ℕ) → IsAt (outer_of layout.now callee.0) v i → v < length program.now.leaves }
    ensures increasing { IfOk result IsIncreasing }
    ensures below { IfOk result (λ leaves. (v i : ℕ) → IsAt leaves v i → v < length program.now.leaves) }
    ensures leaves { IfOk result (AreSeenLeaves program.now layout.now (slice_get program.now.bodies caller.0) callee) }
{
    let body = program.bodies.at(callee.0 as usize);
    match contract_seen(program, caller, body) {
        Some(contract) => contract_leaves(alloc, program, callee, body, contract),
        None => copy_of(alloc, layout.outer.at(callee.0 as usize).as_slice()),
    }
}

/// What a caller knows of a body, where the leaves of which it sees it speak have these names: the facts of the contract that it
/// sees; where there is none, those of the body's row. 2^32 leaves or more are want of memory.
pub fn seen_known(
    alloc: Global,
    program: &Program,
    rows: &Rows,
    caller: BodyNo,
    callee: BodyNo,
    leaves: &[LeafNo],
    names: Vec<u32>,
) -> Result<Known, NoMemory>
    requires fine { IsWellFormed program.now }
    requires caller { caller.0 < length program.now.bodies }
    requires callee { callee.0 < length program.now.bodies }
    requires rows { AreRows rows.now }
    requires bodies { length rows.now.layout.outer ≡ length program.now.bodies }
    requires increasing { IsIncreasing leaves.now }
    requires leaves { AreSeenLeaves program.now rows.now.layout (slice_get program.now.bodies caller.0) callee leaves.now }
    requires names { length names.items ≡ length leaves.now }
    ensures names { IfOk result (λ k. k.names.items ≡ names.items) }
    ensures size { IfOk result (λ k. AreKnownSized (length leaves.now) k) }
    ensures shows { IfOk result (λ k. Shows leaves.now k
        (seen program.now rows.now.layout (told rows.now) (slice_get program.now.bodies caller.0) callee)) }
    ensures about { IfOk result (λ k. IsAbout leaves.now
        (seen program.now rows.now.layout (told rows.now) (slice_get program.now.bodies caller.0) callee)) }
{
    if leaves.len() > u32::MAX as usize {
        return Err(NoMemory);
    }
    let body = program.bodies.at(callee.0 as usize);
    match contract_seen(program, caller, body) {
        Some(contract) => contract_known(alloc, program, callee, body, contract, leaves, names),
        None => row_known(alloc, rows, callee, names),
    }
}
