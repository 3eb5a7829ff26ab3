//! What bodies see of their callees: leaves of contracts, or rows.
ghost use Rattle.std.specs.Prelude.{◌≡◌, ℕ, ◌<◌, ◌⊎◌, ◌↔◌, ◌^◌, All, [], false, length, slice_get, slice_index_or, IfOk, IfSome, IsSomeAnd, IsTrue, None, OnOk};
ghost use Rattle.core_form.specs.Fine.{IsFineBody, IsFineContract, IsWellFormed};
ghost use Rattle.call_lists.specs.Lists.{AreLists, Names};
ghost use Rattle.body_calls.specs.Callees.{Calls};
ghost use Rattle.callee_view.specs.Seen.{ContractLeaves, contract_seen, sees_inside};
ghost use Rattle.row_leaves.specs.Leaves.{HasLeaf};
ghost use Rattle.program_layout.specs.Made.{IsSeenInContract, KnowsByContract, SeesNoContract, SeesRow, leaves_by_view};

use crate::holders::{add_body, add_leaves, no_bodies};
use contract_facts::{contract_leaves, contract_seen};
use core_form::{Body, Contract, Program};
use spark_base::{BodyNo, Items, LeafNo, NoMemory, PackageNo};
use std::alloc::Global;

// The leaves of which a contract speaks, where there is one.
fn view_leaves(
    alloc: Global,
    program: &Program,
    body: BodyNo,
    node: &Body,
    contract: &Option<Contract>,
) -> Result<Items<LeafNo>, NoMemory>
    requires fine { IsWellFormed program.now }
    requires node { IsFineBody program.now node.now }
    requires contract { IfSome contract.now (IsFineContract program.now) }
    ensures leaves { IfOk result (λ leaves. (v : ℕ) → HasLeaf leaves v
        ↔ IsSomeAnd contract.now (λ k. ContractLeaves program.now body.0 node.now k v)) }
{
    match contract {
        Some(contract) => contract_leaves(alloc, program, body, node, contract),
        None => Ok(Items::new(alloc)),
    }
}

// Whether a caller stands in the body of a package.
fn sees_inside(program: &Program, caller: BodyNo, of: Option<PackageNo>) -> bool
    requires { caller.0 < length program.now.bodies }
    ensures { result ≡ sees_inside (slice_get program.now.bodies caller.0) of }
{
    let caller = program.bodies.at(caller.0 as usize);
    of.is_some() && caller.package == of && !caller.in_spec
}

// Those leaves of which a caller sees a body speak by a contract.
fn leaves_for<'a>(
    program: &Program,
    caller: BodyNo,
    node: &Body,
    outer: &'a [LeafNo],
    inner: &'a [LeafNo],
) -> &'a [LeafNo]
    requires { caller.0 < length program.now.bodies }
    ensures { result.now ≡ leaves_by_view (sees_inside (slice_get program.now.bodies caller.0) node.now.package)
        node.now.inner outer.now inner.now }
{
    if node.inner.is_some() && sees_inside(program, caller, node.package) {
        inner
    } else {
        outer
    }
}

// Adds callers of a body to the lists of the library leaves of the contract of it that they see.
fn add_viewers(
    alloc: Global,
    program: &Program,
    library: &[bool],
    body: BodyNo,
    callers: &[BodyNo],
    holders: &mut Vec<Items<BodyNo>>,
) -> Result<(), NoMemory>
    requires fine { IsWellFormed program.now }
    requires in_range { body.0 < length program.now.bodies }
    requires callers { All (λ b. b.0 < length program.now.bodies) callers.now }
    requires library { length library.now ≡ length holders.old.items }
    requires below { All (λ list. All (λ b. b.0 < length program.now.bodies) list) holders.old.items }
    ensures size { OnOk result (length holders.new.items ≡ length holders.old.items) }
    ensures below { OnOk result (All (λ list. All (λ b. b.0 < length program.now.bodies) list) holders.new.items) }
    ensures names { OnOk result ((v b : ℕ) → Names (slice_index_or holders.new.items v []) b
        ↔ (Names (slice_index_or holders.old.items v []) b
        ⊎ ((IsTrue (slice_index_or library.now v false) × IsSeenInContract program.now (slice_get program.now.bodies b) body.0 v)
        × Names callers.now b))) }
{
    let node = program.bodies.at(body.0 as usize);
    let outer = view_leaves(alloc, program, body, node, &node.outer)?;
    let inner = view_leaves(alloc, program, body, node, &node.inner)?;
    for caller in callers {
        let leaves = leaves_for(program, *caller, node, outer.as_slice(), inner.as_slice());
        add_leaves(library, leaves, *caller, holders)?;
    }
    Ok(())
}

/// Adds each body to the lists of the library leaves of the contracts of callees that it sees.
pub fn add_contracts(
    alloc: Global,
    program: &Program,
    library: &[bool],
    callers: &[Items<BodyNo>],
    holders: &mut Vec<Items<BodyNo>>,
) -> Result<(), NoMemory>
    requires fine { IsWellFormed program.now }
    requires few { length program.now.bodies < 2 ^ 32 }
    requires lists { AreLists (length program.now.bodies) callers.now }
    requires callers { (b c : ℕ) → Names (slice_index_or callers.now c []) b ↔ Calls program.now b c }
    requires library { length library.now ≡ length holders.old.items }
    requires below { All (λ list. All (λ b. b.0 < length program.now.bodies) list) holders.old.items }
    ensures size { OnOk result (length holders.new.items ≡ length holders.old.items) }
    ensures below { OnOk result (All (λ list. All (λ b. b.0 < length program.now.bodies) list) holders.new.items) }
    ensures names { OnOk result ((v b : ℕ) → Names (slice_index_or holders.new.items v []) b
        ↔ (Names (slice_index_or holders.old.items v []) b
        ⊎ (IsTrue (slice_index_or library.now v false) × KnowsByContract program.now b v))) }
{
    for c in 0..program.bodies.len() as u32 {
        let callers = callers[c as usize].as_slice();
        add_viewers(alloc, program, library, BodyNo(c), callers, holders)?;
    }
    Ok(())
}

// Adds a body to the list of a caller that sees no contract of it.
fn add_if_row(
    program: &Program,
    body: BodyNo,
    node: &Body,
    caller: BodyNo,
    sees: &mut Vec<Items<BodyNo>>,
) -> Result<(), NoMemory>
    requires body { body.0 < length program.now.bodies }
    requires caller { caller.0 < length program.now.bodies }
    requires lists { AreLists (length program.now.bodies) sees.old.items }
    ensures lists { OnOk result (AreLists (length program.now.bodies) sees.new.items) }
    ensures names { OnOk result ((b c : ℕ) → Names (slice_index_or sees.new.items b []) c
        ↔ (Names (slice_index_or sees.old.items b []) c
        ⊎ (((c ≡ body.0) × (contract_seen (slice_get program.now.bodies b) node.now ≡ None)) × (caller.0 ≡ b)))) }
{
    match contract_seen(program, caller, node) {
        None => add_body(sees, caller.0 as usize, body),
        Some(_) => Ok(()),
    }
}

// Adds a body to the lists of those callers that see no contract of it.
fn add_seen_row(
    program: &Program,
    body: BodyNo,
    callers: &[BodyNo],
    sees: &mut Vec<Items<BodyNo>>,
) -> Result<(), NoMemory>
    requires in_range { body.0 < length program.now.bodies }
    requires callers { All (λ b. b.0 < length program.now.bodies) callers.now }
    requires lists { AreLists (length program.now.bodies) sees.old.items }
    ensures lists { OnOk result (AreLists (length program.now.bodies) sees.new.items) }
    ensures names { OnOk result ((b c : ℕ) → Names (slice_index_or sees.new.items b []) c
        ↔ (Names (slice_index_or sees.old.items b []) c
        ⊎ (((c ≡ body.0) × SeesNoContract program.now (slice_get program.now.bodies b) body.0) × Names callers.now b))) }
{
    let node = program.bodies.at(body.0 as usize);
    for caller in callers {
        add_if_row(program, body, node, *caller, sees)?;
    }
    Ok(())
}

/// By body, the callees of which it sees the row, since it sees no contract of them.
pub fn rows_seen(
    alloc: Global,
    program: &Program,
    callers: &[Items<BodyNo>],
) -> Result<Vec<Items<BodyNo>>, NoMemory>
    requires few { length program.now.bodies < 2 ^ 32 }
    requires lists { AreLists (length program.now.bodies) callers.now }
    requires callers { (b c : ℕ) → Names (slice_index_or callers.now c []) b ↔ Calls program.now b c }
    ensures lists { IfOk result (λ v. AreLists (length program.now.bodies) v.items) }
    ensures names { IfOk result (λ v. (b c : ℕ) → Names (slice_index_or v.items b []) c ↔ SeesRow program.now b c) }
{
    let mut sees = no_bodies(alloc, program.bodies.len())?;
    for c in 0..program.bodies.len() as u32 {
        add_seen_row(
            program,
            BodyNo(c),
            callers[c as usize].as_slice(),
            &mut sees,
        )?;
    }
    Ok(sees)
}
