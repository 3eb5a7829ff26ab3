ghost use Rattle.std.specs.Prelude.{◌≡◌, ℕ, ◌<◌, ◌^◌, IfOk, length};
ghost use Rattle.flow_bits.specs.Sets.{Tells};
ghost use Rattle.core_form.specs.Fine.{IsFineBody, IsFineContract, IsWellFormed};
ghost use Rattle.summary_rows.specs.Layout.{IsAt, IsIncreasing};
ghost use Rattle.callee_view.specs.Seen.{ContractLeaves, ContractLoses, contract_told};
ghost use Rattle.callee_view.specs.Shown.{AreKnownSized, IsAbout, Shows, leaf_at};
ghost use Rattle.contract_facts.specs.Uses.{UsedBy};

use crate::pairs::{add_unwritten, pairs_by};
use crate::places::{leaves_of, places_in};
use crate::sets::used_by;
use crate::uses::Use;
use call_flow::Known;
use core_form::{Body, Contract, Program};
use flow_bits::Row;
use spark_base::{BodyNo, Items, LeafNo, NoMemory};
use std::alloc::Global;

/// The leaves of which a contract of a body speaks, in increasing order.
pub fn contract_leaves(
    alloc: Global,
    program: &Program,
    body: BodyNo,
    node: &Body,
    contract: &Contract,
) -> Result<Items<LeafNo>, NoMemory>
    requires fine { IsWellFormed program.now }
    requires node { IsFineBody program.now node.now }
    requires contract { IsFineContract program.now contract.now }
    ensures increasing { IfOk result IsIncreasing }
    ensures below { IfOk result (λ leaves. (v i : ℕ) → IsAt leaves v i → v < length program.now.leaves) }
    ensures about { IfOk result (λ leaves. IsAbout leaves (contract_told program.now body.0 node.now contract.now)) }
{
    let named = used_by(alloc, program, body, node, contract, Use::Names)?;
    let leaves = leaves_of(alloc, &named)?;
    Ok(leaves)
}

// The places of the leaves of a contract that are used so.
fn used_places(
    alloc: Global,
    program: &Program,
    body: BodyNo,
    node: &Body,
    contract: &Contract,
    leaves: &[LeafNo],
    wanted: Use,
) -> Result<Row, NoMemory>
    requires fine { IsWellFormed program.now }
    requires node { IsFineBody program.now node.now }
    requires contract { IsFineContract program.now contract.now }
    requires room { length leaves.now < 2 ^ 32 }
    ensures size { IfOk result (λ row. length row ≡ length leaves.now) }
    ensures set { IfOk result (λ row. Tells row (λ i. (i < length leaves.now)
        × UsedBy program.now body.0 node.now contract.now wanted (leaf_at leaves.now i))) }
{
    let set = used_by(alloc, program, body, node, contract, wanted)?;
    let row = places_in(alloc, &set, leaves)?;
    Ok(row)
}

// The places of the leaves of a contract that may hold their entry value.
fn kept_places(
    alloc: Global,
    program: &Program,
    body: BodyNo,
    node: &Body,
    contract: &Contract,
    leaves: &[LeafNo],
) -> Result<Row, NoMemory>
    requires fine { IsWellFormed program.now }
    requires node { IsFineBody program.now node.now }
    requires contract { IsFineContract program.now contract.now }
    requires room { length leaves.now < 2 ^ 32 }
    ensures size { IfOk result (λ row. length row ≡ length leaves.now) }
    ensures set { IfOk result (λ row. Tells row (λ i. (i < length leaves.now)
        × (ContractLeaves program.now body.0 node.now contract.now (leaf_at leaves.now i)
        × (ContractLoses program.now body.0 node.now contract.now (leaf_at leaves.now i) → ⊥)))) }
{
    let mut kept = used_places(alloc, program, body, node, contract, leaves, Use::Names)?;
    let lost = used_places(alloc, program, body, node, contract, leaves, Use::Loses)?;
    kept.minus_into(&lost);
    Ok(kept)
}

/// The facts of a contract of a body, where the leaves of which it speaks have these names. It returns, and what it does not
/// write depends on itself.
pub fn contract_known(
    alloc: Global,
    program: &Program,
    body: BodyNo,
    node: &Body,
    contract: &Contract,
    leaves: &[LeafNo],
    names: Vec<u32>,
) -> Result<Known, NoMemory>
    requires fine { IsWellFormed program.now }
    requires node { IsFineBody program.now node.now }
    requires contract { IsFineContract program.now contract.now }
    requires room { length leaves.now < 2 ^ 32 }
    requires increasing { IsIncreasing leaves.now }
    requires about { IsAbout leaves.now (contract_told program.now body.0 node.now contract.now) }
    requires names { length names.items ≡ length leaves.now }
    ensures names { IfOk result (λ k. k.names.items ≡ names.items) }
    ensures size { IfOk result (λ k. AreKnownSized (length leaves.now) k) }
    ensures shows { IfOk result (λ k. Shows leaves.now k (contract_told program.now body.0 node.now contract.now)) }
{
    let reads = used_places(alloc, program, body, node, contract, leaves, Use::Reads)?;
    let writes = used_places(alloc, program, body, node, contract, leaves, Use::Writes)?;
    let keeps = kept_places(alloc, program, body, node, contract, leaves)?;
    let mut depends = pairs_by(alloc, program, contract, leaves, &reads, &writes)?;
    add_unwritten(&writes, &mut depends);
    Ok(Known {
        names,
        returns: true,
        reads,
        writes,
        keeps,
        depends,
    })
}
