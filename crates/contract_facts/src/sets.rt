ghost use Rattle.std.specs.Prelude.{◌≡◌, ◌<◌, ◌⊎◌, ◌↔◌, true, All, IfOk, IfSome, IsSomeAnd, IsTrue, length};
ghost use Rattle.core_form.specs.Fine.{IsFineBody, IsFineContract, IsFinePair, IsWellFormed};
ghost use Rattle.core_form.specs.Leaves.{IsLeafOfVar};
ghost use Rattle.flow_bits.specs.Sets.{Has, Tells, either};
ghost use Rattle.callee_view.specs.Seen.{IsFormalLeaf, IsGlobalLeaf, IsLeafOfItem, IsOwnLeaf, IsPairLeaf, IsResultLeaf};
ghost use Rattle.contract_facts.specs.Uses.{UsedBeside, UsedBy, formal_test, mode_test};

use crate::uses::{Use, formal_test, mode_test};
use core_form::{Body, BodyKind, Contract, DependsPair, Formal, GlobalItem, Home, Item, Program};
use flow_bits::Row;
use spark_base::{BodyNo, ItemNo, LeafNo, NoMemory};
use state_map::expand;
use std::alloc::Global;

/// Adds the leaves of an item.
pub fn add_item(program: &Program, item: ItemNo, into: &mut Row)
    requires fine { IsWellFormed program.now }
    requires item { item.0 < length program.now.items }
    requires size { length into.old ≡ length program.now.leaves }
    ensures size { length into.new ≡ length into.old }
    ensures set { Tells into.new (either into.old (IsLeafOfItem program.now item)) }
{
    expand(program, *program.items.at(item.0 as usize), into);
}

// Adds the leaves of an item of a Global, where it is used so.
fn add_global(program: &Program, wanted: Use, global: &GlobalItem, into: &mut Row)
    requires fine { IsWellFormed program.now }
    requires item { global.now.item.0 < length program.now.items }
    requires size { length into.old ≡ length program.now.leaves }
    ensures size { length into.new ≡ length into.old }
    ensures set { Tells into.new (λ v. Has into.old v ⊎ ((mode_test wanted global.now.mode ≡ true) × IsLeafOfItem program.now global.now.item v)) }
{
    if mode_test(wanted, global.mode) {
        add_item(program, global.item, into);
    }
}

// Adds the leaves of the items of a Global that are used so.
fn add_globals(program: &Program, wanted: Use, globals: &[GlobalItem], into: &mut Row)
    requires fine { IsWellFormed program.now }
    requires items { All (λ g. g.item.0 < length program.now.items) globals.now }
    requires size { length into.old ≡ length program.now.leaves }
    ensures size { length into.new ≡ length into.old }
    ensures set { Tells into.new (either into.old (IsGlobalLeaf program.now (mode_test wanted) globals.now)) }
{
    for global in globals {
        add_global(program, wanted, global, into);
    }
}

// Adds the leaves of a formal, where it is used so.
fn add_formal(program: &Program, wanted: Use, formal: &Formal, into: &mut Row)
    requires fine { IsWellFormed program.now }
    requires var { formal.now.var.0 < length program.now.vars }
    requires size { length into.old ≡ length program.now.leaves }
    ensures size { length into.new ≡ length into.old }
    ensures set { Tells into.new (λ v. Has into.old v ⊎ ((formal_test wanted formal.now.mode ≡ true) × IsLeafOfVar program.now formal.now.var.0 v)) }
{
    if formal_test(wanted, formal.mode) {
        expand(program, Item::Whole(formal.var), into);
    }
}

// Adds the leaves of the formals that are used so.
fn add_formals(program: &Program, wanted: Use, formals: &[Formal], into: &mut Row)
    requires fine { IsWellFormed program.now }
    requires vars { All (λ f. f.var.0 < length program.now.vars) formals.now }
    requires size { length into.old ≡ length program.now.leaves }
    ensures size { length into.new ≡ length into.old }
    ensures set { Tells into.new (either into.old (IsFormalLeaf program.now (formal_test wanted) formals.now)) }
{
    for formal in formals {
        add_formal(program, wanted, formal, into);
    }
}

// Whether a leaf is one of a body's result.
fn is_result(program: &Program, body: BodyNo, leaf: LeafNo) -> bool
    requires fine { IsWellFormed program.now }
    requires leaf { leaf.0 < length program.now.leaves }
    ensures { IsTrue result ↔ IsResultLeaf program.now body.0 leaf.0 }
{
    let var = program.leaves.at(leaf.0 as usize).var;
    match program.vars.at(var.0 as usize).home {
        Home::Outcome(of) => of == body,
        Home::Package(_) | Home::Local(_) | Home::Formal(_) | Home::Spare(_) | Home::Clock => false,
    }
}

// Adds a leaf, where it is one of a body's result.
fn add_if_result(program: &Program, body: BodyNo, leaf: LeafNo, into: &mut Row)
    requires fine { IsWellFormed program.now }
    requires leaf { leaf.0 < length program.now.leaves }
    requires size { length into.old ≡ length program.now.leaves }
    ensures size { length into.new ≡ length into.old }
    ensures set { Tells into.new (λ v. Has into.old v ⊎ ((v ≡ leaf.0) × IsResultLeaf program.now body.0 v)) }
{
    if is_result(program, body, leaf) {
        into.add(leaf.0);
    }
}

// Adds the leaves of a body's result.
fn add_result(program: &Program, body: BodyNo, into: &mut Row)
    requires fine { IsWellFormed program.now }
    requires size { length into.old ≡ length program.now.leaves }
    ensures size { length into.new ≡ length into.old }
    ensures set { Tells into.new (either into.old (IsResultLeaf program.now body.0)) }
{
    for leaf in 0..into.size() {
        add_if_result(program, body, LeafNo(leaf), into);
    }
}

// Adds the leaves of the object to which an operation belongs.
fn add_object(program: &Program, node: &Body, into: &mut Row)
    requires fine { IsWellFormed program.now }
    requires object { IfSome node.now.object (λ o. o.0 < length program.now.objects) }
    requires size { length into.old ≡ length program.now.leaves }
    ensures size { length into.new ≡ length into.old }
    ensures set { Tells into.new (either into.old (IsOwnLeaf program.now node.now)) }
{
    if let Some(object) = node.object {
        expand(program, Item::Guard(object), into);
    }
}

/// Adds the leaves of an end of a pair.
pub fn add_end(program: &Program, item: Option<ItemNo>, into: &mut Row)
    requires fine { IsWellFormed program.now }
    requires item { IfSome item (λ i. i.0 < length program.now.items) }
    requires size { length into.old ≡ length program.now.leaves }
    ensures size { length into.new ≡ length into.old }
    ensures set { Tells into.new (λ v. Has into.old v ⊎ IsSomeAnd item (λ i. IsLeafOfItem program.now i v)) }
{
    if let Some(item) = item {
        add_item(program, item, into);
    }
}

// Adds the leaves of both ends of pairs.
fn add_ends(program: &Program, pairs: &[DependsPair], into: &mut Row)
    requires fine { IsWellFormed program.now }
    requires pairs { All (IsFinePair program.now) pairs.now }
    requires size { length into.old ≡ length program.now.leaves }
    ensures size { length into.new ≡ length into.old }
    ensures set { Tells into.new (either into.old (IsPairLeaf program.now pairs.now)) }
{
    for pair in pairs {
        add_end(program, pair.output, into);
        add_end(program, pair.input, into);
    }
}

// Adds the leaves of the pairs of a Depends, where there is one.
fn add_depends(program: &Program, contract: &Contract, into: &mut Row)
    requires fine { IsWellFormed program.now }
    requires contract { IsFineContract program.now contract.now }
    requires size { length into.old ≡ length program.now.leaves }
    ensures size { length into.new ≡ length into.old }
    ensures set { Tells into.new (λ v. Has into.old v ⊎ IsSomeAnd contract.now.depends (λ pairs. IsPairLeaf program.now pairs v)) }
{
    if let Some(pairs) = &contract.depends {
        add_ends(program, pairs.as_slice(), into);
    }
}

// Adds the leaves that are used so beside those of a Global and of formals.
fn add_others(
    program: &Program,
    body: BodyNo,
    node: &Body,
    contract: &Contract,
    wanted: Use,
    into: &mut Row,
)
    requires fine { IsWellFormed program.now }
    requires node { IsFineBody program.now node.now }
    requires contract { IsFineContract program.now contract.now }
    requires size { length into.old ≡ length program.now.leaves }
    ensures size { length into.new ≡ length into.old }
    ensures set { Tells into.new (either into.old (UsedBeside program.now body.0 node.now contract.now wanted)) }
{
    match wanted {
        Use::Reads => add_object(program, node, into),
        Use::Loses => add_result(program, body, into),
        Use::Writes => {
            add_result(program, body, into);
            if node.kind != BodyKind::Function {
                add_object(program, node, into);
            }
        }
        Use::Names => {
            add_result(program, body, into);
            add_object(program, node, into);
            add_depends(program, contract, into);
        }
    }
}

/// The leaves of a contract of a body that are used so.
pub fn used_by(
    alloc: Global,
    program: &Program,
    body: BodyNo,
    node: &Body,
    contract: &Contract,
    wanted: Use,
) -> Result<Row, NoMemory>
    requires fine { IsWellFormed program.now }
    requires node { IsFineBody program.now node.now }
    requires contract { IsFineContract program.now contract.now }
    ensures size { IfOk result (λ row. length row ≡ length program.now.leaves) }
    ensures set { IfOk result (λ row. Tells row (UsedBy program.now body.0 node.now contract.now wanted)) }
{
    let mut row = Row::new(alloc, program.leaves.len() as u32)?;
    add_globals(program, wanted, contract.globals.as_slice(), &mut row);
    add_formals(program, wanted, node.formals.as_slice(), &mut row);
    add_others(program, body, node, contract, wanted, &mut row);
    Ok(row)
}
