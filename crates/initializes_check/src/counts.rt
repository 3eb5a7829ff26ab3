ghost use Rattle.std.specs.Prelude.{◌≡◌, ℕ, ◌↔◌, IfOk, IsTrue, length};
ghost use Rattle.core_form.specs.Fine.{IsFineItem, IsWellFormed};
ghost use Rattle.core_form.specs.Leaves.{IsLeafOf};
ghost use Rattle.flow_bits.specs.Sets.{Has, Tells};
ghost use Rattle.used_modes.specs.UsedModes.{SomeLeaf};

use core_form::{Item, Program};
use flow_bits::Row;
use spark_base::NoMemory;
use state_map::expand;
use std::alloc::Global;

// A length as a number of elements. 2^32 or more are want of memory.
pub fn count_of(length: usize) -> Result<u32, NoMemory>
    ensures { IfOk result (λ n. n ≡ length) }
{
    if length > u32::MAX as usize {
        return Err(NoMemory);
    }
    Ok(length as u32)
}

// A set of leaves that has none yet.
pub fn no_leaves(alloc: Global, program: &Program) -> Result<Row, NoMemory>
    requires fine { IsWellFormed program.now }
    ensures size { IfOk result (λ row. length row ≡ length program.now.leaves) }
    ensures empty { IfOk result (λ row. Tells row (λ v. ⊥)) }
{
    Row::new(alloc, program.leaves.len() as u32)
}

fn leaves_of(alloc: Global, program: &Program, item: Item) -> Result<Row, NoMemory>
    requires fine { IsWellFormed program.now }
    requires item { IsFineItem program.now item }
    ensures size { IfOk result (λ row. length row ≡ length program.now.leaves) }
    ensures set { IfOk result (λ row. Tells row (IsLeafOf program.now item)) }
{
    let mut leaves = no_leaves(alloc, program)?;
    expand(program, item, &mut leaves);
    Ok(leaves)
}

// Whether some leaf of an item is in a set.
pub fn has_some(alloc: Global, program: &Program, item: Item, set: &Row) -> Result<bool, NoMemory>
    requires fine { IsWellFormed program.now }
    requires item { IsFineItem program.now item }
    requires size { length set.now ≡ length program.now.leaves }
    ensures { IfOk result (λ found. IsTrue found ↔ SomeLeaf program.now item (Has set.now)) }
{
    let leaves = leaves_of(alloc, program, item)?;
    Ok(leaves.meets(set))
}

// Whether an item has leaves.
pub fn has_any(alloc: Global, program: &Program, item: Item) -> Result<bool, NoMemory>
    requires fine { IsWellFormed program.now }
    requires item { IsFineItem program.now item }
    ensures { IfOk result (λ found. IsTrue found ↔ ((leaf : ℕ) × IsLeafOf program.now item leaf)) }
{
    let leaves = leaves_of(alloc, program, item)?;
    Ok(leaves.meets(&leaves))
}
