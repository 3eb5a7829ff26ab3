ghost use Rattle.std.specs.Prelude.{◌≡◌, ◌+◌, ◌<◌, ◌^◌, IfOk, length, map, slice_index_or};
ghost use Rattle.spark_base.specs.declared.numbers.LeafNo.{LeafNo};
ghost use Rattle.call_flow.specs.Calls.{stands};

use spark_base::{LeafNo, NoMemory};
use std::alloc::Global;

/// The name of a leaf of a callee in a call: leaves that are passed stand from `void` on, in their order, and others
/// under their numbers in this list; a leaf behind the last of these is its own number.
pub fn name_in_call(numbers: &[u32], void: u32, passed: &[LeafNo], leaf: LeafNo) -> u32
    requires room { void + length passed.now < 2 ^ 32 }
    ensures { result ≡ stands (λ v. slice_index_or numbers.now v v) void passed.now leaf.0 }
{
    for (i, other) in passed.iter().enumerate() {
        if *other == leaf {
            return void + i as u32;
        }
    }
    match numbers.get(leaf.0 as usize) {
        Some(number) => *number,
        None => leaf.0,
    }
}

/// The names of leaves of a callee in a call.
pub fn names_in_call(
    alloc: Global,
    numbers: &[u32],
    void: u32,
    passed: &[LeafNo],
    leaves: &[LeafNo],
) -> Result<Vec<u32>, NoMemory>
    requires room { void + length passed.now < 2 ^ 32 }
    ensures { IfOk result (λ names. names.items
        ≡ map (λ (leaf : LeafNo). stands (λ v. slice_index_or numbers.now v v) void passed.now leaf.0) leaves.now) }
{
    let mut names = Vec::new(alloc);
    for leaf in leaves {
        names.push(name_in_call(numbers, void, passed, *leaf))?;
    }
    Ok(names)
}
