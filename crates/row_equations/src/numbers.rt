ghost use Rattle.std.specs.Prelude.{◌≡◌, ℕ, ◌+◌, ◌<◌, All, length, IfOk, IfSome};
ghost use Rattle.flow_relations.specs.Framing.{IsFrame, frame_size};
ghost use Rattle.row_equations.specs.Packing.{IsNumber, AreNumbers};

use flow_relations::Frame;
use spark_base::{LeafNo, NoMemory};
use std::alloc::Global;

// The number of a leaf in a frame.
fn number_of(frame: &Frame, leaf: LeafNo) -> Option<u32>
    requires frame { IsFrame frame.now }
    requires leaf { leaf.0 < frame.now.void }
    ensures { IsNumber frame.now leaf.0 result }
{
    let mut low = 0;
    let mut high = size_of(frame);
    while low < high {
        let middle = low + (high - low) / 2;
        if frame.leaf(middle) < leaf.0 {
            low = middle + 1;
        } else {
            high = middle;
        }
    }
    if frame.leaf(low) == leaf.0 {
        Some(low)
    } else {
        None
    }
}

#[tactic(auto, using(crate::proofs::Names::size_most))]
fn size_of(frame: &Frame) -> u32
    requires { IsFrame frame.now }
    ensures { result ≡ frame_size frame.now }
{
    frame.leaves.len() as u32
}

// The numbers of some leaves in a frame.
pub fn numbers_of(
    alloc: Global,
    frame: &Frame,
    outer: &[LeafNo],
) -> Result<Vec<Option<u32>>, NoMemory>
    requires frame { IsFrame frame.now }
    requires leaves { All (λ v. v.0 < frame.now.void) outer.now }
    ensures numbers { IfOk result (λ numbers. AreNumbers frame.now outer.now numbers.items) }
    ensures below { IfOk result (λ numbers. All (λ n. IfSome n (λ k. k < frame_size frame.now + 1)) numbers.items) }
{
    let mut numbers = Vec::new(alloc);
    for leaf in outer {
        numbers.push(number_of(frame, *leaf))?;
    }
    Ok(numbers)
}
