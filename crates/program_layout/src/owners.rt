//! To what leaves belong.
ghost use Rattle.std.specs.Prelude.{◌≡◌, ◌<◌, length, Some};
ghost use Rattle.core_form.specs.Fine.{IsFineHome, IsWellFormed, home_of};

use core_form::{Home, Program};
use spark_base::LeafNo;

/// To what a leaf belongs.
pub fn home_at(program: &Program, leaf: LeafNo) -> Home
    requires fine { IsWellFormed program.now }
    requires leaf { leaf.0 < length program.now.leaves }
    ensures home { home_of program.now leaf.0 ≡ Some result }
    ensures fine { IsFineHome program.now result }
{
    let var = program.leaves.at(leaf.0 as usize).var;
    program.vars.at(var.0 as usize).home
}
