ghost use Rattle.std.specs.Prelude.{ℕ, ◌≡◌, ◌+◌, ◌<◌, ◌≤◌, ◌^◌, All, length};
ghost use Rattle.core_form.specs.Fine.{IsFineItem, IsWellFormed};
ghost use Rattle.flow_bits.specs.Sets.{Tells, either};
ghost use Rattle.core_form.specs.Leaves.{IsLeafOf, IsLeafOfSome, IsLeafOfVar};

use core_form::{Item, Program};
use flow_bits::Row;
use spark_base::VarNo;

/// Adds so many leaves, from one on.
fn add_run(from: u32, count: u32, into: &mut Row)
    requires within { from + count ≤ length into.old }
    requires room { length into.old < 2 ^ 32 }
    ensures size { length into.new ≡ length into.old }
    ensures set { Tells into.new (either into.old (λ leaf. (from ≤ leaf) × (leaf < from + count))) }
{
    for leaf in from..from + count {
        into.add(leaf);
    }
}

fn add_var(program: &Program, var: VarNo, into: &mut Row)
    requires fine { IsWellFormed program.now }
    requires in_range { var.0 < length program.now.vars }
    requires size { length into.old ≡ length program.now.leaves }
    ensures size { length into.new ≡ length into.old }
    ensures set { Tells into.new (either into.old (IsLeafOfVar program.now var.0)) }
{
    let var = program.vars.at(var.0 as usize);
    add_run(var.from.0, var.count, into);
}

fn add_vars(program: &Program, vars: &[VarNo], into: &mut Row)
    requires fine { IsWellFormed program.now }
    requires in_range { All (λ v. v.0 < length program.now.vars) vars.now }
    requires size { length into.old ≡ length program.now.leaves }
    ensures size { length into.new ≡ length into.old }
    ensures set { Tells into.new (either into.old (IsLeafOfSome program.now vars.now)) }
{
    for var in vars {
        add_var(program, *var, into);
    }
}

/// Adds the leaves of an item: those of a variable or formal, of all constituents of a state, or of all components of
/// an object. It takes no memory.
pub fn expand(program: &Program, item: Item, into: &mut Row)
    requires fine { IsWellFormed program.now }
    requires item { IsFineItem program.now item }
    requires size { length into.old ≡ length program.now.leaves }
    ensures size { length into.new ≡ length into.old }
    ensures set { Tells into.new (either into.old (IsLeafOf program.now item)) }
{
    match item {
        Item::Whole(var) => add_var(program, var, into),
        Item::State(state) => {
            let state = program.states.list.at(state as usize);
            add_vars(program, state.variables.as_slice(), into);
        }
        Item::Guard(object) => {
            let object = program.objects.at(object.0 as usize);
            add_var(program, object.var, into);
        }
    }
}
