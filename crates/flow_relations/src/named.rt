ghost use Rattle.std.specs.Prelude.{◌≡◌, ℕ, ◌+◌, ◌<◌, ◌⊎◌, ◌↔◌, length, IfOk, IsSomeAnd, IsTrue};
ghost use Rattle.core_form.specs.Fine.{HasFineNodes, IsWellFormed, home_of};
ghost use Rattle.flow_bits.specs.Sets.{Has, Tells, either};
ghost use Rattle.flow_relations.specs.Equation.{clock_among, code_of_body, names_of};
ghost use Rattle.flow_relations.specs.Framing.{IsFramingOf, IsOwn};

use crate::frame::{Framing, Places, frame_from};
use crate::names::add_names;
use core_form::{Home, Program};
use flow_bits::Row;
use spark_base::{BodyNo, LeafNo, NoMemory};
use std::alloc::Global;

/// The number of leaves, which stands for "not assigned".
pub fn void_of(program: &Program) -> u32
    requires { HasFineNodes program.now }
    ensures { result ≡ length program.now.leaves }
{
    program.leaves.len() as u32
}

/// The leaves that the code of a body names.
pub fn names_row(alloc: Global, program: &Program, body: BodyNo) -> Result<Row, NoMemory>
    requires fine { IsWellFormed program.now }
    requires in_range { body.0 < length program.now.bodies }
    ensures size { IfOk result (λ row. length row ≡ length program.now.leaves + 1) }
    ensures set { IfOk result (λ row. Tells row (names_of (clock_among program.now.vars) (code_of_body program.now body.0))) }
    ensures last { IfOk result (λ row. Has row (length program.now.leaves) → ⊥) }
{
    let mut row = Row::new(alloc, void_of(program) + 1)?;
    let own = Places::own(alloc, void_of(program));
    let code = program.bodies.at(body.0 as usize).code;
    add_names(program, &own, code, &mut row);
    Ok(row)
}

// Whether a leaf is a local's, a formal's, the result's or a spare's of a body.
fn is_own(program: &Program, body: BodyNo, leaf: LeafNo) -> bool
    requires fine { IsWellFormed program.now }
    requires leaf { leaf.0 < length program.now.leaves }
    ensures { IsTrue result ↔ IsSomeAnd (home_of program.now leaf.0) (IsOwn body.0) }
{
    let var = program.leaves.at(leaf.0 as usize).var;
    match program.vars.at(var.0 as usize).home {
        Home::Local(of) | Home::Formal(of) | Home::Outcome(of) | Home::Spare(of) => of == body,
        Home::Package(_) | Home::Clock => false,
    }
}

// Adds a leaf where it is one of a body's own.
fn add_if_own(program: &Program, body: BodyNo, leaf: LeafNo, into: &mut Row)
    requires fine { IsWellFormed program.now }
    requires leaf { leaf.0 < length program.now.leaves }
    requires size { length into.old ≡ length program.now.leaves + 1 }
    ensures size { length into.new ≡ length into.old }
    ensures set { Tells into.new (λ v. Has into.old v ⊎ ((v ≡ leaf.0) × IsSomeAnd (home_of program.now v) (IsOwn body.0))) }
{
    if is_own(program, body, leaf) {
        into.add(leaf.0);
    }
}

/// Adds a body's own leaves.
pub fn add_own(program: &Program, body: BodyNo, into: &mut Row)
    requires fine { IsWellFormed program.now }
    requires size { length into.old ≡ length program.now.leaves + 1 }
    ensures size { length into.new ≡ length into.old }
    ensures set { Tells into.new (either into.old (λ v. IsSomeAnd (home_of program.now v) (IsOwn body.0))) }
{
    for leaf in 0..void_of(program) {
        add_if_own(program, body, LeafNo(leaf), into);
    }
}

/// The frame of a body: the leaves that its code names, and its own. The first leaf of the program is always in it, so
/// that each leaf can be given a number.
pub fn frame_of(alloc: Global, program: &Program, body: BodyNo) -> Result<Framing, NoMemory>
    requires fine { IsWellFormed program.now }
    requires in_range { body.0 < length program.now.bodies }
    ensures { IfOk result (IsFramingOf program.now body.0) }
{
    let mut inside = names_row(alloc, program, body)?;
    add_own(program, body, &mut inside);
    inside.add(0);
    frame_from(alloc, &inside, void_of(program))
}
