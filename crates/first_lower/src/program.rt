ghost use Rattle.std.specs.Prelude.{◌≡◌, ◌+◌, ◌++◌, ◌<◌, ◌^◌, [], ◌∷◌, length, IfOk, OnOk};
ghost use Rattle.core_form.specs.Fine.{IsWellFormed};
ghost use Rattle.core_form.specs.Proper.{IsProper};
ghost use Rattle.first_conditions.specs.Conditions.{MeetsConditions, variable_keys};
ghost use Rattle.first_lower.specs.Lowered.{IsLowered, elaboration, low_procedure, low_package, assignments_of};
ghost use Rattle.first_conditions.specs.Conditions.{entries_of};
ghost use Rattle.first_path.specs.Nested.{AreNested};
ghost use Rattle.core_form.specs.Fine.{AreFineNodes};
ghost use Rattle.first_lower.specs.Assembled.{HasRoots, IsAssembled, bodies_of};
ghost use Rattle.first_lower.specs.Known.{Each, KnownEntry, KnownLine};
ghost use Rattle.first_lower.specs.Steps.{Adds};

use crate::code::{add_lines, add_sequence, add_variables};
use crate::contract::contract;
use crate::tables::{dotted, items, leaves, vars};
use core_form::{Body, BodyKind, Nodes, Package, Program, States};
use first_conditions::KeyTable;
use first_path::{Line, Source, Word};
use spark_base::{BodyNo, Bytes, Items, NoMemory, PackageNo, Span, StmtNo};
use std::alloc::Global;

/// The elaboration of the spec or the body of the package.
fn elaboration(
    alloc: Global,
    home: &Word,
    at: &Word,
    code: StmtNo,
    in_spec: bool,
) -> Result<Body, NoMemory>
    ensures { IfOk result (λ b. b ≡ elaboration home.now at.now code in_spec) }
{
    Ok(Body {
        name: Bytes::from_slice(alloc, home.written.as_slice())?,
        place: at.span,
        declared: at.span,
        kind: BodyKind::Elaboration,
        package: Some(PackageNo(0)),
        object: None,
        formals: Items::new(alloc),
        code,
        outer: None,
        inner: None,
        in_spec,
    })
}

/// The body of the procedure, with its contract.
fn procedure(
    alloc: Global,
    source: &Source,
    table: &KeyTable,
    code: StmtNo,
) -> Result<Body, NoMemory>
    requires known { Each (KnownEntry table.now) (entries_of source.now.spec.procedure.global) }
    requires room { length table.now < 2 ^ 32 }
    ensures { IfOk result (λ b. b ≡ low_procedure table.now source.now code) }
{
    let spec = &source.spec;
    let outer = contract(alloc, table, &spec.procedure.aspect, &spec.procedure.global)?;
    Ok(Body {
        name: dotted(alloc, &spec.package, &spec.procedure.name)?,
        place: source.body.procedure.name.span,
        declared: spec.procedure.name.span,
        kind: BodyKind::Procedure,
        package: Some(PackageNo(0)),
        object: None,
        formals: Items::new(alloc),
        code,
        outer: Some(outer),
        inner: None,
        in_spec: false,
    })
}

/// The package.
fn package(alloc: Global, home: &Word) -> Result<Package, NoMemory>
    ensures { IfOk result (λ p. p ≡ low_package home.now) }
{
    Ok(Package {
        name: Bytes::from_slice(alloc, home.written.as_slice())?,
        place: home.span,
        has_states: false,
        initial: None,
        initial_place: None,
    })
}

/// Adds the place of an assignment.
fn append_place(list: &mut Items<Span>, line: &Line) -> Result<(), NoMemory>
    ensures { OnOk result (list.new ≡ list.old ++ assignments_of (line.now ∷ [])) }
{
    match line {
        Line::Assign { target, .. } => list.push(target.span),
        Line::Null | Line::If(_) | Line::Else | Line::EndIf => Ok(()),
    }
}

/// The places of the assignments.
fn assignments(alloc: Global, lines: &[Line]) -> Result<Items<Span>, NoMemory>
    ensures { IfOk result (λ l. l ≡ assignments_of lines.now) }
{
    let mut list = Items::new(alloc);
    for line in lines {
        append_place(&mut list, line)?;
    }
    Ok(list)
}

/// A list of one.
fn one<T: Drop>(alloc: Global, item: T) -> Result<Items<T>, NoMemory>
    ensures { IfOk result (λ l. l ≡ item ∷ []) }
{
    let mut list = Items::new(alloc);
    list.push(item)?;
    Ok(list)
}

/// The elaborations, in their order.
fn order(alloc: Global) -> Result<Items<BodyNo>, NoMemory>
    ensures { IfOk result (λ l. l ≡ record { 0 = 0 } ∷ record { 0 = 1 } ∷ []) }
{
    let mut list = Items::new(alloc);
    list.push(BodyNo(0))?;
    list.push(BodyNo(1))?;
    Ok(list)
}

/// The codes of the three bodies.
#[derive(Clone, Copy, Debug, PartialEq, Eq)]
struct Roots {
    spec: StmtNo,
    body: StmtNo,
    procedure: StmtNo,
}

/// Adds the codes of the bodies.
fn add_code(
    alloc: Global,
    nodes: &mut Nodes,
    source: &Source,
    table: &KeyTable,
) -> Result<Roots, NoMemory>
    requires fine { AreFineNodes nodes.old }
    requires leaves { nodes.old.leaves ≡ length source.now.spec.variables }
    requires table { length table.now ≡ length source.now.spec.variables }
    requires known { Each (KnownLine table.now) source.now.body.procedure.lines }
    ensures adds { OnOk result (Adds nodes.old nodes.new) }
    ensures roots { IfOk result (λ r. HasRoots source.now table.now nodes.new r) }
{
    let spec = add_variables(alloc, nodes, source.spec.variables.as_slice())?;
    let body = add_sequence(nodes, Items::new(alloc))?;
    let procedure = add_lines(alloc, nodes, table, source.body.procedure.lines.as_slice())?;
    Ok(Roots {
        spec,
        body,
        procedure,
    })
}

/// The bodies: the elaborations of spec and body, and the procedure.
fn bodies(
    alloc: Global,
    source: &Source,
    table: &KeyTable,
    roots: &Roots,
) -> Result<Items<Body>, NoMemory>
    requires known { Each (KnownEntry table.now) (entries_of source.now.spec.procedure.global) }
    requires room { length table.now < 2 ^ 32 }
    ensures { IfOk result (λ l. l ≡ bodies_of source.now table.now roots.now) }
{
    let home = &source.spec.package;
    let mut list = Items::new(alloc);
    list.push(elaboration(alloc, home, home, roots.spec, true)?)?;
    list.push(elaboration(alloc, home, &source.body.package, roots.body, false)?)?;
    list.push(procedure(alloc, source, table, roots.procedure)?)?;
    Ok(list)
}

/// The program of these nodes.
fn assemble(
    alloc: Global,
    source: &Source,
    table: &KeyTable,
    nodes: Nodes,
    roots: &Roots,
) -> Result<Program, NoMemory>
    requires known { Each (KnownEntry table.now) (entries_of source.now.spec.procedure.global) }
    requires room { length table.now < 2 ^ 32 }
    requires variables { length source.now.spec.variables < 2 ^ 32 }
    ensures { IfOk result (λ p. IsAssembled source.now table.now nodes roots.now p) }
{
    let home = &source.spec.package;
    let variables = source.spec.variables.as_slice();
    let Nodes { exprs, stmts, .. } = nodes;
    Ok(Program {
        leaves: leaves(alloc, home, variables)?,
        vars: vars(alloc, home, variables)?,
        items: items(alloc, variables)?,
        bodies: bodies(alloc, source, table, roots)?,
        packages: one(alloc, package(alloc, home)?)?,
        states: States {
            list: Items::new(alloc),
        },
        objects: Items::new(alloc),
        tasks: Items::new(alloc),
        order: order(alloc)?,
        main: None,
        stmts,
        exprs,
        part_of: Items::new(alloc),
        constituents: Items::new(alloc),
        assignments: assignments(alloc, source.body.procedure.lines.as_slice())?,
    })
}

/// The core program of a source. `table` has the keys of its variables. 2^32 - 1 variables or more, 2^32 expressions or
/// statements or more, and no room for what is made are want of memory.
pub fn lower(alloc: Global, source: &Source, table: &KeyTable) -> Result<Program, NoMemory>
    requires nested { AreNested source.now.body.procedure.lines }
    requires conditions { MeetsConditions source.now }
    requires table { table.now ≡ variable_keys source.now.spec.variables }
    ensures lowered { IfOk result (IsLowered source.now) }
    ensures fine { IfOk result IsWellFormed }
    ensures proper { IfOk result IsProper }
{
    let count = source.spec.variables.len();
    if count >= u32::MAX as usize {
        return Err(NoMemory);
    }
    let mut nodes = Nodes::new(alloc, count as u32);
    let roots = add_code(alloc, &mut nodes, source, table)?;
    let program = assemble(alloc, source, table, nodes, &roots)?;
    Ok(program)
}
