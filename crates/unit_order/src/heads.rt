//! The names of units, and what they with, by numbers.
ghost use Rattle.std.specs.Prelude.{◌≡◌, ◌++◌, [], ◌∷◌, map, IfOk, OnOk};
ghost use Rattle.ada_forms.specs.Forms.{expr_of};
ghost use Rattle.unit_order.specs.Heads as spec;
ghost use Rattle.unit_order.specs.Withs.{withs_of};

use crate::withs::with_names;
use ada_forms::{ExprForm, expr_form};
use ada_tree::{Unit, UnitKind, Units};
use name_keys::KeyTable;
use spark_base::{ExprNo, Items, Name, NoMemory};
use std::alloc::Global;
use unit_names::{Head, Part, Withed};

fn part_of(kind: UnitKind) -> Part
    ensures { result ≡ spec.part_of kind }
{
    match kind {
        UnitKind::Spec { .. } => Part::Spec,
        UnitKind::PackageBody { .. } => Part::Body,
        UnitKind::Main { .. } => Part::Main,
    }
}

fn is_spec(kind: UnitKind) -> bool
    ensures { result ≡ spec.is_spec kind }
{
    match kind {
        UnitKind::Spec { .. } => true,
        UnitKind::PackageBody { .. } | UnitKind::Main { .. } => false,
    }
}

/// The name of a unit, in lower case.
fn key_of(unit: &Unit) -> &[u8]
    ensures { result.now ≡ spec.key_of unit.now }
{
    match &unit.name {
        Some(name) => name.key.as_slice(),
        None => &[],
    }
}

/// Adds the name of a unit, unless it is there.
fn add_name(alloc: Global, keys: &mut KeyTable, unit: &Unit) -> Result<(), NoMemory>
    ensures { OnOk result (keys.new ≡ spec.added keys.old (spec.key_of unit.now)) }
{
    let key = Vec::from_slice(alloc, key_of(unit))?;
    keys.add(key)?;
    Ok(())
}

/// Adds the name of a spec, unless it is there.
fn add_spec(alloc: Global, keys: &mut KeyTable, unit: &Unit) -> Result<(), NoMemory>
    ensures { OnOk result (keys.new ≡ spec.spec_added keys.old unit.now) }
{
    if is_spec(unit.kind) {
        add_name(alloc, keys, unit)?;
    }
    Ok(())
}

fn add_specs(alloc: Global, keys: &mut KeyTable, units: &[Unit]) -> Result<(), NoMemory>
    ensures { OnOk result (keys.new ≡ spec.with_specs keys.old units.now) }
{
    for unit in units {
        add_spec(alloc, keys, unit)?;
    }
    Ok(())
}

fn add_all(alloc: Global, keys: &mut KeyTable, units: &[Unit]) -> Result<(), NoMemory>
    ensures { OnOk result (keys.new ≡ spec.with_all keys.old units.now) }
{
    for unit in units {
        add_name(alloc, keys, unit)?;
    }
    Ok(())
}

/// The names of units, those of specs first.
fn keys_of(alloc: Global, units: &[Unit]) -> Result<KeyTable, NoMemory>
    ensures { IfOk result (λ keys. keys ≡ spec.keys_of units.now) }
{
    let mut keys = KeyTable::new(alloc);
    add_specs(alloc, &mut keys, units)?;
    add_all(alloc, &mut keys, units)?;
    Ok(keys)
}

fn package_or(number: Option<usize>) -> Withed
    ensures { result ≡ spec.package_or number }
{
    match number {
        Some(number) => Withed::Package(number),
        None => Withed::Elsewhere,
    }
}

fn clock_or(units: &Units, name: &Name, prefix: ExprNo) -> Withed
    ensures { result ≡ spec.clock_or name.now (expr_of units.now.exprs prefix) }
{
    match expr_form(units, prefix).form {
        ExprForm::Identifier(first) => {
            if first.key.as_slice() == b"ada".as_slice()
                && name.key.as_slice() == b"real_time".as_slice()
            {
                Withed::Clock
            } else {
                Withed::Elsewhere
            }
        }
        _ => Withed::Elsewhere,
    }
}

fn withed_by(units: &Units, keys: &KeyTable, e: ExprNo) -> Withed
    ensures { result ≡ spec.withed_by keys.now (expr_of units.now.exprs e) }
{
    match expr_form(units, e).form {
        ExprForm::Identifier(name) => package_or(keys.find(name.key.as_slice())),
        ExprForm::Selected { name, prefix } => clock_or(units, name, prefix),
        _ => Withed::Elsewhere,
    }
}

fn all_withed(
    alloc: Global,
    units: &Units,
    keys: &KeyTable,
    names: &[ExprNo],
) -> Result<Items<Withed>, NoMemory>
    ensures { IfOk result (λ withs. withs ≡ map (spec.withed_by keys.now) (map (expr_of units.now.exprs) names.now)) }
{
    let mut withs = Items::new(alloc);
    for name in names {
        withs.push(withed_by(units, keys, *name))?;
    }
    Ok(withs)
}

fn head_of(alloc: Global, units: &Units, keys: &KeyTable, unit: &Unit) -> Result<Head, NoMemory>
    ensures { IfOk result (λ head. head ≡ spec.head_of units.now keys.now unit.now) }
{
    let names = with_names(alloc, units, unit.decls.as_slice())?;
    Ok(Head {
        part: part_of(unit.kind),
        name: keys.find(key_of(unit)).unwrap_or(0),
        withs: all_withed(alloc, units, keys, names.as_slice())?,
    })
}

/// The parts and names of units, and what their with clauses name, in the order of the units. Names are numbered from 0, those of specs
/// first, in the order of the specs: so where no name is declared twice, the number of a package is that of its name.
///
/// It takes the time that the names' lengths take.
pub fn heads_of(alloc: Global, units: &Units) -> Result<Vec<Head>, NoMemory>
    ensures { IfOk result (λ heads. heads.items ≡ spec.heads_of units.now) }
{
    let keys = keys_of(alloc, units.units.as_slice())?;
    let mut heads = Vec::new(alloc);
    for unit in units.units.as_slice() {
        heads.push(head_of(alloc, units, &keys, unit)?)?;
    }
    Ok(heads)
}
