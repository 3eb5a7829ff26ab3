//! The packages of units, and the units of packages.
ghost use Rattle.std.specs.Prelude.{◌≡◌, ◌++◌, ℕ, Some, if◌then◌else◌, nat_eq, IfOk, OnOk};
ghost use Rattle.std.specs.Option.{option_copied};
ghost use Rattle.unit_order.specs.Packages as spec;
ghost use Rattle.unit_order.specs.Places.{AreTables, IsTable, got};

use package_order::{Item, Package};
use spark_base::{Items, NoMemory};
use std::alloc::Global;
use std::collections::BTreeMap;
use unit_names::{Head, Part, Withed};

fn is_spec(head: &Head) -> bool
    ensures { result ≡ spec.is_spec head.now }
{
    match head.part {
        Part::Spec => true,
        Part::Body | Part::Main => false,
    }
}

fn is_main(head: &Head) -> bool
    ensures { result ≡ spec.is_main head.now }
{
    match head.part {
        Part::Main => true,
        Part::Spec | Part::Body => false,
    }
}

/// Whether a unit is a spec, or a body.
fn is_of(head: &Head, is_body: bool) -> bool
    ensures { result ≡ spec.is_of is_body head.now }
{
    match head.part {
        Part::Spec => !is_body,
        Part::Body => is_body,
        Part::Main => false,
    }
}

fn put(table: &mut BTreeMap<usize, usize>, name: usize, place: usize) -> Result<(), NoMemory>
    ensures { OnOk result ((i : ℕ) → got table.new i ≡ (if nat_eq name i then Some place else got table.old i)) }
{
    table.insert(name, place)?;
    Ok(())
}

/// Puts the place of a unit at its name, if the unit is a spec, or a body.
fn note(
    table: &mut BTreeMap<usize, usize>,
    head: &Head,
    is_body: bool,
    place: usize,
) -> Result<(), NoMemory>
    ensures { OnOk result ((i : ℕ) → got table.new i
        ≡ (if spec.has_name (spec.part_by is_body) i head.now then Some place else got table.old i)) }
{
    if is_of(head, is_body) {
        put(table, head.name, place)?;
    }
    Ok(())
}

/// For each name the first spec, or the first body, of this name. Units are looked at from the last on.
pub(crate) fn table_of(
    alloc: Global,
    heads: &[Head],
    is_body: bool,
) -> Result<BTreeMap<usize, usize>, NoMemory>
    ensures { IfOk result (λ table. IsTable heads.now is_body table) }
{
    let mut table = BTreeMap::new(alloc);
    for place in (0..heads.len()).rev() {
        let head = &heads[place];
        note(&mut table, head, is_body, place)?;
    }
    Ok(table)
}

pub(crate) fn place_in(table: &BTreeMap<usize, usize>, name: usize) -> Option<usize>
    ensures { result ≡ got table.now name }
{
    table.get(&name).copied()
}

/// Adds the package that is named, if it is one.
fn add_package(names: &mut Items<usize>, withed: Withed) -> Result<(), NoMemory>
    ensures { OnOk result (names.new ≡ names.old ++ spec.package_in withed) }
{
    match withed {
        Withed::Package(name) => names.push(name),
        Withed::Clock | Withed::Elsewhere => Ok(()),
    }
}

/// The packages in with clauses, by their numbers.
fn packages_in(alloc: Global, withs: &[Withed]) -> Result<Items<usize>, NoMemory>
    ensures { IfOk result (λ names. names ≡ spec.packages_in withs.now) }
{
    let mut names = Items::new(alloc);
    for withed in withs {
        add_package(&mut names, *withed)?;
    }
    Ok(names)
}

fn head_at(heads: &[Head], place: Option<usize>) -> Option<&Head>
    ensures { option_copied result ≡ spec.head_at heads.now place }
{
    match place {
        Some(place) => heads.get(place),
        None => None,
    }
}

fn spec_packages(alloc: Global, head: Option<&Head>) -> Result<Items<usize>, NoMemory>
    ensures { IfOk result (λ names. names ≡ spec.packages_by (option_copied head.entry)) }
{
    match head {
        Some(head) => packages_in(alloc, head.withs.as_slice()),
        None => Ok(Items::new(alloc)),
    }
}

fn body_packages(alloc: Global, head: Option<&Head>) -> Result<Option<Items<usize>>, NoMemory>
    ensures { IfOk result (λ names. names ≡ spec.body_by (option_copied head.entry)) }
{
    match head {
        Some(head) => Ok(Some(packages_in(alloc, head.withs.as_slice())?)),
        None => Ok(None),
    }
}

/// The units of packages, by the numbers of their names.
#[derive(Drop)]
pub(crate) struct Tables {
    pub specs: BTreeMap<usize, usize>,
    pub bodies: BTreeMap<usize, usize>,
}

pub(crate) fn tables_of(alloc: Global, heads: &[Head]) -> Result<Tables, NoMemory>
    ensures { IfOk result (λ tables. AreTables heads.now tables) }
{
    Ok(Tables {
        specs: table_of(alloc, heads, false)?,
        bodies: table_of(alloc, heads, true)?,
    })
}

/// The unit of a spec or body.
fn unit_of(heads: &[Head], tables: &Tables, item: Item) -> Option<usize>
    requires { AreTables heads.now tables.now }
    ensures { result ≡ spec.unit_of_item heads.now item }
{
    if item.is_body {
        place_in(&tables.bodies, item.number)
    } else {
        place_in(&tables.specs, item.number)
    }
}

fn package_of(
    alloc: Global,
    heads: &[Head],
    tables: &Tables,
    name: usize,
) -> Result<Package, NoMemory>
    requires { AreTables heads.now tables.now }
    ensures { IfOk result (λ p. p ≡ spec.package_of heads.now name) }
{
    Ok(Package {
        withs: spec_packages(alloc, head_at(heads, place_in(&tables.specs, name)))?,
        body_withs: body_packages(alloc, head_at(heads, place_in(&tables.bodies, name)))?,
    })
}

/// How many specs there are.
fn spec_count(heads: &[Head]) -> usize
    ensures { result ≡ spec.spec_count heads.now }
{
    heads.iter().filter(|head| is_spec(head)).count()
}

/// The packages of units, in the order of their specs.
pub(crate) fn packages_of(
    alloc: Global,
    heads: &[Head],
    tables: &Tables,
) -> Result<Vec<Package>, NoMemory>
    requires { AreTables heads.now tables.now }
    ensures { IfOk result (λ packages. packages.items ≡ spec.packages_of heads.now) }
{
    let mut packages = Vec::new(alloc);
    for name in 0..spec_count(heads) {
        packages.push(package_of(alloc, heads, tables, name)?)?;
    }
    Ok(packages)
}

/// Adds a unit, if it is there.
fn add_unit(units: &mut Items<usize>, unit: Option<usize>) -> Result<(), NoMemory>
    ensures { OnOk result (units.new ≡ units.old ++ spec.listed unit) }
{
    match unit {
        Some(unit) => units.push(unit),
        None => Ok(()),
    }
}

/// The units of specs and bodies.
pub(crate) fn units_of(
    alloc: Global,
    heads: &[Head],
    tables: &Tables,
    items: &[Item],
) -> Result<Items<usize>, NoMemory>
    requires { AreTables heads.now tables.now }
    ensures { IfOk result (λ units. units ≡ spec.units_of heads.now items.now) }
{
    let mut units = Items::new(alloc);
    for item in items {
        add_unit(&mut units, unit_of(heads, tables, *item))?;
    }
    Ok(units)
}

/// The main, by its place.
pub(crate) fn main_of(heads: &[Head]) -> Option<usize>
    ensures { result ≡ spec.main_of heads.now }
{
    heads.iter().position(|head| is_main(head))
}
