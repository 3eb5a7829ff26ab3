//! Types that are added to the table.
ghost use Rattle.std.specs.Prelude.{◌≡◌, ◌-◌, ◌^◌, ◌<◌, length, slice_get, OnOk, OnErr};
ghost use Rattle.ada_forms.specs.Declarations.{decl_of};
ghost use Rattle.static_meanings.specs.Meanings.{type_at};
ghost use Rattle.types_objects.specs.Adding.{IsAdded, IsShorter, appended, file_of_decl, numbered};
ghost use Rattle.types_objects.specs.Made as spec;
ghost use Rattle.types_objects.specs.Table.{IsTable};
ghost use Rattle.types_objects.specs.declared.made.NewType.{NewType as New};
ghost use Rattle.types_objects.specs.declared.types.Types.{Types as Table};

use crate::made::{Made, NewType, made_by};
use crate::types::Types;
use ada_tree::Units;
use spark_base::{DeclNo, FileNo, Items, NoMemory, TypeNo};
use spark_messages::PhaseFault;
use static_eval::{Known, refused};
use std::alloc::Global;
use std::mem;

/// Takes the last item away.
fn drop_last<T: Drop>(alloc: Global, list: &mut Items<T>)
    ensures { IsShorter list.old list.new }
{
    let mut items = mem::replace(list, Items::new(alloc)).into_vec();
    items.pop();
    *list = Items::from_vec(items);
}

/// Adds a type behind the others, or nothing.
fn append(alloc: Global, types: &mut Types, new: NewType) -> Result<(), NoMemory>
    ensures ok { OnOk result (types.new ≡ appended types.old new) }
    ensures err { OnErr result (types.new ≡ types.old) }
{
    let NewType { def, first } = new;
    types.list.push(def)?;
    match types.first.push(first) {
        Ok(()) => Ok(()),
        Err(NoMemory) => {
            drop_last(alloc, &mut types.list);
            Err(NoMemory)
        }
    }
}

/// Takes the last type away.
fn take_away(alloc: Global, types: &mut Types)
    ensures { (t : Table) (x : New) → types.old ≡ appended t x → types.new ≡ t }
{
    drop_last(alloc, &mut types.list);
    drop_last(alloc, &mut types.first);
}

/// Adds a type of a declaration, or nothing.
fn add_one(
    alloc: Global,
    types: &mut Types,
    d: DeclNo,
    number: u32,
    new: NewType,
) -> Result<(), NoMemory>
    ensures ok { OnOk result (types.new ≡ numbered (appended types.old new) d (type_at number)) }
    ensures err { OnErr result (types.new ≡ types.old) }
{
    append(alloc, types, new)?;
    match types.numbers.push(d.0, TypeNo(number)) {
        Ok(()) => Ok(()),
        Err(NoMemory) => {
            take_away(alloc, types);
            Err(NoMemory)
        }
    }
}

/// Adds the type of an index and that of its array, or nothing.
fn add_two(
    alloc: Global,
    types: &mut Types,
    d: DeclNo,
    number: u32,
    index: NewType,
    array: NewType,
) -> Result<(), NoMemory>
    ensures ok { OnOk result (types.new ≡ numbered (appended (appended types.old index) array) d (type_at number)) }
    ensures err { OnErr result (types.new ≡ types.old) }
{
    append(alloc, types, index)?;
    match add_one(alloc, types, d, number, array) {
        Ok(()) => Ok(()),
        Err(NoMemory) => {
            take_away(alloc, types);
            Err(NoMemory)
        }
    }
}

/// Adds what a declaration makes, or refuses it and leaves the table as it was.
fn add_made(
    alloc: Global,
    types: &mut Types,
    d: DeclNo,
    file: FileNo,
    number: u32,
    made: Made,
) -> Result<TypeNo, PhaseFault>
    requires number { number ≡ length types.old.list }
    requires room { number < 2 ^ 32 - 1 }
    ensures { IsAdded d file made types.old types.new result }
{
    match made {
        Made::Refused { code, place } => Err(refused(alloc, file, code, place)),
        Made::Same(t) => match types.numbers.push(d.0, t) {
            Ok(()) => Ok(t),
            Err(NoMemory) => Err(PhaseFault::NoMemory),
        },
        Made::One(new) => match add_one(alloc, types, d, number, new) {
            Ok(()) => Ok(TypeNo(number)),
            Err(NoMemory) => Err(PhaseFault::NoMemory),
        },
        Made::Two(index, array) => match add_two(alloc, types, d, number + 1, index, array) {
            Ok(()) => Ok(TypeNo(number + 1)),
            Err(NoMemory) => Err(PhaseFault::NoMemory),
        },
    }
}

/// The file of a declaration.
fn file_of(units: &Units, d: DeclNo) -> FileNo
    ensures { result ≡ file_of_decl (slice_get units.now.decls d.0) }
{
    match units.decls.get(d.0 as usize) {
        None => FileNo(0),
        Some(node) => node.span.file,
    }
}

/// Adds the type or the subtype of a declaration, and answers its number. Refused are, at the first place: Y01 and Y03, values of
/// bounds or a modulus that static values break; Y02, a bound or a modulus that is not static; Y05, a low bound above the
/// high one, a bound outside the type that is named, and a modulus outside 2 .. 2^64. What is refused leaves the table as it was.
pub fn add_type(
    alloc: Global,
    types: &mut Types,
    units: &Units,
    known: &Known,
    d: DeclNo,
) -> Result<TypeNo, PhaseFault>
    requires table { IsTable types.old }
    ensures added { IsAdded d (file_of_decl (slice_get units.now.decls d.0)) (spec.made_by types.old units.now known.now (length types.old.list) (decl_of units.now d)) types.old types.new result }
    ensures table { IsTable types.new }
{
    let count = types.list.len();
    if count >= 0xffff_ffff {
        return Err(PhaseFault::NoMemory);
    }
    let number = count as u32;
    match made_by(alloc, types, units, known, number, d) {
        Err(NoMemory) => Err(PhaseFault::NoMemory),
        Ok(made) => add_made(alloc, types, d, file_of(units, d), number, made),
    }
}

/// The type of a private type is that of its full declaration, which is there: so are the types of its marks from here on.
#[tactic(auto, using(crate::proofs::Fine::with_numbers))]
pub fn complete_type(types: &mut Types, private: DeclNo, full: TypeNo) -> Result<(), NoMemory>
    requires table { IsTable types.old }
    ensures ok { OnOk result (types.new ≡ numbered types.old private full) }
    ensures err { OnErr result (types.new ≡ types.old) }
    ensures table { IsTable types.new }
{
    types.numbers.push(private.0, full)
}
