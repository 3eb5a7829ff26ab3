//! The paths of the leaves of a type.
ghost use Rattle.std.specs.Prelude.{◌≡◌, ◌<◌, ◌++◌, [], length, slice_get, IfOk, Some};
ghost use Rattle.types_objects.specs.Table.{IsTable};
ghost use Rattle.types_objects.specs.Types.{AreThere, IsLooked, paths, path_to, pending_of, reversed};

use crate::types::{FieldDef, TypeDef, TypeForm, Types};
use spark_base::{Bytes, NoMemory, TypeNo};
use std::alloc::Global;

/// A type whose leaves have yet to be looked at, and the path to it.
#[derive(Debug, Drop)]
struct Pending {
    of: TypeNo,
    prefix: Bytes,
}

/// The path of a component of what has this path.
fn extended(prefix: Bytes, field: &FieldDef) -> Result<Bytes, NoMemory>
    ensures { IfOk result (λ path. path ≡ path_to prefix field.now) }
{
    let mut path = prefix.into_vec();
    path.push(b'.')?;
    path.extend_from_slice(field.name.written.as_slice())?;
    Ok(Bytes::from_vec(path))
}

fn joined(alloc: Global, prefix: &Bytes, field: &FieldDef) -> Result<Bytes, NoMemory>
    ensures { IfOk result (λ path. path ≡ path_to prefix.now field.now) }
{
    extended(Bytes::from_slice(alloc, prefix.as_slice())?, field)
}

/// Adds the components of a record but the first, the next on top.
fn push_others(
    alloc: Global,
    prefix: &Bytes,
    fields: &[FieldDef],
    mut stack: Vec<Pending>,
) -> Result<Vec<Pending>, NoMemory>
    ensures { IfOk result (λ all. reversed all.items ≡ pending_of prefix.now fields.now ++ reversed stack.items) }
{
    for i in (0..fields.len()).rev() {
        let field = &fields[i];
        stack.push(Pending {
            of: field.of,
            prefix: joined(alloc, prefix, field)?,
        })?;
    }
    Ok(stack)
}

/// Adds the components of a record, the first on top. The path of the record goes on as that of the first.
fn push_fields(
    alloc: Global,
    prefix: Bytes,
    fields: &[FieldDef],
    stack: Vec<Pending>,
) -> Result<Vec<Pending>, NoMemory>
    ensures { IfOk result (λ all. reversed all.items ≡ pending_of prefix fields.now ++ reversed stack.items) }
{
    match fields {
        [] => Ok(stack),
        [first, others @ ..] => {
            let mut stack = push_others(alloc, &prefix, others, stack)?;
            stack.push(Pending {
                of: first.of,
                prefix: extended(prefix, first)?,
            })?;
            Ok(stack)
        }
    }
}

pub fn type_at(types: &Types, t: TypeNo) -> &TypeDef
    requires { t.0 < length types.now.list }
    ensures { slice_get types.now.list t.0 ≡ Some result.now }
{
    types.list.at(t.0 as usize)
}

/// What has yet to be looked at, the next on top, and the paths that were found.
#[derive(Drop)]
struct Search {
    stack: Vec<Pending>,
    found: Vec<Bytes>,
}

/// Looks at one type: its components come next, or it is a leaf, or it has none. What has no leaves is not gone into.
fn look(alloc: Global, types: &Types, next: Pending, search: Search) -> Result<Search, NoMemory>
    requires table { IsTable types.now }
    requires next { next.of.0 < length types.now.list }
    requires there { AreThere types.now.list (reversed search.stack.items) }
    ensures told { IfOk result (λ s. IsLooked types.now.list next search s) }
{
    let Search { stack, mut found } = search;
    let def = type_at(types, next.of);
    if def.leaves == 0 {
        return Ok(Search { stack, found });
    }
    match &def.form {
        TypeForm::Fields(fields) => {
            let stack = push_fields(alloc, next.prefix, fields.as_slice(), stack)?;
            Ok(Search { stack, found })
        }
        TypeForm::Protected(_) => Ok(Search { stack, found }),
        TypeForm::Task(_) => Ok(Search { stack, found }),
        _ => {
            found.push(next.prefix)?;
            Ok(Search { stack, found })
        }
    }
}

/// The paths of the leaves of a type, in the order of the declarations. A scalar or an array has the one empty path.
pub fn leaf_paths(alloc: Global, types: &Types, of: TypeNo) -> Result<Vec<Bytes>, NoMemory>
    requires table { IsTable types.now }
    requires in_range { of.0 < length types.now.list }
    ensures { IfOk result (λ all. all.items ≡ paths types.now.list [] of) }
{
    let mut search = Search {
        stack: Vec::new(alloc),
        found: Vec::new(alloc),
    };
    search.stack.push(Pending {
        of,
        prefix: Bytes::new(alloc),
    })?;
    while let Some(next) = search.stack.pop() {
        search = look(alloc, types, next, search)?;
    }
    Ok(search.found)
}
