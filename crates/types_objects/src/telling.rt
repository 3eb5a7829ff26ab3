//! What a declaration tells of static values.
ghost use Rattle.std.specs.Prelude.{◌≡◌, OnOk};
ghost use Rattle.ada_forms.specs.Declarations.{decl_of};
ghost use Rattle.types_objects.specs.Table.{IsTable};
ghost use Rattle.types_objects.specs.Telling as spec;

use crate::ranges::range_of;
use crate::types::Types;
use ada_forms::{DeclForm, decl_form};
use ada_tree::Units;
use spark_base::{DeclNo, NoMemory, TypeNo};
use static_eval::Known;
use static_meanings::Range;

pub fn tell_range(known: &mut Known, d: DeclNo, range: Option<Range>) -> Result<(), NoMemory>
    ensures { OnOk result (known.new ≡ spec.with_range known.old d range) }
{
    match range {
        None => Ok(()),
        Some(range) => known.ranges.push(d.0, range),
    }
}

fn tell_literal(
    known: &mut Known,
    range: Option<Range>,
    position: usize,
    d: DeclNo,
) -> Result<(), NoMemory>
    ensures { OnOk result (known.new ≡ spec.with_literal known.old range position d) }
{
    known.values.push(d.0, position as i128)?;
    tell_range(known, d, range)
}

/// Literals have their positions, from zero.
fn tell_literals(
    known: &mut Known,
    range: Option<Range>,
    literals: &[DeclNo],
) -> Result<(), NoMemory>
    ensures { OnOk result (known.new ≡ spec.with_literals known.old range 0 literals.now) }
{
    for position in 0..literals.len() {
        tell_literal(known, range, position, literals[position])?;
    }
    Ok(())
}

/// The literals of an enumeration.
fn literals_of<'a>(units: &'a Units, d: DeclNo) -> &'a [DeclNo]
    ensures { result.now ≡ spec.literals_of (decl_of units.now d) }
{
    match decl_form(units, d).form {
        DeclForm::EnumerationType { literals, .. } => literals,
        _ => &[],
    }
}

/// Makes known that a declaration has this type: its bounds, if it has some, and the positions and bounds of its literals. For want
/// of memory a part of these may be known.
pub fn tell_type(
    known: &mut Known,
    types: &Types,
    units: &Units,
    d: DeclNo,
    t: TypeNo,
) -> Result<(), NoMemory>
    requires table { IsTable types.now }
    ensures { OnOk result (known.new ≡ spec.with_type types.now units.now d t known.old) }
{
    let range = range_of(types, t);
    tell_range(known, d, range)?;
    tell_literals(known, range, literals_of(units, d))
}
