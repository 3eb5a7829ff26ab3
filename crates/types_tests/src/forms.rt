// The paths of leaves, the predefined names, what fits what, and bounds.
ghost use Rattle.std.specs.Prelude.{IfOk};
ghost use Rattle.types_objects.specs.Table.{IsTable};

use crate::tests::units_of;
use crate::walk::{Walk, walked};
use spark_base::{Bytes, DeclNo, NoMemory, TypeNo};
use static_meanings::Pairs;
use std::alloc::Global;
use std::test::Fail;
use types_objects::{
    Predefined, Sight, Types, ValueType, assignable, first_of, fits, is_full, is_integer,
    leaf_paths, predefined_name, range_of, real_time_name, standard_name,
};

const SOURCE: &str = "package P is
   type Pair is record
      Left, Right : Integer;
   end record;
   type Arr is array (1 .. 3) of Pair;
   type Void is null record;
   protected type Cell is
      procedure Put;
   end Cell;
   type Nest is record
      First_Pair : Pair;
      Nothing : Void;
      Guard : Cell;
      Many : Arr;
      Second : Pair;
   end record;
   type Color is (Red, Green, Blue);
   subtype Few is Color range Green .. Blue;
   type M is mod 8;
   subtype Ms is M range 2 .. 5;
   type Hidden is private;
   subtype Also is Hidden;
private
   type Hidden is range 0 .. 9;
end P;
";

// The numbers of the types above.
const PAIR: u32 = 6;

const ARR: u32 = 8;

const VOID: u32 = 9;

const CELL: u32 = 10;

const NEST: u32 = 11;

const COLOR: u32 = 12;

const FEW: u32 = 13;

const MOD: u32 = 14;

const NARROW: u32 = 15;

const HIDDEN: u32 = 16;

fn walk_of(alloc: Global) -> Result<Walk, NoMemory>
    ensures { IfOk result (λ w. IsTable w.types) }
{
    let units = units_of(alloc, Bytes::from_slice(alloc, SOURCE.as_bytes())?)?;
    walked(alloc, &units)
}

/// The paths of the leaves of a type, one a line.
fn paths_of(alloc: Global, types: &Types, of: u32) -> Result<Bytes, NoMemory>
    requires { IsTable types.now }
{
    let mut text = Bytes::new(alloc);
    if (of as usize) < types.list.len() {
        for path in leaf_paths(alloc, types, TypeNo(of))?.as_slice() {
            text.append(path.as_slice())?;
            text.append(b"\n")?;
        }
    }
    Ok(text)
}

#[test]
fn leaves_have_paths_in_the_order_of_declaration(rt: HostRuntime) -> Result<(), Fail> {
    let alloc = rt.alloc();
    let walk = walk_of(alloc)?;
    let rows: [(u32, &str); 6] = [
        (PAIR, ".Left\n.Right\n"),
        (ARR, "\n"),
        (VOID, ""),
        (CELL, ""),
        (
            NEST,
            ".First_Pair.Left\n.First_Pair.Right\n.Many\n.Second.Left\n.Second.Right\n",
        ),
        (COLOR, "\n"),
    ];
    for (of, wanted) in rows {
        let paths = paths_of(alloc, &walk.types, of)?;
        assert_eq!(rt; paths.as_slice(), wanted.as_bytes());
    }
    Ok(())
}

/// The least and the greatest value of a type, and those of its first type.
fn bounds_of(types: &Types, t: u32) -> Option<(i128, i128, i128, i128)>
    requires { IsTable types.now }
{
    let range = range_of(types, TypeNo(t))?;
    Some((range.low, range.high, range.least, range.greatest))
}

#[test]
fn types_have_bounds_beside_those_of_their_first_types(rt: HostRuntime) -> Result<(), Fail> {
    let alloc = rt.alloc();
    let walk = walk_of(alloc)?;
    let whole = 2147483647;
    let rows: [(u32, Option<(i128, i128, i128, i128)>); 10] = [
        (0, Some((0, 1, 0, 1))),
        (1, Some((-whole - 1, whole, -whole - 1, whole))),
        (2, Some((0, whole, -whole - 1, whole))),
        (3, Some((1, whole, -whole - 1, whole))),
        (4, None),
        (PAIR, None),
        (ARR, Some((1, 3, -whole - 1, whole))),
        (COLOR, Some((0, 2, 0, 2))),
        (FEW, Some((1, 2, 0, 2))),
        (NARROW, Some((2, 5, 0, 7))),
    ];
    for (t, wanted) in rows {
        assert_eq!(rt; bounds_of(&walk.types, t), wanted);
    }
    Ok(())
}

fn fit(sight: &Sight, types: &Types, to: Option<u32>, of: Option<u32>) -> bool {
    let value = |t: Option<u32>| match t {
        None => ValueType::AnyInteger,
        Some(t) => ValueType::Of(TypeNo(t)),
    };
    fits(sight, types, value(to), value(of))
}

#[test]
fn types_fit_by_their_first_types(rt: HostRuntime) -> Result<(), Fail> {
    let alloc = rt.alloc();
    let walk = walk_of(alloc)?;
    let everywhere = Sight {
        homes: Pairs::new(alloc),
        inside: None,
    };
    let rows: [(Option<u32>, Option<u32>, bool); 14] = [
        (None, None, true),
        (None, Some(1), true),
        (Some(2), None, true),
        (Some(NARROW), None, true),
        (None, Some(MOD), true),
        (None, Some(0), false),
        (Some(COLOR), None, false),
        (Some(5), None, false),
        (Some(PAIR), None, false),
        (Some(1), Some(3), true),
        (Some(FEW), Some(COLOR), true),
        (Some(MOD), Some(1), false),
        (Some(NEST), Some(PAIR), false),
        (Some(HIDDEN), None, true),
    ];
    for (to, of, wanted) in rows {
        assert_eq!(rt; fit(&everywhere, &walk.types, to, of), wanted);
    }
    Ok(())
}

/// What is seen from within this package, where a type's declaration stands in the private part of the package 70.
fn sight_from(
    alloc: Global,
    types: &Types,
    hidden: u32,
    inside: Option<DeclNo>,
) -> Result<Sight, NoMemory> {
    let mut homes = Pairs::new(alloc);
    if let Some(def) = types.list.get(hidden as usize)
        && let Some(d) = def.decl
    {
        homes.push(d.0, DeclNo(70))?;
    }
    Ok(Sight { homes, inside })
}

#[test]
fn private_types_are_seen_in_their_package_alone(rt: HostRuntime) -> Result<(), Fail> {
    let alloc = rt.alloc();
    let walk = walk_of(alloc)?;
    for (inside, wanted) in [(Some(70), true), (Some(71), false), (None, false)] {
        let package = match inside {
            None => None,
            Some(d) => Some(DeclNo(d)),
        };
        let sight = sight_from(alloc, &walk.types, HIDDEN, package)?;
        assert_eq!(rt; is_full(&sight, &walk.types, TypeNo(HIDDEN)), wanted);
        assert_eq!(rt; fit(&sight, &walk.types, Some(HIDDEN), None), wanted);
        assert!(rt; fit(&sight, &walk.types, Some(HIDDEN), Some(HIDDEN)));
        assert!(rt; is_full(&sight, &walk.types, TypeNo(PAIR)));
        assert!(rt; is_full(&sight, &walk.types, TypeNo(1)));
    }
    Ok(())
}

#[test]
fn first_types_are_those_of_declarations(rt: HostRuntime) -> Result<(), Fail> {
    let alloc = rt.alloc();
    let walk = walk_of(alloc)?;
    let types = &walk.types;
    let count = types.first.len();
    assert!(rt; count == 17);
    assert!(rt; assignable(types, TypeNo(1), TypeNo(3)));
    assert!(rt; assignable(types, TypeNo(FEW), TypeNo(COLOR)));
    assert!(rt; !assignable(types, TypeNo(MOD), TypeNo(1)));
    assert!(rt; !assignable(types, TypeNo(VOID), TypeNo(CELL)));
    assert_eq!(rt; first_of(types, TypeNo(NARROW)).0, MOD);
    assert_eq!(rt; first_of(types, TypeNo(70)).0, 70);
    for (t, wanted) in [
        (0, false),
        (1, true),
        (4, false),
        (MOD, true),
        (ARR, false),
        (70, false),
    ] {
        assert_eq!(rt; is_integer(types, TypeNo(t)), wanted);
    }
    Ok(())
}

#[test]
fn sixteen_names_are_predefined(rt: HostRuntime) -> Result<(), Fail> {
    let of = |t: u32| Predefined::Type(TypeNo(t));
    let constant = |t: u32, value: i128| Predefined::Constant {
        of: TypeNo(t),
        value,
    };
    let standard: [(&str, Predefined); 6] = [
        ("Boolean", of(0)),
        ("INTEGER", of(1)),
        ("natural", of(2)),
        ("Positive", of(3)),
        ("False", constant(0, 0)),
        ("TRUE", constant(0, 1)),
    ];
    for (name, wanted) in standard {
        assert_eq!(rt; standard_name(name.as_bytes()), Some(wanted));
        assert_eq!(rt; predefined_name(name.as_bytes()), Some(wanted));
        assert_eq!(rt; real_time_name(name.as_bytes()), None);
    }
    let timed: [(&str, Predefined); 10] = [
        ("Time", of(4)),
        ("Time_Span", of(5)),
        ("Time_Span_Zero", constant(5, 0)),
        ("Nanoseconds", Predefined::Scale(1)),
        ("Microseconds", Predefined::Scale(1000)),
        ("Milliseconds", Predefined::Scale(1000000)),
        ("Seconds", Predefined::Scale(1000000000)),
        ("Minutes", Predefined::Scale(60000000000)),
        ("Clock", Predefined::Clock),
        ("Clock_Time", Predefined::ClockTime),
    ];
    for (name, wanted) in timed {
        assert_eq!(rt; real_time_name(name.as_bytes()), Some(wanted));
        assert_eq!(rt; predefined_name(name.as_bytes()), Some(wanted));
        assert_eq!(rt; standard_name(name.as_bytes()), None);
    }
    for name in ["Float", "Ada", "Real_Time", "Times", ""] {
        assert_eq!(rt; predefined_name(name.as_bytes()), None);
    }
    Ok(())
}
