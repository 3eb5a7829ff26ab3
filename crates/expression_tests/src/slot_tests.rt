use ada_tree::{ExprKind, ExprNode, Units};
use name_keys::{KeyMap, KeyTable};
use part_slots::{
    Reading, Slot, actuals_of, arranged, as_reading, expecting, gift_slots, has_value,
    positional_slots, tested_reading,
};
use scope_table::ScopeTable;
use seen_names::{Application, Callable, FormalSeen, Gift, Subprogram, Tables};
use seen_types::{BOOLEAN, ExprType, FieldSeen, INTEGER, Shape, TypeTable};
use spark_base::{DeclNo, ExprNo, FileNo, Items, Name, Pos, Span};
use std::alloc::Global;
use std::test::Fail;
use use_table::UseTable;

/// A word for a reading.
fn reading_word(reading: Reading) -> &'static str {
    match reading {
        Reading::AsName => "name",
        Reading::Free => "free",
        Reading::Hidden => "hidden",
        Reading::Wanted(_) => "wanted",
    }
}

/// A word for the slot at a place, and none where there is none.
fn slot_word(slots: &Items<Slot>, place: usize) -> &'static str {
    match slots.get(place) {
        None => "",
        Some(Slot::Alone) => "alone",
        Some(Slot::Plain) => "plain",
        Some(Slot::Given(_)) => "given",
        Some(Slot::Target(_)) => "target",
        Some(Slot::Surplus) => "surplus",
        Some(Slot::Shared(_)) => "shared",
        Some(Slot::Whole) => "whole",
        Some(_) => "other",
    }
}

/// A node with a name or without.
fn node(
    alloc: Global,
    units: &mut Units,
    kind: ExprKind,
    word: &[u8],
    parts: &[ExprNo],
) -> Result<ExprNo, Fail> {
    let number = u32::try_from(units.exprs.len()).unwrap_or(u32::MAX);
    let at = Pos { line: 1, col: 1 };
    let mut exprs = Items::new(alloc);
    for part in parts {
        exprs.push(*part)?;
    }
    let name = if word.len() > 0 {
        Some(Name::new(alloc, word)?)
    } else {
        None
    };
    units.exprs.push(ExprNode {
        span: Span {
            file: FileNo(0),
            from: at,
            to: at,
        },
        kind,
        name,
        exprs,
    })?;
    Ok(ExprNo(number))
}

/// The names x and y; a procedure with `X : Integer` and `Y : out Boolean`.
fn tables(alloc: Global) -> Result<Tables, Fail> {
    let mut keys = KeyTable::new(alloc);
    for key in ["x", "y"] {
        let _ = keys.add(key.as_bytes().to_vec(alloc)?)?;
    }
    let mut formals = KeyMap::new(alloc);
    let x = FormalSeen {
        is_written: false,
        of: Some(INTEGER),
    };
    let _ = formals.add(0, x)?;
    let y = FormalSeen {
        is_written: true,
        of: Some(BOOLEAN),
    };
    let _ = formals.add(1, y)?;
    let mut callables = Items::new(alloc);
    callables.push(Callable {
        form: Subprogram::Procedure,
        formals,
        result: None,
    })?;
    Ok(Tables {
        keys,
        opens: ScopeTable::new(alloc),
        params: ScopeTable::new(alloc),
        members: UseTable::new(alloc),
        operations: UseTable::new(alloc),
        types: TypeTable::new(alloc),
        callables,
    })
}

#[test]
fn readings(rt: HostRuntime) -> Result<(), Fail> {
    let integer = Some(ExprType::Of(INTEGER));
    let rows = [
        (expecting(None), "hidden"),
        (expecting(integer), "wanted"),
        (tested_reading(true), "hidden"),
        (tested_reading(false), "free"),
        (as_reading(Reading::AsName), "free"),
        (as_reading(Reading::Hidden), "hidden"),
    ];
    for (reading, word) in rows {
        assert_eq!(rt; reading_word(reading), word);
    }
    Ok(())
}

#[test]
fn actuals_by_place_and_by_name(rt: HostRuntime) -> Result<(), Fail> {
    let alloc = rt.alloc();
    let tables = tables(alloc)?;
    let callable = tables.callable(0).expect(&rt, "there is one");
    let mut units = Units::new(alloc);
    let one = node(alloc, &mut units, ExprKind::Number(1), b"", &[])?;
    let x = node(alloc, &mut units, ExprKind::Identifier, b"X", &[])?;
    let y = node(alloc, &mut units, ExprKind::Identifier, b"Y", &[])?;
    let kind = ExprKind::Argument { has_formal: false };
    let plain = node(alloc, &mut units, kind, b"", &[one])?;
    let kind = ExprKind::Argument { has_formal: true };
    let for_x = node(alloc, &mut units, kind, b"", &[x, one])?;
    let for_y = node(alloc, &mut units, kind, b"", &[y, one])?;
    let rows = [
        ([plain, plain], ["given", "target"], false),
        ([for_y, for_x], ["target", "given"], false),
        ([plain, for_y], ["given", "target"], false),
        ([plain, for_x], ["given", "alone"], true),
        ([for_x, plain], ["given", "target"], true),
    ];
    for (arguments, words, are_wrong) in rows {
        let found = actuals_of(alloc, &units, &tables, &callable.formals, &arguments)?;
        assert_eq!(rt; slot_word(&found.slots, 0), words[0]);
        assert_eq!(rt; slot_word(&found.slots, 1), words[1]);
        assert_eq!(rt; found.are_wrong, are_wrong);
    }
    assert!(rt; has_value(&units, &[plain]));
    assert!(rt; !has_value(&units, &[for_x]));
    let missing = actuals_of(alloc, &units, &tables, &callable.formals, &[plain])?;
    assert!(rt; missing.are_wrong);
    let conversion = Application::Conversion(Some(INTEGER));
    let named = arranged(alloc, &units, &tables, conversion, &[for_x])?;
    assert!(rt; named.are_wrong);
    Ok(())
}

#[test]
fn values_by_place(rt: HostRuntime) -> Result<(), Fail> {
    let alloc = rt.alloc();
    let mut fields = KeyMap::new(alloc);
    for key in 0..2 {
        let field = FieldSeen {
            decl: DeclNo(7),
            of: INTEGER,
        };
        let _ = fields.add(key, field)?;
    }
    let record = Shape::Fields(fields);
    let array = Shape::Array {
        index: BOOLEAN,
        of: INTEGER,
    };
    let rows = [
        (Some(&record), false, 3, ["given", "given", "surplus"]),
        (Some(&record), true, 2, ["given", "shared", ""]),
        (Some(&array), true, 2, ["given", "given", ""]),
        (None, false, 2, ["", "", ""]),
    ];
    for (shape, has_others, count, words) in rows {
        let slots = positional_slots(alloc, shape, has_others, count)?;
        assert_eq!(rt; slot_word(&slots, 0), words[0]);
        assert_eq!(rt; slot_word(&slots, 1), words[1]);
        assert_eq!(rt; slot_word(&slots, 2), words[2]);
    }
    let slots = gift_slots(alloc, Gift::OfPosition(ExprType::Of(INTEGER)), 1)?;
    assert_eq!(rt; slot_word(&slots, 0), "whole");
    Ok(())
}
