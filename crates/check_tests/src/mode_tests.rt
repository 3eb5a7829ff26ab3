// What a body does with an item, by its row.
ghost use Rattle.std.specs.Prelude.{◌<◌, length};
ghost use Rattle.core_form.specs.Fine.{IsFineItem, IsWellFormed};
ghost use Rattle.summary_rows.specs.Layout.{AreRows};

use crate::samples::{CLOCK, O, S, Told, X, Y, bare, rows};
use core_form::{Item, Program, well_formed};
use spark_base::{BodyNo, Items, LeafNo};
use spark_messages::message_texts::UsedMode;
use std::test::Fail;
use summary_rows::Rows;
use used_modes::{is_left, is_library, note_new, used_mode};

/// What the row tells; an item; its used mode, and whether it may be left.
const CASES: [(Told, Item, UsedMode, bool); 14] = [
    ((true, 0, 0, 31), Y, UsedMode::Nothing, true),
    ((true, 0b00100, 0, 31), Y, UsedMode::Input, true),
    ((true, 0, 0b00100, 27), Y, UsedMode::Output, false),
    ((true, 0, 0b00100, 31), Y, UsedMode::InOut, true),
    ((true, 0b00100, 0b00100, 27), Y, UsedMode::InOut, false),
    // it never returns
    ((false, 0, 0b00100, 31), Y, UsedMode::Output, false),
    // some leaf decides
    ((true, 0, 0b00011, 28), X, UsedMode::Output, false),
    ((true, 0, 0b00001, 30), X, UsedMode::InOut, true),
    ((true, 0b00010, 0, 31), X, UsedMode::Input, true),
    ((true, 0b00001, 0, 31), S, UsedMode::Input, true),
    // D is left, since the row does not speak of it
    ((true, 0, 0b10011, 0), S, UsedMode::InOut, true),
    ((true, 0, 0b10000, 0), O, UsedMode::InOut, true),
    ((false, 0, 0b10000, 0), O, UsedMode::Output, false),
    ((true, 0b01000, 0, 31), CLOCK, UsedMode::Input, true),
];

fn does(program: &Program, rows: &Rows, item: Item) -> (UsedMode, bool)
    requires fine { IsWellFormed program.now }
    requires rows { AreRows rows.now }
    requires in_range { 0 < length rows.now.layout.outer }
    requires item { IsFineItem program.now item }
{
    let body = BodyNo(0);
    (
        used_mode(program, rows, body, item),
        is_left(program, rows, body, item),
    )
}

#[test]
fn the_modes_of_items(rt: HostRuntime) -> Result<(), Fail> {
    let alloc = rt.alloc();
    let program = bare(alloc)?;
    assert!(rt; well_formed(&program));
    assert!(rt; program.vars.len() == 6);
    assert!(rt; program.states.list.len() == 1 && program.objects.len() == 1);
    for (told, item, mode, left) in &CASES {
        let rows = rows(alloc, *told)?;
        let (used, may_stay) = does(&program, &rows, *item);
        assert!(rt; used == *mode);
        assert_eq!(rt; may_stay, *left);
    }
    Ok(())
}

#[test]
fn leaves_of_the_library(rt: HostRuntime) -> Result<(), Fail> {
    let program = bare(rt.alloc())?;
    for leaf in 0..6 {
        assert!(rt; is_library(&program, LeafNo(leaf)));
    }
    assert!(rt; !is_library(&program, LeafNo(6)));
    Ok(())
}

#[test]
fn an_item_is_noted_once(rt: HostRuntime) -> Result<(), Fail> {
    let mut items = Items::new(rt.alloc());
    for (item, count) in &[(X, 1), (Y, 2), (X, 2), (S, 3), (Y, 3)] {
        note_new(&mut items, *item)?;
        assert_eq!(rt; items.len(), *count);
    }
    Ok(())
}
