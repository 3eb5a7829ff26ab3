// The leaves of items, the items as which leaves are seen, and their names.
use crate::samples::{CLOCK, O, S, X, Y, bare};
use core_form::{Item, well_formed};
use flow_bits::Row;
use spark_base::{LeafNo, ObjectNo, PackageNo};
use state_map::{expand, item_name, view_in_body, view_item};
use std::test::Fail;

/// An item, and which of the six leaves it has.
const EXPANDED: [(Item, [bool; 6]); 5] = [
    (X, [true, true, false, false, false, false]),
    (Y, [false, false, true, false, false, false]),
    (S, [true, true, false, false, true, true]),
    (O, [false, false, false, false, true, true]),
    (CLOCK, [false, false, false, true, false, false]),
];

#[test]
fn the_leaves_of_items(rt: HostRuntime) -> Result<(), Fail> {
    let program = bare(rt.alloc())?;
    assert!(rt; well_formed(&program));
    assert!(rt; program.leaves.len() == 6 && program.vars.len() == 6);
    assert!(rt; program.states.list.len() == 1 && program.objects.len() == 1);
    for (item, wanted) in &EXPANDED {
        let mut row = Row::new(rt.alloc(), 6)?;
        expand(&program, *item, &mut row);
        for leaf in 0..6 {
            assert_eq!(rt; row.has(leaf), wanted[leaf as usize]);
        }
    }
    Ok(())
}

/// A leaf; how it is seen from outside, in P, in the other package, and in O's own operations outside P.
const SEEN: [(u32, Item, Item, Item, Item); 6] = [
    (0, S, X, S, S),
    (1, S, X, S, S),
    (2, Y, Y, Y, Y),
    (3, CLOCK, CLOCK, CLOCK, CLOCK),
    (4, S, O, S, O),
    (5, S, O, S, O),
];

#[test]
fn the_views_of_leaves(rt: HostRuntime) -> Result<(), Fail> {
    let program = bare(rt.alloc())?;
    assert!(rt; well_formed(&program));
    assert!(rt; program.leaves.len() == 6);
    for (leaf, outside, inside, elsewhere, own) in &SEEN {
        let leaf = LeafNo(*leaf);
        assert!(rt; leaf.0 < 6);
        assert_eq!(rt; view_item(&program, leaf, None), *outside);
        assert_eq!(rt; view_item(&program, leaf, Some(PackageNo(0))), *inside);
        assert_eq!(rt; view_item(&program, leaf, Some(PackageNo(1))), *elsewhere);
        assert_eq!(rt; view_in_body(&program, leaf, Some(ObjectNo(0)), None), *own);
        assert_eq!(rt; view_in_body(&program, leaf, None, None), *outside);
    }
    Ok(())
}

/// An item; its name in O's own operations, and elsewhere.
const NAMES: [(Item, &str, &str); 4] = [
    (X, "P.X", "P.X"),
    (Y, "P.Y", "P.Y"),
    (S, "P.S", "P.S"),
    (O, "Signal", "P.O"),
];

#[test]
fn the_names_of_items(rt: HostRuntime) -> Result<(), Fail> {
    let program = bare(rt.alloc())?;
    assert!(rt; well_formed(&program));
    assert!(rt; program.vars.len() == 6);
    assert!(rt; program.states.list.len() == 1 && program.objects.len() == 1);
    for (item, own, name) in &NAMES {
        let inside = item_name(&program, *item, Some(ObjectNo(0)));
        assert_eq!(rt; inside.as_slice(), own.as_bytes());
        assert_eq!(rt;
            item_name(&program, *item, None).as_slice(),
            name.as_bytes()
        );
    }
    Ok(())
}
