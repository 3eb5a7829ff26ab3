use std::test::Fail;
use use_table::{Member, UseTable};

/// Names 0 and 1; package 0 has both in its visible part, package 1 has name 0 there and name 1 in its private part.
fn two_packages(alloc: std::alloc::Global) -> Result<UseTable<u32>, Fail> {
    let mut table = UseTable::new(alloc);
    let rows = [
        (0, 0, 10, true),
        (0, 1, 11, true),
        (1, 0, 20, true),
        (1, 1, 21, false),
    ];
    for (home, key, shown, is_visible) in rows {
        let _ = table.declare(alloc, home, key, Member { shown, is_visible })?;
    }
    Ok(table)
}

#[test]
fn a_package_declares_a_name_once(rt: HostRuntime) -> Result<(), Fail> {
    let alloc = rt.alloc();
    let mut table = two_packages(alloc)?;
    let again = Member {
        shown: 30,
        is_visible: true,
    };
    assert!(rt; !table.declare(alloc, 1, 0, again)?);
    assert!(rt; table.declare(alloc, 2, 0, again)?);
    let rows = [
        (0, 0, Some(10)),
        (1, 0, Some(20)),
        (1, 1, Some(21)),
        (2, 0, Some(30)),
        (2, 1, None),
        (0, 7, None),
    ];
    for (home, key, shown) in rows {
        assert_eq!(rt; table.member(home, key).map(|m| m.shown), shown);
    }
    Ok(())
}

#[test]
fn two_of_one_name_hide_each_other(rt: HostRuntime) -> Result<(), Fail> {
    let mut table = two_packages(rt.alloc())?;
    assert_eq!(rt; table.find(0), None);
    table.open_use(0)?;
    assert_eq!(rt; table.find(0), Some(10));
    let open = table.open_uses();
    table.open_use(1)?;
    assert_eq!(rt; table.find(0), None);
    assert_eq!(rt; table.find(1), Some(11));
    table.close_uses(open);
    assert_eq!(rt; table.find(0), Some(10));
    table.close_uses(0);
    assert_eq!(rt; table.find(0), None);
    Ok(())
}

#[test]
fn a_package_that_two_clauses_name_counts_once(rt: HostRuntime) -> Result<(), Fail> {
    let mut table = two_packages(rt.alloc())?;
    table.open_use(1)?;
    table.open_use(1)?;
    assert_eq!(rt; table.find(0), Some(20));
    assert_eq!(rt; table.find(1), None);
    table.close_uses(1);
    assert_eq!(rt; table.find(0), Some(20));
    assert_eq!(rt; table.find(7), None);
    Ok(())
}
