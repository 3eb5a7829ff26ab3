use scope_table::{Open, ScopeTable};
use spark_base::DeclNo;
use std::test::Fail;

#[test]
fn an_inner_name_hides_until_its_region_ends(rt: HostRuntime) -> Result<(), Fail> {
    let mut table = ScopeTable::new(rt.alloc());
    assert!(rt; table.is_empty());
    table.declare(Open {
        key: 2,
        shown: DeclNo(0),
    })?;
    table.declare(Open {
        key: 0,
        shown: DeclNo(1),
    })?;
    let outer = table.len();
    table.declare(Open {
        key: 2,
        shown: DeclNo(2),
    })?;
    let inner = table.len();
    table.declare(Open {
        key: 2,
        shown: DeclNo(3),
    })?;
    assert_eq!(rt; table.find(2), Some(DeclNo(3)));
    table.close(inner);
    assert_eq!(rt; table.find(2), Some(DeclNo(2)));
    table.close(outer);
    assert_eq!(rt; table.len(), 2);
    assert_eq!(rt; table.find(2), Some(DeclNo(0)));
    assert_eq!(rt; table.find(0), Some(DeclNo(1)));
    assert_eq!(rt; table.find(1), None);
    assert_eq!(rt; table.find(9), None);
    Ok(())
}

/// A million declarations in ten regions, as many look-ups, and their end: quadratic work would not end in the time of a
/// test.
#[test]
fn many_declarations_are_found_at_once(rt: HostRuntime) -> Result<(), Fail> {
    let mut table = ScopeTable::new(rt.alloc());
    for region in 0..10u32 {
        for key in 0..100_000 {
            table.declare(Open { key, shown: region })?;
        }
    }
    for key in 0..1_000_000 {
        let wanted = if key < 100_000 { Some(9) } else { None };
        assert_eq!(rt; table.find(key), wanted);
    }
    table.close(100_000);
    assert_eq!(rt; table.len(), 100_000);
    assert_eq!(rt; table.find(99_999), Some(0));
    Ok(())
}
