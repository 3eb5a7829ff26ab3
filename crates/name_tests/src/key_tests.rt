use name_keys::{KeyMap, KeyTable};
use std::test::Fail;

#[test]
fn the_number_of_a_name_is_its_place(rt: HostRuntime) -> Result<(), Fail> {
    let alloc = rt.alloc();
    let mut keys = KeyTable::new(alloc);
    let rows = [
        ("count".as_bytes(), true, 0),
        ("p".as_bytes(), true, 1),
        ("count".as_bytes(), false, 0),
        ("count_2".as_bytes(), true, 2),
        ("".as_bytes(), true, 3),
        ("p".as_bytes(), false, 1),
    ];
    for (key, is_new, number) in rows {
        assert_eq!(rt; keys.find(key).is_none(), is_new);
        assert_eq!(rt; keys.add(key.to_vec(alloc)?)?, is_new);
        assert_eq!(rt; keys.find(key), Some(number));
    }
    assert_eq!(rt; keys.find(b"Count".as_slice()), None);
    Ok(())
}

#[test]
fn a_number_stands_once_in_a_map(rt: HostRuntime) -> Result<(), Fail> {
    let mut map = KeyMap::new(rt.alloc());
    let rows = [
        (7, 'a', true, 0),
        (2, 'b', true, 1),
        (7, 'c', false, 0),
        (0, 'd', true, 2),
    ];
    for (key, value, is_new, place) in rows {
        assert_eq!(rt; map.find(key).is_none(), is_new);
        assert_eq!(rt; map.add(key, value)?, is_new);
        assert_eq!(rt; map.place_of(key), Some(place));
    }
    assert_eq!(rt; map.len(), 3);
    assert_eq!(rt; map.find(7), Some('a'));
    assert_eq!(rt; map.at(1), Some((2, 'b')));
    assert_eq!(rt; map.at(3), None);
    assert_eq!(rt; map.place_of(3), None);
    Ok(())
}
