ghost use Rattle.std.specs.Prelude.{IfOk};
ghost use Rattle.call_lists.specs.Lists.{AreLists};

use crate::callers::{add_one, empty_lists};
use crate::{callers_of, order_of};
use spark_base::{BodyNo, Items, NoMemory};
use std::alloc::Global;

// Of four bodies the first calls the second and the third, the second the third, and the third the first.
fn sample(alloc: Global) -> Result<Vec<Items<BodyNo>>, NoMemory>
    ensures { IfOk result (λ v. AreLists 4 v.items) }
{
    let mut lists = empty_lists(alloc, 4)?;
    add_one(BodyNo(1), BodyNo(0), &mut lists)?;
    add_one(BodyNo(2), BodyNo(0), &mut lists)?;
    add_one(BodyNo(2), BodyNo(1), &mut lists)?;
    add_one(BodyNo(0), BodyNo(2), &mut lists)?;
    Ok(lists)
}

fn at(list: &[BodyNo], place: usize) -> Option<u32> {
    match list.get(place) {
        None => None,
        Some(body) => Some(body.0),
    }
}

// The callee, a place in its list of callers, and who stands there.
const CALLERS: [(usize, usize, Option<u32>); 8] = [
    (0, 0, Some(2)),
    (0, 1, None),
    (1, 0, Some(0)),
    (1, 1, None),
    (2, 0, Some(0)),
    (2, 1, Some(1)),
    (2, 2, None),
    (3, 0, None),
];

// The bodies in the order in which they are left.
const ORDER: [Option<u32>; 5] = [Some(1), Some(2), Some(0), Some(3), None];

#[test]
fn callers_and_order(rt: HostRuntime) -> Result<(), NoMemory> {
    let callees = sample(rt.alloc())?;
    let callers = callers_of(rt.alloc(), callees.as_slice())?;
    for (callee, place, caller) in CALLERS {
        match callers.get(callee) {
            None => assert_eq!(rt; caller, Some(9)),
            Some(list) => assert_eq!(rt; at(list.as_slice(), place), caller),
        }
    }
    let order = order_of(rt.alloc(), callers.as_slice())?;
    let mut place = 0usize;
    for body in ORDER {
        assert_eq!(rt; at(order.as_slice(), place), body);
        place = place.saturating_add(1);
    }
    Ok(())
}
