ghost use Rattle.std.specs.Prelude.{◌≡◌, ℕ, ◌<◌, ◌^◌, All, length, IfOk};
ghost use Rattle.call_lists.specs.Lists.{AreLists};
ghost use Rattle.row_leaves.specs.Leaves.{AreBodies};

use row_leaves::{Bodies, Laid, layout_of};
use spark_base::{BodyNo, Items, NoMemory};
use std::alloc::Global;

// By leaf, one body that has it; they take turns.
fn turns(alloc: Global, bodies: u32, leaves: u32) -> Result<Items<Items<BodyNo>>, NoMemory>
    requires { 0 < bodies }
    ensures size { IfOk result (λ lists. length lists ≡ leaves) }
    ensures below { IfOk result (λ lists. All (λ list. All (λ b. b.0 < bodies) list) lists) }
{
    let mut lists = Items::new(alloc);
    for v in 0..leaves {
        let mut list = Items::new(alloc);
        list.push(BodyNo(v % bodies))?;
        lists.push(list)?;
    }
    Ok(lists)
}

fn repeated<T: Copy + Drop>(alloc: Global, item: T, count: u32) -> Result<Items<T>, NoMemory>
    ensures { IfOk result (λ items. length items ≡ count) }
{
    let mut items = Items::new(alloc);
    for _i in 0..count {
        items.push(item)?;
    }
    Ok(items)
}

// By body, the one before it on a circle.
fn circle(alloc: Global, bodies: u32) -> Result<Items<Items<BodyNo>>, NoMemory>
    requires { 0 < bodies }
    ensures { IfOk result (λ lists. AreLists bodies lists) }
{
    let mut lists = Items::new(alloc);
    let mut last = bodies - 1;
    for b in 0..bodies {
        let mut list = Items::new(alloc);
        list.push(BodyNo(last))?;
        lists.push(list)?;
        last = b;
    }
    Ok(lists)
}

// Bodies on a circle, each of which has some of so many leaves by itself.
fn on_circle(
    alloc: Global,
    bodies: u32,
    leaves: u32,
    library: bool,
    beside: u32,
) -> Result<Bodies, NoMemory>
    requires { 0 < bodies }
    ensures { IfOk result (λ d. AreBodies d) }
{
    let holders = turns(alloc, bodies, leaves)?;
    let library = repeated(alloc, library, leaves)?;
    let sees = circle(alloc, bodies)?;
    let beside = repeated(alloc, beside, bodies)?;
    Ok(Bodies {
        holders,
        library,
        sees,
        beside,
    })
}

// Bodies on a circle, leaves, whether they are library leaves, leaves beside those of a row; the words of all rows, or 0, and the body for
// which there is no room.
const CIRCLES: [(u32, u32, bool, u32, u32, Option<u32>); 8] = [
    (512, 64, true, 0, 34_816, None),
    (512, 64, false, 0, 768, None),
    (1, 4096, true, 0, 262_337, None),
    (1, 4096, true, 1, 0, Some(0)),
    (1, 4097, false, 0, 0, Some(0)),
    (31, 4096, true, 0, 8_132_447, None),
    (32, 4096, true, 0, 0, Some(31)),
    (3, 0, true, 4096, 3, None),
];

#[test]
fn circles(rt: HostRuntime) -> Result<(), NoMemory> {
    for (bodies, leaves, library, beside, words, refused) in CIRCLES {
        let data = on_circle(rt.alloc(), bodies, leaves, library, beside)?;
        let (found, at) = match layout_of(rt.alloc(), &data)? {
            Laid::Out(layout) => (layout.words, None),
            Laid::TooLarge(b) => (0, Some(b.0)),
        };
        assert_eq!(rt; found, words, "{bodies} {leaves}");
        assert_eq!(rt; at, refused, "{bodies} {leaves}");
    }
    Ok(())
}
