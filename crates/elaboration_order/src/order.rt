ghost use Rattle.std.specs.Prelude.{◌≡◌, IfOk};
ghost use Rattle.elaboration_order.specs.Order.{order};

use crate::queue::Queue;
use crate::rules::Rule;
use spark_base::{Items, NoMemory};
use std::alloc::Global;

/// The order of all items: again and again the first that may come and had better, and where there is none the first
/// that may. It ends where none may come.
///
/// It takes the time of one step for each item and each item that a rule names, and for each step that of a search in a
/// sorted set.
pub fn elaboration_order(alloc: Global, rules: &[Rule]) -> Result<Items<usize>, NoMemory>
    ensures { IfOk result (λ items. items ≡ order rules.now) }
{
    let mut queue = Queue::new(alloc, rules)?;
    let mut items = Items::new(alloc);
    for _ in 0..rules.len() {
        match queue.next(alloc, rules)? {
            Some(item) => items.push(item)?,
            None => return Ok(items),
        }
    }
    Ok(items)
}
