ghost use Rattle.std.specs.Prelude.{◌↔◌, IfOk, IsTrue};
ghost use Rattle.graph_cycles.specs.Cycles.{IsOnCycle};

use crate::edges::edges_of;
use crate::found::Found;
use spark_base::{Items, NoMemory};
use std::alloc::Global;

/// Whether edges lead from a node back to it. All nodes to which edges lead from it are looked for.
pub(crate) fn comes_back(
    alloc: Global,
    graph: &[Items<usize>],
    node: usize,
) -> Result<bool, NoMemory>
    ensures { IfOk result (λ answer. IsTrue answer ↔ IsOnCycle graph.now node) }
{
    let mut found = Found::new(alloc, graph.len())?;
    found.add_all(edges_of(graph, node))?;
    for at in 0..graph.len() {
        let Some(next) = found.at(at) else {
            return Ok(found.has(node));
        };
        found.add_all(edges_of(graph, next))?;
    }
    Ok(found.has(node))
}
