ghost use Rattle.std.specs.Prelude.{ℕ, ◌<◌, ◌↔◌, IfNone, IfOk, IfSome, IsTrue};
ghost use Rattle.graph_cycles.specs.Cycles.{IsOnCycle};
ghost use Rattle.graph_cycles.specs.Ranks.{StaysLow};

use crate::components::Components;
use crate::ranks::{all_fall, never_rise};
use crate::search::comes_back;
use spark_base::{Items, NoMemory};
use std::alloc::Global;

/// Whether a node lies on a cycle. Where no edge rises, a node of which all edges fall is not searched from.
fn is_on_cycle(
    alloc: Global,
    graph: &[Items<usize>],
    ranks: &[usize],
    is_ranked: bool,
    node: usize,
) -> Result<bool, NoMemory>
    requires { IsTrue is_ranked → (at : ℕ) → StaysLow graph.now ranks.now at }
    ensures { IfOk result (λ answer. IsTrue answer ↔ IsOnCycle graph.now node) }
{
    if is_ranked && all_fall(graph, ranks, node) {
        return Ok(false);
    }
    comes_back(alloc, graph, node)
}

/// The first node from which edges lead back to it. A graph has for each of its nodes, from 0, the nodes to which its edges
/// lead; an edge to a node that is not there leads no further.
///
/// It takes the time of a few steps for each node and each edge. To each node a rank is given so that no edge rises, and
/// an edge falls unless it is on a cycle; so a node of which all edges fall lies on none. The ranks are checked and not
/// believed: were they wrong, only more nodes would be searched from.
pub fn first_on_cycle(alloc: Global, graph: &[Items<usize>]) -> Result<Option<usize>, NoMemory>
    ensures cycle { IfOk result (λ found. IfSome found (λ node. IsOnCycle graph.now node)) }
    ensures first { IfOk result (λ found. IfSome found (λ node. (earlier : ℕ) → earlier < node → IsOnCycle graph.now earlier → ⊥)) }
    ensures none { IfOk result (λ found. IfNone found ((node : ℕ) → IsOnCycle graph.now node → ⊥)) }
{
    let ranks = Components::ranks(alloc, graph)?;
    let is_ranked = never_rise(graph, ranks.as_slice());
    for node in 0..graph.len() {
        if is_on_cycle(alloc, graph, ranks.as_slice(), is_ranked, node)? {
            return Ok(Some(node));
        }
    }
    Ok(None)
}
