//! Ranks of nodes, along which edges fall or stay level.
ghost use Rattle.std.specs.Prelude.{◌≡◌, ℕ, IsTrue, get_or};
ghost use Rattle.graph_cycles.specs.Ranks.{Falls, StaysLow};

use crate::edges::edges_of;
use spark_base::Items;

/// The rank of a node, 0 of one that is not there.
fn rank_of(ranks: &[usize], node: usize) -> usize
    ensures { result ≡ get_or ranks.now node 0 }
{
    if node < ranks.len() { ranks[node] } else { 0 }
}

/// Whether no edge of a node leads to a higher rank.
fn none_rises(graph: &[Items<usize>], ranks: &[usize], node: usize) -> bool
    ensures { IsTrue result → StaysLow graph.now ranks.now node }
{
    let rank = rank_of(ranks, node);
    for next in edges_of(graph, node) {
        if rank_of(ranks, *next) > rank {
            return false;
        }
    }
    true
}

/// Whether no edge leads to a higher rank.
pub(crate) fn never_rise(graph: &[Items<usize>], ranks: &[usize]) -> bool
    ensures { IsTrue result → (node : ℕ) → StaysLow graph.now ranks.now node }
{
    for node in 0..graph.len() {
        if !none_rises(graph, ranks, node) {
            return false;
        }
    }
    true
}

/// Whether all edges of a node lead to lower ranks.
pub(crate) fn all_fall(graph: &[Items<usize>], ranks: &[usize], node: usize) -> bool
    ensures { IsTrue result → Falls graph.now ranks.now node }
{
    let rank = rank_of(ranks, node);
    for next in edges_of(graph, node) {
        if rank_of(ranks, *next) >= rank {
            return false;
        }
    }
    true
}
