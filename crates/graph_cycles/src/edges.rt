ghost use Rattle.std.specs.Prelude.{◌≡◌, [], get_or};

use spark_base::Items;

/// The nodes to which the edges of a node lead. A node that is not there has none.
pub(crate) fn edges_of(graph: &[Items<usize>], node: usize) -> &[usize]
    ensures { result.now ≡ get_or graph.now node [] }
{
    if node < graph.len() {
        graph[node].as_slice()
    } else {
        &[]
    }
}
