use crate::components::Components;
use crate::first_on_cycle;
use crate::ranks::{all_fall, never_rise};
use spark_base::{Items, NoMemory};
use std::alloc::Global;
use std::test::Fail;

fn graph_of(alloc: Global, rows: &[&[usize]]) -> Result<Vec<Items<usize>>, NoMemory> {
    let mut graph = Vec::new(alloc);
    for row in rows {
        graph.push(Items::from_vec(Vec::from_slice(alloc, row)?))?;
    }
    Ok(graph)
}

fn first_of(alloc: Global, rows: &[&[usize]]) -> Result<Option<usize>, NoMemory> {
    let graph = graph_of(alloc, rows)?;
    first_on_cycle(alloc, graph.as_slice())
}

#[test]
fn graphs_without_a_cycle(rt: HostRuntime) -> Result<(), Fail> {
    let alloc = rt.alloc();
    assert_eq!(rt; first_of(alloc, &[])?, None);
    assert_eq!(rt; first_of(alloc, &[&[], &[0], &[0, 1, 1], &[2, 0]])?, None);
    assert_eq!(rt;
        first_of(alloc, &[&[3, 1], &[2, 9], &[3], &[4, 4, 7]])?,
        None
    );
    Ok(())
}

#[test]
fn the_first_on_a_cycle(rt: HostRuntime) -> Result<(), Fail> {
    let alloc = rt.alloc();
    assert_eq!(rt; first_of(alloc, &[&[0]])?, Some(0));
    assert_eq!(rt; first_of(alloc, &[&[1], &[2], &[1]])?, Some(1));
    assert_eq!(rt;
        first_of(alloc, &[&[2], &[2], &[3], &[4], &[3, 2]])?,
        Some(2)
    );
    Ok(())
}

/// Nodes between two cycles lie on none.
#[test]
fn what_stands_between_cycles_is_passed(rt: HostRuntime) -> Result<(), Fail> {
    let alloc = rt.alloc();
    let graph: [&[usize]; 6] = [&[1], &[2], &[3], &[4], &[3], &[5, 0]];
    assert_eq!(rt; first_of(alloc, &graph)?, Some(3));
    Ok(())
}

fn is_among(edges: &Items<usize>, node: usize) -> bool {
    edges.as_slice().iter().any(|next| *next == node)
}

/// The definition as it stands: the nodes to which walks of one edge, of two, and so on lead.
fn plain_is_on_cycle(alloc: Global, graph: &[Items<usize>], node: usize) -> Result<bool, NoMemory> {
    let mut ends = vec![in alloc; false; graph.len()]?;
    for (at, end) in ends.iter_mut().enumerate() {
        *end = at == node;
    }
    for _ in 0..graph.len() {
        let mut next_ends = vec![in alloc; false; graph.len()]?;
        for (at, end) in next_ends.iter_mut().enumerate() {
            *end = is_reached(graph, ends.as_slice(), at);
        }
        if node < next_ends.len() && next_ends[node] {
            return Ok(true);
        }
        ends = next_ends;
    }
    Ok(false)
}

fn is_reached(graph: &[Items<usize>], ends: &[bool], node: usize) -> bool {
    for (edges, is_end) in graph.iter().zip(ends.iter()) {
        if *is_end && is_among(edges, node) {
            return true;
        }
    }
    false
}

fn plain_first(alloc: Global, graph: &[Items<usize>]) -> Result<Option<usize>, NoMemory> {
    for node in 0..graph.len() {
        if plain_is_on_cycle(alloc, graph, node)? {
            return Ok(Some(node));
        }
    }
    Ok(None)
}

fn next_random(seed: &mut u32) -> u32 {
    *seed = seed.wrapping_mul(1_664_525).wrapping_add(1_013_904_223);
    *seed >> 16
}

/// A graph of a few nodes with a few edges, some to nodes that are not there.
fn some_graph(alloc: Global, seed: &mut u32) -> Result<Vec<Items<usize>>, NoMemory> {
    let count = next_random(seed) % 9;
    let most = 1 + next_random(seed) % 3;
    let mut graph = Vec::new(alloc);
    for _ in 0..count {
        let mut edges = Items::new(alloc);
        for _ in 0..next_random(seed) % most + next_random(seed) % 2 {
            edges.push((next_random(seed) % (count + 1)) as usize)?;
        }
        graph.push(edges)?;
    }
    Ok(graph)
}

/// The nodes of which not all edges fall are those on cycles, and no edge rises: a search is never in vain.
#[test]
fn random_graphs_are_ranked_exactly(rt: HostRuntime) -> Result<(), Fail> {
    let alloc = rt.alloc();
    let mut seed = 5u32;
    for _ in 0..2_000 {
        let graph = some_graph(alloc, &mut seed)?;
        let ranks = Components::ranks(alloc, graph.as_slice())?;
        assert!(rt; never_rise(graph.as_slice(), ranks.as_slice()));
        for node in 0..graph.len() {
            let falls = all_fall(graph.as_slice(), ranks.as_slice(), node);
            assert_eq!(rt; !falls, plain_is_on_cycle(alloc, graph.as_slice(), node)?);
        }
    }
    Ok(())
}

#[test]
fn random_graphs_have_the_answer_of_the_definition(rt: HostRuntime) -> Result<(), Fail> {
    let alloc = rt.alloc();
    let mut seed = 11u32;
    for _ in 0..2_000 {
        let graph = some_graph(alloc, &mut seed)?;
        let first = first_on_cycle(alloc, graph.as_slice())?;
        assert_eq!(rt; first, plain_first(alloc, graph.as_slice())?);
    }
    Ok(())
}

/// A hundred thousand nodes that lead to a cycle of as many: a search from each of them would not end in the time of a test.
#[test]
fn many_nodes_come_in_time(rt: HostRuntime) -> Result<(), Fail> {
    let alloc = rt.alloc();
    let mut graph = Vec::new(alloc);
    for node in 0..200_000usize {
        let mut edges = Items::new(alloc);
        edges.push(if node < 199_999 { node + 1 } else { 100_000 })?;
        edges.push(node / 2 + 100_000)?;
        graph.push(edges)?;
    }
    assert_eq!(rt; first_on_cycle(alloc, graph.as_slice())?, Some(100_000));
    Ok(())
}
