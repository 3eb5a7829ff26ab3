//! The strongly connected components of a graph, ranked.
use crate::edges::edges_of;
use spark_base::{Items, NoMemory};
use std::alloc::Global;

/// The components of a graph while they are looked for, in depth, along one path at a time.
#[derive(Drop)]
pub struct Components {
    /// By node, when it was met, from 1, and 0 if it was not.
    met: Vec<usize>,
    /// By node, the rank of its component, from 1, and 0 if that is not complete.
    ranks: Vec<usize>,
    /// By node, how many of its edges were followed.
    followed: Vec<usize>,
    /// The nodes from the first to the one that is at hand, an edge from each to the next.
    path: Vec<usize>,
    /// The nodes that were met and whose components are not complete, in the order in which they were met.
    open: Vec<usize>,
    /// Of these the first of each component, as far as it is known.
    heads: Vec<usize>,
    /// When the last node was met.
    time: usize,
    /// The rank of the component that was completed last.
    rank: usize,
}

/// The number at a place, 0 where there is none.
fn number_at(numbers: &[usize], at: usize) -> usize {
    numbers.get(at).copied().unwrap_or(0)
}

/// Puts a number at a place, if there is such a one.
fn put_at(numbers: &mut Vec<usize>, at: usize, number: usize) {
    if at < numbers.len() {
        numbers[at] = number;
    }
}

/// A bound of the steps that follow an edge or go back over one.
fn steps_of(graph: &[Items<usize>]) -> usize {
    let mut steps = graph.len();
    for edges in graph {
        steps = steps.saturating_add(edges.len());
    }
    steps
}

impl Components {
    /// Ranks of the nodes, from 1: along an edge within a component the rank stays, along any other it falls.
    pub fn ranks(alloc: Global, graph: &[Items<usize>]) -> Result<Vec<usize>, NoMemory> {
        let mut components = Self::unmet(alloc, graph.len())?;
        let steps = steps_of(graph);
        for start in 0..graph.len() {
            if number_at(&components.met, start) == 0 {
                components.meet(start)?;
                components.go(graph, steps)?;
            }
        }
        let Components { ranks, .. } = components;
        Ok(ranks)
    }

    fn unmet(alloc: Global, count: usize) -> Result<Self, NoMemory> {
        Ok(Components {
            met: vec![in alloc; 0; count]?,
            ranks: vec![in alloc; 0; count]?,
            followed: vec![in alloc; 0; count]?,
            path: Vec::new(alloc),
            open: Vec::new(alloc),
            heads: Vec::new(alloc),
            time: 0,
            rank: 0,
        })
    }

    /// Goes on until the path has been gone back.
    fn go(&mut self, graph: &[Items<usize>], steps: usize) -> Result<(), NoMemory> {
        for _ in 0..steps {
            let Some(node) = self.path.last().copied() else {
                return Ok(());
            };
            self.step(graph, node)?;
        }
        Ok(())
    }

    /// Follows the next edge of the node that is at hand, or goes back where there is none.
    fn step(&mut self, graph: &[Items<usize>], node: usize) -> Result<(), NoMemory> {
        let at = number_at(&self.followed, node);
        let Some(next) = edges_of(graph, node).get(at).copied() else {
            self.leave(node);
            return Ok(());
        };
        put_at(&mut self.followed, node, at.saturating_add(1));
        if next >= graph.len() {
            return Ok(());
        }
        let time = number_at(&self.met, next);
        if time == 0 {
            return self.meet(next);
        }
        if number_at(&self.ranks, next) == 0 {
            self.join(time);
        }
        Ok(())
    }

    /// Goes to a node that was not met, as to the first of a component.
    fn meet(&mut self, node: usize) -> Result<(), NoMemory> {
        self.time = self.time.saturating_add(1);
        put_at(&mut self.met, node, self.time);
        self.path.push(node)?;
        self.open.push(node)?;
        self.heads.push(node)?;
        Ok(())
    }

    /// Joins the components of the open nodes that were met behind this time into one.
    fn join(&mut self, time: usize) {
        for _ in 0..self.heads.len() {
            let head = self.heads.last().copied().unwrap_or(0);
            if number_at(&self.met, head) <= time {
                return;
            }
            self.heads.pop();
        }
    }

    /// Goes back from a node; if it is the first of its component, this is complete.
    fn leave(&mut self, node: usize) {
        self.path.pop();
        if self.heads.last().copied() == Some(node) {
            self.heads.pop();
            self.rank = self.rank.saturating_add(1);
            self.complete(node);
        }
    }

    /// Ranks the open nodes from this one on.
    fn complete(&mut self, node: usize) {
        for _ in 0..self.open.len() {
            let Some(last) = self.open.pop() else {
                return;
            };
            put_at(&mut self.ranks, last, self.rank);
            if last == node {
                return;
            }
        }
    }
}
