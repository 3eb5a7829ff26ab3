//! The nodes that a search found.
ghost use Rattle.std.specs.Prelude.{◌≡◌, ◌≤◌, ◌<◌, ◌⊎◌, ℕ, [], false, length, get_or, IfNone, IfOk, IfSome, OnOk};
ghost use Rattle.std.specs.List.{Contains};
ghost use Rattle.graph_cycles.specs.Found.{IsFound, IsKept, Stays};

use spark_base::{Items, NoMemory};
use std::alloc::Global;

/// The nodes that a search found, each once, in the order in which they were found.
#[derive(Drop)]
pub struct Found {
    /// By node, whether it was found.
    seen: Vec<bool>,
    order: Items<usize>,
}

impl Found {
    /// None of so many nodes was found.
    pub fn new(alloc: Global, count: usize) -> Result<Self, NoMemory>
        ensures kept { IfOk result (λ found. IsKept found) }
        ensures room { IfOk result (λ found. length found.seen.items ≡ count) }
        ensures none { IfOk result (λ found. (k : ℕ) → IsFound found k → ⊥) }
        ensures empty { IfOk result (λ found. found.order ≡ []) }
    {
        Ok(Found {
            seen: vec![in alloc; false; count]?,
            order: Items::new(alloc),
        })
    }

    /// The node that was found at a place, from 0.
    pub fn at(&self, at: usize) -> Option<usize>
        ensures none { IfNone result (length self.now.order ≤ at) }
        ensures within { IfSome result (λ node. at < length self.now.order) }
        ensures value { IfSome result (λ node. get_or self.now.order at 0 ≡ node) }
    {
        self.order.get(at).copied()
    }

    /// Whether a node was found.
    pub fn has(&self, node: usize) -> bool
        ensures { result ≡ get_or self.now.seen.items node false }
    {
        if node < self.seen.len() {
            self.seen[node]
        } else {
            false
        }
    }

    /// Adds a node at the end, if it is there and was not found yet.
    fn add(&mut self, node: usize) -> Result<(), NoMemory>
        requires { IsKept self.old }
        ensures kept { OnOk result (IsKept self.new) }
        ensures room { OnOk result (length self.new.seen.items ≡ length self.old.seen.items) }
        ensures stays { OnOk result ((i : ℕ) → i < length self.old.order → Stays self.old.order self.new.order i) }
        ensures keeps { OnOk result ((k : ℕ) → IsFound self.old k → IsFound self.new k) }
        ensures has { OnOk result (node < length self.old.seen.items → IsFound self.new node) }
        ensures only { OnOk result ((k : ℕ) → IsFound self.new k → IsFound self.old k ⊎ (k ≡ node)) }
    {
        if node >= self.seen.len() {
            return Ok(());
        }
        if self.seen[node] {
            return Ok(());
        }
        self.seen[node] = true;
        self.order.push(node)?;
        Ok(())
    }

    /// Adds nodes.
    pub fn add_all(&mut self, nodes: &[usize]) -> Result<(), NoMemory>
        requires { IsKept self.old }
        ensures kept { OnOk result (IsKept self.new) }
        ensures room { OnOk result (length self.new.seen.items ≡ length self.old.seen.items) }
        ensures stays { OnOk result ((i : ℕ) → i < length self.old.order → Stays self.old.order self.new.order i) }
        ensures keeps { OnOk result ((k : ℕ) → IsFound self.old k → IsFound self.new k) }
        ensures has { OnOk result ((k : ℕ) → Contains nodes.now k → k < length self.old.seen.items → IsFound self.new k) }
        ensures only { OnOk result ((k : ℕ) → IsFound self.new k → IsFound self.old k ⊎ Contains nodes.now k) }
    {
        for node in nodes {
            self.add(*node)?;
        }
        Ok(())
    }
}
