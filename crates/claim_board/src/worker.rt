//! One worker.
ghost use Rattle.std.specs.Prelude.{◌≡◌, ℕ, ◌<◌, ◌≤◌, ◌+◌, ◌↔◌, ◌⊎◌, All, not, None, IfOk, IfSome, IsTrue, is_some, length, slice_index};
ghost use Rattle.call_lists.specs.Lists.{Names};
ghost use Rattle.claim_core.specs.Bits.{Within};
ghost use Rattle.claim_core.specs.System.{Ruled, system_of, owned_by};
ghost use Rattle.claim_core.specs.Machine.{begins, grows_by, after_read, after_join, after_wake, after_drop};
ghost use Rattle.claim_core.specs.Guards.{all_below};
ghost use Rattle.claim_board.specs.Told.{worker_told, IsWorker, seen_words};

use call_lists::mark;
use spark_base::{BodyNo, NoMemory};
use std::alloc::Global;

/// What a worker holds, the value of each word that it read since its claim, the bits that it joined since then, the bodies that it owes,
/// and whether it dropped.
#[derive(Drop)]
pub struct Worker {
    pub(crate) holds: Option<u32>,
    reads: Vec<Option<u64>>,
    joined: Vec<u64>,
    owes: Vec<bool>,
    dropped: bool,
}

impl Worker {
    // One that holds nothing, for so many bodies and words.
    pub(crate) fn new(alloc: Global, bodies: u32, words: u32) -> Result<Worker, NoMemory>
        ensures told { IfOk result (λ k. worker_told k ≡ begins None) }
        ensures worker { IfOk result (λ k. IsWorker bodies words k) }
    {
        let reads = vec![in alloc; None; words as usize]?;
        let joined = vec![in alloc; 0; words as usize]?;
        let owes = vec![in alloc; false; bodies as usize]?;
        Ok(Worker {
            holds: None,
            reads,
            joined,
            owes,
            dropped: false,
        })
    }

    // It begins with a body, or with none.
    pub(crate) fn begin(&mut self, holds: Option<u32>)
        ensures told { worker_told self.new ≡ begins holds }
        ensures worker { (bodies words : ℕ) → IsWorker bodies words self.old → IfSome holds (λ b. b < bodies) → IsWorker bodies words self.new }
    {
        self.holds = holds;
        self.reads.as_mut_slice().fill(None);
        self.joined.as_mut_slice().fill(0);
        self.owes.as_mut_slice().fill(false);
        self.dropped = false;
    }

    // It reads a word.
    pub(crate) fn note(&mut self, w: usize, value: u64)
        requires { w < length self.old.reads.items }
        ensures told { worker_told self.new ≡ after_read (worker_told self.old) w value }
        ensures worker { (bodies words : ℕ) → IsWorker bodies words self.old → IsWorker bodies words self.new }
    {
        self.reads[w] = Some(value);
    }

    // It joins bits to a word that was `old`, and owes the callers of its body where that word grew.
    pub(crate) fn join(&mut self, w: usize, bits: u64, old: u64, callers: &[BodyNo])
        requires word { w < length self.old.joined.items }
        requires callers { All (λ a. a.0 < length self.old.owes.items) callers.now }
        ensures told { (r : Ruled)
            → ((a : ℕ) → Names callers.now a ↔ IsTrue (owned_by (λ b. r.calls a b) (worker_told self.old).holds))
            → worker_told self.new ≡ after_join (system_of r) (worker_told self.old) w bits (grows_by old bits) }
        ensures worker { (bodies words : ℕ) → IsWorker bodies words self.old → IsWorker bodies words self.new }
    {
        self.joined[w] |= bits;
        if old | bits != old {
            self.owe(callers);
        }
    }

    // It owes some bodies more.
    fn owe(&mut self, bodies: &[BodyNo])
        requires { All (λ b. b.0 < length self.old.owes.items) bodies.now }
        ensures told { worker_told self.new ≡ record (worker_told self.old) { owes = (worker_told self.new).owes } }
        ensures owes { (a : ℕ) → IsTrue ((worker_told self.new).owes a) ↔ (IsTrue ((worker_told self.old).owes a) ⊎ Names bodies.now a) }
        ensures worker { (count words : ℕ) → IsWorker count words self.old → IsWorker count words self.new }
    {
        mark(bodies, self.owes.as_mut_slice());
    }

    // It woke a body.
    pub(crate) fn pay(&mut self, a: BodyNo)
        requires { a.0 < length self.old.owes.items }
        ensures told { worker_told self.new ≡ after_wake (worker_told self.old) a.0 }
        ensures worker { (bodies words : ℕ) → IsWorker bodies words self.old → IsWorker bodies words self.new }
    {
        self.owes[a.0 as usize] = false;
        if self.holds == Some(a.0) {
            self.dropped = true;
        }
    }

    // Its body was marked as dirty.
    pub(crate) fn drop_held(&mut self)
        ensures told { worker_told self.new ≡ after_drop (worker_told self.old) }
        ensures worker { (bodies words : ℕ) → IsWorker bodies words self.old → IsWorker bodies words self.new }
    {
        self.dropped = true;
    }

    pub(crate) fn owes(&self, a: BodyNo) -> bool
        ensures value { result ≡ (worker_told self.now).owes a.0 }
        ensures within { IsTrue result → a.0 < length self.now.owes.items }
    {
        match self.owes.get(a.0 as usize) {
            None => false,
            Some(owes) => *owes,
        }
    }

    pub(crate) fn owes_none(&self) -> bool
        ensures { result ≡ all_below (length self.now.owes.items) (λ a. not ((worker_told self.now).owes a)) }
    {
        let mut none = true;
        for owes in &self.owes {
            none = none && !*owes;
        }
        none
    }

    // Whether it read so many words from one on.
    pub(crate) fn has_read(&self, first: usize, count: usize) -> bool
        requires { first + count ≤ length self.now.reads.items }
        ensures { IsTrue result ↔ ((w : ℕ) → first ≤ w → w < first + count → IsTrue (is_some ((worker_told self.now).reads w))) }
    {
        for w in first..first + count {
            if self.reads[w].is_none() {
                return false;
            }
        }
        true
    }

    // Whether it joined all bits of some words, which begin at one.
    pub(crate) fn has_joined(&self, first: usize, words: &[u64]) -> bool
        requires { first + length words.now ≤ length self.now.joined.items }
        ensures { IsTrue result ↔ ((k : ℕ) → k < length words.now → Within (slice_index words.now k) ((worker_told self.now).joined (first + k))) }
    {
        for k in 0..words.len() {
            if words[k] | self.joined[first + k] != self.joined[first + k] {
                return false;
            }
        }
        true
    }

    // The words as it read them; one that it did not read counts as 0.
    pub(crate) fn seen(&self, alloc: Global) -> Result<Vec<u64>, NoMemory>
        ensures { IfOk result (λ v. v.items ≡ seen_words self.now.reads.items) }
    {
        let mut seen = Vec::new(alloc);
        for value in &self.reads {
            seen.push(value.unwrap_or(0))?;
        }
        Ok(seen)
    }
}
