//! The board, and each step on it.
ghost use Rattle.std.specs.Prelude.{◌≡◌, ℕ, ◌<◌, ◌≤◌, ◌+◌, ◌↔◌, ◌&&◌, All, not, nat_lt, false, None, IfOk, IfSome, IsTrue, is_some, length, slice_index, slice_index_or};
ghost use Rattle.call_lists.specs.Lists.{Names};
ghost use Rattle.claim_core.specs.Bits.{Within, put_at};
ghost use Rattle.claim_core.specs.System.{Ruled, system_of, owned_by};
ghost use Rattle.claim_core.specs.Machine.{resumed, begins, seen, Claim, Read, Join, Wake, Release, Drop, act};
ghost use Rattle.claim_core.specs.Guards.{all_below};
ghost use Rattle.claim_board.specs.Told.{told, workers_told, bodies_in, words_in, workers_in, IsWorker, IsBoard, AreAsMany};

use crate::worker::Worker;
use spark_base::{BodyNo, NoMemory, WordNo};
use std::alloc::Global;

/// The words of all rows, which bodies are dirty, which are held, and the workers.
#[derive(Drop)]
pub struct Board {
    words: Vec<u64>,
    dirty: Vec<bool>,
    held: Vec<bool>,
    workers: Vec<Worker>,
}

// Sets the mark of a body, if there is one.
fn set_mark(marks: &mut Vec<bool>, b: Option<u32>, mark: bool)
    requires { IfSome b (λ x. x < length marks.old.items) }
    ensures size { length marks.new.items ≡ length marks.old.items }
    ensures set { (a : ℕ) → slice_index_or marks.new.items a false ≡ put_at (λ x. slice_index_or marks.old.items x false) b mark a }
{
    if let Some(b) = b {
        marks[b as usize] = mark;
    }
}

// Workers that hold nothing.
fn idle_workers(
    alloc: Global,
    bodies: u32,
    words: u32,
    workers: u32,
) -> Result<Vec<Worker>, NoMemory>
    ensures count { IfOk result (λ v. length v.items ≡ workers) }
    ensures workers { IfOk result (λ v. All (λ k. IsWorker bodies words k) v.items) }
    ensures idle { IfOk result (λ v. (i : ℕ) → workers_told v.items i ≡ begins None) }
{
    let mut list = Vec::new(alloc);
    for _i in 0..workers {
        list.push(Worker::new(alloc, bodies, words)?)?;
    }
    Ok(list)
}

impl Board {
    /// Empty words, bodies that are dirty and not held, and workers that hold nothing. It alone takes memory, and `seen`.
    pub fn new(alloc: Global, bodies: u32, words: u32, workers: u32) -> Result<Board, NoMemory>
        ensures board { IfOk result (λ s. IsBoard s) }
        ensures bodies { IfOk result (λ s. bodies_in s ≡ bodies) }
        ensures words { IfOk result (λ s. words_in s ≡ words) }
        ensures workers { IfOk result (λ s. workers_in s ≡ workers) }
        ensures told { IfOk result (λ s. told s ≡ resumed (λ w. 0) (λ b. nat_lt b bodies)) }
    {
        let workers = idle_workers(alloc, bodies, words, workers)?;
        Ok(Board {
            words: vec![in alloc; 0; words as usize]?,
            dirty: vec![in alloc; true; bodies as usize]?,
            held: vec![in alloc; false; bodies as usize]?,
            workers,
        })
    }

    /// The words of all rows.
    pub fn words(&self) -> &[u64]
        ensures { result.now ≡ self.now.words.items }
    {
        self.words.as_slice()
    }

    /// Whether there is a worker of this number.
    pub fn has_worker(&self, i: u32) -> bool
        ensures { IsTrue result ↔ (i < workers_in self.now) }
    {
        (i as usize) < self.workers.len()
    }

    /// The body that a worker holds.
    pub fn held_by(&self, i: u32) -> Option<u32>
        requires board { IsBoard self.now }
        requires worker { i < workers_in self.now }
        ensures value { result ≡ ((told self.now).workers i).holds }
        ensures within { IfSome result (λ b. b < bodies_in self.now) }
    {
        self.workers[i as usize].holds
    }

    /// Whether a body is dirty and is not held.
    pub fn is_free(&self, b: BodyNo) -> bool
        requires { IsBoard self.now }
        ensures value { result ≡ ((told self.now).dirty b.0 && not ((told self.now).held b.0)) }
        ensures within { IsTrue result → b.0 < bodies_in self.now }
    {
        self.is_dirty(b) && !self.held[b.0 as usize]
    }

    /// Whether a body is dirty.
    pub fn is_dirty(&self, b: BodyNo) -> bool
        ensures value { result ≡ (told self.now).dirty b.0 }
        ensures within { IsTrue result → b.0 < bodies_in self.now }
    {
        match self.dirty.get(b.0 as usize) {
            None => false,
            Some(dirty) => *dirty,
        }
    }

    /// Whether a worker owes a body.
    pub fn owes(&self, i: u32, a: BodyNo) -> bool
        requires board { IsBoard self.now }
        requires worker { i < workers_in self.now }
        ensures value { result ≡ ((told self.now).workers i).owes a.0 }
        ensures within { IsTrue result → a.0 < bodies_in self.now }
    {
        self.workers[i as usize].owes(a)
    }

    /// Whether a worker owes no body.
    pub fn owes_none(&self, i: u32) -> bool
        requires board { IsBoard self.now }
        requires worker { i < workers_in self.now }
        ensures { result ≡ all_below (bodies_in self.now) (λ a. not (((told self.now).workers i).owes a)) }
    {
        self.workers[i as usize].owes_none()
    }

    /// Whether a worker read so many words from one on.
    pub fn has_read(&self, i: u32, first: u32, count: u32) -> bool
        requires board { IsBoard self.now }
        requires worker { i < workers_in self.now }
        requires words { first + count ≤ words_in self.now }
        ensures { IsTrue result ↔ ((w : ℕ) → first ≤ w → w < first + count → IsTrue (is_some (((told self.now).workers i).reads w))) }
    {
        self.workers[i as usize].has_read(first as usize, count as usize)
    }

    /// Whether a worker joined all bits of some words, which begin at one.
    pub fn has_joined(&self, i: u32, first: u32, words: &[u64]) -> bool
        requires board { IsBoard self.now }
        requires worker { i < workers_in self.now }
        requires words { first + length words.now ≤ words_in self.now }
        ensures { IsTrue result ↔ ((k : ℕ) → k < length words.now
            → Within (slice_index words.now k) (((told self.now).workers i).joined (first + k))) }
    {
        self.workers[i as usize].has_joined(first as usize, words)
    }

    /// The words as a worker read them; one that it did not read counts as 0.
    pub fn seen(&self, alloc: Global, i: u32) -> Result<Vec<u64>, NoMemory>
        requires board { IsBoard self.now }
        requires worker { i < workers_in self.now }
        ensures size { IfOk result (λ v. length v.items ≡ words_in self.now) }
        ensures words { IfOk result (λ v. (w : ℕ) → slice_index v.items w ≡ seen ((told self.now).workers i) w) }
    {
        let seen = self.workers[i as usize].seen(alloc)?;
        Ok(seen)
    }

    /// A worker claims a body.
    pub fn claim(&mut self, i: u32, b: BodyNo)
        requires board { IsBoard self.old }
        requires worker { i < workers_in self.old }
        requires body { b.0 < bodies_in self.old }
        ensures board { IsBoard self.new }
        ensures as_many { AreAsMany self.old self.new }
        ensures told { (r : Ruled) → told self.new ≡ act (system_of r) (Claim i b.0) (told self.old) }
    {
        self.dirty[b.0 as usize] = false;
        self.held[b.0 as usize] = true;
        self.workers[i as usize].begin(Some(b.0));
    }

    /// A worker reads a word.
    pub fn read(&mut self, i: u32, w: WordNo)
        requires board { IsBoard self.old }
        requires worker { i < workers_in self.old }
        requires word { w.0 < words_in self.old }
        ensures board { IsBoard self.new }
        ensures as_many { AreAsMany self.old self.new }
        ensures told { (r : Ruled) → told self.new ≡ act (system_of r) (Read i w.0) (told self.old) }
    {
        let value = self.words[w.0 as usize];
        self.workers[i as usize].note(w.0 as usize, value);
    }

    /// A worker joins bits to a word, and owes the callers of its body where the word grew.
    pub fn join(&mut self, i: u32, w: WordNo, bits: u64, callers: &[BodyNo])
        requires board { IsBoard self.old }
        requires worker { i < workers_in self.old }
        requires word { w.0 < words_in self.old }
        requires callers { All (λ a. a.0 < bodies_in self.old) callers.now }
        ensures board { IsBoard self.new }
        ensures as_many { AreAsMany self.old self.new }
        ensures told { (r : Ruled)
            → ((a : ℕ) → Names callers.now a ↔ IsTrue (owned_by (λ b. r.calls a b) ((told self.old).workers i).holds))
            → told self.new ≡ act (system_of r) (Join i w.0 bits) (told self.old) }
    {
        let old = self.words[w.0 as usize];
        self.words[w.0 as usize] = old | bits;
        self.workers[i as usize].join(w.0 as usize, bits, old, callers);
    }

    /// A worker wakes a body.
    pub fn wake(&mut self, i: u32, a: BodyNo)
        requires board { IsBoard self.old }
        requires worker { i < workers_in self.old }
        requires body { a.0 < bodies_in self.old }
        ensures board { IsBoard self.new }
        ensures as_many { AreAsMany self.old self.new }
        ensures told { (r : Ruled) → told self.new ≡ act (system_of r) (Wake i a.0) (told self.old) }
    {
        self.dirty[a.0 as usize] = true;
        self.workers[i as usize].pay(a);
    }

    /// A worker gives the body back that it holds.
    pub fn release(&mut self, i: u32)
        requires board { IsBoard self.old }
        requires worker { i < workers_in self.old }
        ensures board { IsBoard self.new }
        ensures as_many { AreAsMany self.old self.new }
        ensures told { (r : Ruled) → told self.new ≡ act (system_of r) (Release i) (told self.old) }
    {
        let held = self.workers[i as usize].holds;
        set_mark(&mut self.held, held, false);
        self.workers[i as usize].begin(None);
    }

    /// A worker marks the body as dirty that it holds.
    pub fn drop_held(&mut self, i: u32)
        requires board { IsBoard self.old }
        requires worker { i < workers_in self.old }
        ensures board { IsBoard self.new }
        ensures as_many { AreAsMany self.old self.new }
        ensures told { (r : Ruled) → told self.new ≡ act (system_of r) (Drop i) (told self.old) }
    {
        let held = self.workers[i as usize].holds;
        set_mark(&mut self.dirty, held, true);
        self.workers[i as usize].drop_held();
    }
}
