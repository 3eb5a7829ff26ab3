//! The items that may come next, kept so that the next is found at once.
ghost use Rattle.std.specs.Prelude.{◌≡◌, ◌≤◌, ◌<◌, ◌⊎◌, ℕ, Bool, true, false, List, [], ◌∷◌, ◌++◌, Some, get_or, set, length, replicate, IfOk, IfNone, IfSome, OnErr, OnOk};
ghost use Rattle.std.specs.List.{Contains};
ghost use Rattle.elaboration_order.specs.Order.{next};
ghost use Rattle.elaboration_order.specs.declared.rules.Rule.{Rule as TheRule};
ghost use Rattle.elaboration_order.specs.Queue.{Begun, Settled, HasRoom, IsKept, either_first, flagged, has, without};

use crate::rules::{Rule, count, need_at, pass};
use crate::sets::{add_where, take_first, take_out};
use spark_base::{Items, NoMemory};
use std::alloc::Global;
use std::collections::BTreeSet;
use std::mem;

/// What has come so far, and what may come next. The lists are by item.
#[derive(Drop)]
pub struct Queue {
    done: Vec<bool>,
    /// How many of the items that its rule names, from the first on, are known to have come.
    passed: Vec<usize>,
    /// The items of which it is the next one that has not come.
    waiting: Vec<Items<usize>>,
    /// The items that may come.
    possible: BTreeSet<usize>,
    /// Those of them that had better come.
    preferred: BTreeSet<usize>,
}

/// Lists an item under another, for which it waits, if there is such a one.
fn list_under(
    waiting: &mut Vec<Items<usize>>,
    need: Option<usize>,
    item: usize,
) -> Result<(), NoMemory>
    ensures room { length waiting.new.items ≡ length waiting.old.items }
    ensures keeps { (k x : ℕ) → Contains (get_or waiting.old.items k []) x → Contains (get_or waiting.new.items k []) x }
    ensures lists { OnOk result ((k : ℕ) → need ≡ Some k → k < length waiting.old.items → Contains (get_or waiting.new.items k []) item) }
{
    match need {
        Some(need) if need < waiting.len() => push_at(waiting, need, item),
        _ => Ok(()),
    }
}

/// Adds an item to one of the lists.
fn push_at(lists: &mut Vec<Items<usize>>, at: usize, item: usize) -> Result<(), NoMemory>
    requires { at < length lists.old.items }
    ensures ok { OnOk result (lists.new.items ≡ set lists.old.items at (get_or lists.old.items at [] ++ item ∷ [])) }
    ensures err { OnErr result (lists.new.items ≡ lists.old.items) }
{
    let list = &mut lists[at];
    list.push(item)
}

/// Takes out the first of those that had better come, and where there is none the first of those that may.
fn pick(possible: &mut BTreeSet<usize>, preferred: &mut BTreeSet<usize>) -> Option<usize>
    ensures value { (p q : ℕ → Bool) (n : ℕ) → ((i : ℕ) → has preferred.old i ≡ p i) → ((i : ℕ) → has possible.old i ≡ q i) → ((i : ℕ) → p i ≡ true → i < n) → ((i : ℕ) → q i ≡ true → i < n) → result ≡ either_first p q n }
    ensures member { IfSome result (λ k. (has preferred.old k ≡ true) ⊎ (has possible.old k ≡ true)) }
    ensures possible { (i : ℕ) → has possible.new i ≡ without result (has possible.old i) i }
    ensures preferred { (i : ℕ) → has preferred.new i ≡ without result (has preferred.old i) i }
{
    match take_first(preferred) {
        Some(item) => {
            take_out(possible, item);
            Some(item)
        }
        None => take_first(possible),
    }
}

impl Queue {
    /// Nothing has come.
    pub fn new(alloc: Global, rules: &[Rule]) -> Result<Self, NoMemory>
        ensures kept { IfOk result (λ q. IsKept rules.now q) }
        ensures none { IfOk result (λ q. q.done.items ≡ replicate (length rules.now) false) }
    {
        let mut queue = Self::unseen(alloc, rules.len())?;
        for item in 0..rules.len() {
            queue.settle(rules, item)?;
        }
        Ok(queue)
    }

    /// Nothing has come, and nothing was seen to.
    fn unseen(alloc: Global, count: usize) -> Result<Self, NoMemory>
        ensures begun { IfOk result (λ q. (rules : List TheRule) → length rules ≡ count → (i : ℕ) → Begun rules q i) }
        ensures room { IfOk result (λ q. (rules : List TheRule) → length rules ≡ count → HasRoom rules q) }
        ensures none { IfOk result (λ q. q.done.items ≡ replicate count false) }
    {
        let mut waiting = Vec::new(alloc);
        for _ in 0..count {
            waiting.push(Items::new(alloc))?;
        }
        Ok(Queue {
            done: vec![in alloc; false; count]?,
            passed: vec![in alloc; 0; count]?,
            waiting,
            possible: BTreeSet::new(alloc),
            preferred: BTreeSet::new(alloc),
        })
    }

    /// Sees to an item: puts it into the sets into which it belongs, or lists it under what it waits for.
    fn settle(&mut self, rules: &[Rule], item: usize) -> Result<(), NoMemory>
        requires room { HasRoom rules.now self.old }
        requires begun { Begun rules.now self.old item }
        ensures done { self.new.done ≡ self.old.done }
        ensures room { HasRoom rules.now self.new }
        ensures settled { OnOk result (Settled rules.now self.new item) }
        ensures begun { OnOk result ((i : ℕ) → Begun rules.now self.old i → Begun rules.now self.new i) }
        ensures others { OnOk result ((i : ℕ) → Settled rules.now self.old i → Settled rules.now self.new i) }
    {
        if item >= rules.len() {
            return Ok(());
        }
        if self.done[item] {
            return Ok(());
        }
        let rule = &rules[item];
        let passed = pass(rule, self.done.as_slice(), self.passed[item]);
        self.passed[item] = passed;
        add_where(&mut self.possible, item, rule.follows.len(), passed)?;
        add_where(&mut self.preferred, item, count(rule), passed)?;
        list_under(&mut self.waiting, need_at(rule, passed), item)?;
        Ok(())
    }

    /// Takes the next item out of the sets, if one may come, and notes that it has come.
    fn come(&mut self) -> Option<usize>
        requires { (i : ℕ) → (has self.old.possible i ≡ true) ⊎ (has self.old.preferred i ≡ true) → i < length self.old.done.items }
        ensures value { (rules : List TheRule) → IsKept rules self.old → result ≡ next rules self.old.done.items }
        ensures within { IfSome result (λ k. k < length self.old.done.items) }
        ensures done { self.new.done.items ≡ flagged self.old.done.items result }
        ensures room { (rules : List TheRule) → HasRoom rules self.old → HasRoom rules self.new }
        ensures none { IfNone result ((rules : List TheRule) → IsKept rules self.old → IsKept rules self.new) }
        ensures begun { (rules : List TheRule) → IsKept rules self.old → (i : ℕ) → Begun rules self.new i }
        ensures released { IfSome result (λ k. (rules : List TheRule) → IsKept rules self.old → (i : ℕ) → Settled rules self.new i ⊎ Contains (get_or self.new.waiting.items k []) i) }
    {
        let item = pick(&mut self.possible, &mut self.preferred)?;
        self.done[item] = true;
        Some(item)
    }

    /// The item that comes next, if one may.
    pub fn next(&mut self, alloc: Global, rules: &[Rule]) -> Result<Option<usize>, NoMemory>
        requires { IsKept rules.now self.old }
        ensures value { IfOk result (λ o. o ≡ next rules.now self.old.done.items) }
        ensures kept { OnOk result (IsKept rules.now self.new) }
        ensures done { IfOk result (λ o. self.new.done.items ≡ flagged self.old.done.items o) }
    {
        let Some(item) = self.come() else {
            return Ok(None);
        };
        let released = mem::replace(&mut self.waiting[item], Items::new(alloc));
        for other in released.as_slice() {
            self.settle(rules, *other)?;
        }
        Ok(Some(item))
    }
}
