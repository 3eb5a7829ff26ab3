ghost use Rattle.std.specs.Prelude.{◌≡◌, ◌≤◌, ◌<◌, Some, IfNone, IfSome, false, true, get_or, length, take};
ghost use Rattle.elaboration_order.specs.Order.{are_done};
ghost use Rattle.elaboration_order.specs.Queue.{needs};

use spark_base::Items;

/// What an item waits for. Items are known by their places, from 0, in the list of all rules.
#[derive(Drop)]
pub struct Rule {
    /// The items that must come before it.
    pub follows: Items<usize>,
    /// The items that had better come before it.
    pub prefers: Items<usize>,
}

/// The item at a place among those that a rule names: first those that must come, then those that had better.
pub(crate) fn need_at(rule: &Rule, at: usize) -> Option<usize>
    ensures none { IfNone result (length (needs rule.now) ≤ at) }
    ensures some { IfSome result (λ need. at < length (needs rule.now)) }
    ensures value { IfSome result (λ need. get_or (needs rule.now) at 0 ≡ need) }
{
    let musts = rule.follows.len();
    if at < musts {
        Some(*rule.follows.at(at))
    } else {
        rule.prefers.get(at - musts).copied()
    }
}

/// Whether an item has come.
pub(crate) fn is_done(done: &[bool], item: usize) -> bool
    ensures { result ≡ get_or done.now item false }
{
    if item < done.len() { done[item] } else { false }
}

/// How many items a rule names.
pub(crate) fn count(rule: &Rule) -> usize
    ensures { result ≡ length (needs rule.now) }
{
    rule.follows.as_slice().len() + rule.prefers.as_slice().len()
}

/// Whether the item at a place among those that a rule names has come.
fn is_met(rule: &Rule, done: &[bool], at: usize) -> bool
    requires { at < length (needs rule.now) }
    ensures { result ≡ get_or done.now (get_or (needs rule.now) at 0) false }
{
    match need_at(rule, at) {
        Some(need) => is_done(done, need),
        None => false,
    }
}

/// Goes on, from a place, past the items that have come: to the place of the first that has not, or behind the last.
#[tactic(auto, using(crate::proofs::Needs::one_more))]
pub(crate) fn pass(rule: &Rule, done: &[bool], from: usize) -> usize
    requires { from ≤ length (needs rule.now) }
    ensures goes_on { from ≤ result }
    ensures within { result ≤ length (needs rule.now) }
    ensures passed { are_done done.now (take from (needs rule.now)) ≡ true → are_done done.now (take result (needs rule.now)) ≡ true }
    ensures stops { result < length (needs rule.now) → get_or done.now (get_or (needs rule.now) result 0) false ≡ false }
{
    let all = count(rule);
    for at in from..all {
        if !is_met(rule, done, at) {
            return at;
        }
    }
    all
}
