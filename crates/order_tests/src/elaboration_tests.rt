use elaboration_order::{Rule, elaboration_order};
use spark_base::{Items, NoMemory};
use std::alloc::Global;
use std::test::Fail;

fn items_of(alloc: Global, numbers: &[usize]) -> Result<Items<usize>, NoMemory> {
    Ok(Items::from_vec(Vec::from_slice(alloc, numbers)?))
}

fn rules_of(alloc: Global, rows: &[(&[usize], &[usize])]) -> Result<Vec<Rule>, NoMemory> {
    let mut rules = Vec::new(alloc);
    for (follows, prefers) in rows {
        rules.push(Rule {
            follows: items_of(alloc, follows)?,
            prefers: items_of(alloc, prefers)?,
        })?;
    }
    Ok(rules)
}

/// Specs of P, Q and R with the bodies of P and Q: R's spec has P in a with clause, and waits for P's body.
#[test]
fn a_preferred_item_comes_first(rt: HostRuntime) -> Result<(), Fail> {
    let alloc = rt.alloc();
    let rows: [(&[usize], &[usize]); 5] = [
        (&[], &[]),
        (&[0, 2], &[3]),
        (&[], &[]),
        (&[2], &[]),
        (&[0], &[1]),
    ];
    let rules = rules_of(alloc, &rows)?;
    let order = elaboration_order(alloc, rules.as_slice())?;
    assert_eq!(rt; order.as_slice(), [0, 2, 3, 1, 4].as_slice());
    Ok(())
}

/// Two bodies that prefer each other: the first that may come does; and an item that follows itself never comes.
#[test]
fn circles_of_preference_do_not_block(rt: HostRuntime) -> Result<(), Fail> {
    let alloc = rt.alloc();
    let rows: [(&[usize], &[usize]); 5] = [
        (&[], &[]),
        (&[0, 2], &[3]),
        (&[], &[]),
        (&[0, 2], &[1]),
        (&[4], &[]),
    ];
    let rules = rules_of(alloc, &rows)?;
    let order = elaboration_order(alloc, rules.as_slice())?;
    assert_eq!(rt; order.as_slice(), [0, 2, 1, 3].as_slice());
    Ok(())
}

fn have_come(done: &[bool], items: &[usize]) -> bool {
    items.iter().all(|i| *i < done.len() && done[*i])
}

/// The definition as it stands: each time all items are looked at.
fn plain_next(rules: &[Rule], done: &[bool]) -> Option<usize> {
    let mut first = None;
    for (i, rule) in rules.iter().enumerate() {
        if i < done.len() && !done[i] && have_come(done, rule.follows.as_slice()) {
            if have_come(done, rule.prefers.as_slice()) {
                return Some(i);
            }
            if first.is_none() {
                first = Some(i);
            }
        }
    }
    first
}

fn plain_order(alloc: Global, rules: &[Rule]) -> Result<Vec<usize>, NoMemory> {
    let mut done = vec![in alloc; false; rules.len()]?;
    let mut order = Vec::new(alloc);
    for _ in 0..rules.len() {
        let Some(item) = plain_next(rules, done.as_slice()) else {
            break;
        };
        if item < done.len() {
            done[item] = true;
        }
        order.push(item)?;
    }
    Ok(order)
}

/// A few numbers below a bound, also doubled ones.
fn some_numbers(alloc: Global, seed: &mut u32, bound: u32) -> Result<Items<usize>, NoMemory> {
    let mut numbers = Items::new(alloc);
    for _ in 0..4 {
        *seed = seed.wrapping_mul(1_664_525).wrapping_add(1_013_904_223);
        let number = (*seed >> 16) % 48;
        if number < bound {
            numbers.push(number as usize)?;
        }
    }
    Ok(numbers)
}

#[test]
fn random_rules_have_the_order_of_the_definition(rt: HostRuntime) -> Result<(), Fail> {
    let alloc = rt.alloc();
    let mut seed = 7u32;
    for _ in 0..300 {
        let mut rules = Vec::new(alloc);
        for item in 0..24 {
            rules.push(Rule {
                follows: some_numbers(alloc, &mut seed, item)?,
                prefers: some_numbers(alloc, &mut seed, 24)?,
            })?;
        }
        let order = elaboration_order(alloc, rules.as_slice())?;
        let plain = plain_order(alloc, rules.as_slice())?;
        assert_eq!(rt; order.as_slice(), plain.as_slice());
    }
    Ok(())
}

/// Two hundred thousand items, each behind the one behind it: quadratic work would not end in the time of a test.
#[test]
fn many_items_come_in_time(rt: HostRuntime) -> Result<(), Fail> {
    let alloc = rt.alloc();
    let mut rules = Vec::new(alloc);
    for item in 0..200_000usize {
        let behind = if item < 199_999 { item + 1 } else { item - 1 };
        let mut follows = Items::new(alloc);
        let mut prefers = Items::new(alloc);
        if item < 199_999 {
            follows.push(behind)?;
        }
        prefers.push(item / 2)?;
        rules.push(Rule { follows, prefers })?;
    }
    let order = elaboration_order(alloc, rules.as_slice())?;
    assert_eq!(rt; order.len(), 200_000);
    assert_eq!(rt; order.as_slice().first().copied(), Some(199_999));
    Ok(())
}
