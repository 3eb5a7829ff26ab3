use package_order::{Elaboration, Item, Package, elaborate};
use spark_base::{Items, NoMemory};
use std::alloc::Global;
use std::test::Fail;

/// A package by the numbers that its spec withs, and those that its body withs.
type Row<'a> = (&'a [usize], Option<&'a [usize]>);

fn items_of(alloc: Global, numbers: &[usize]) -> Result<Items<usize>, NoMemory> {
    Ok(Items::from_vec(Vec::from_slice(alloc, numbers)?))
}

fn packages_of(alloc: Global, rows: &[Row]) -> Result<Vec<Package>, NoMemory> {
    let mut packages = Vec::new(alloc);
    for (withs, body_withs) in rows {
        packages.push(Package {
            withs: items_of(alloc, withs)?,
            body_withs: match body_withs {
                Some(more) => Some(items_of(alloc, more)?),
                None => None,
            },
        })?;
    }
    Ok(packages)
}

/// The items by two numbers in one: ten times the package's, and one more for a body.
fn told(alloc: Global, answer: &Elaboration) -> Result<Vec<usize>, NoMemory> {
    let mut numbers = Vec::new(alloc);
    if let Elaboration::Order(items) = answer {
        for item in items.as_slice() {
            let part: usize = if item.is_body { 1 } else { 0 };
            numbers.push(item.number.wrapping_mul(10).wrapping_add(part))?;
        }
    }
    Ok(numbers)
}

fn order_of(alloc: Global, rows: &[Row]) -> Result<Vec<usize>, NoMemory> {
    let packages = packages_of(alloc, rows)?;
    told(alloc, &elaborate(alloc, packages.as_slice())?)
}

fn circle_of(alloc: Global, rows: &[Row]) -> Result<Option<usize>, NoMemory> {
    let packages = packages_of(alloc, rows)?;
    match elaborate(alloc, packages.as_slice())? {
        Elaboration::Circle(package) => Ok(Some(package)),
        Elaboration::Order(_) => Ok(None),
    }
}

#[test]
fn orders(rt: HostRuntime) -> Result<(), Fail> {
    let alloc = rt.alloc();
    assert_eq!(rt; order_of(alloc, &[])?.as_slice(), [].as_slice());
    // a spec waits for the body of what it withs
    let waits: [Row; 3] = [(&[], None), (&[2], None), (&[], Some(&[]))];
    assert_eq!(rt;
        order_of(alloc, &waits)?.as_slice(),
        [0, 20, 21, 10].as_slice()
    );
    // a package without body is preferred at once
    let bare: [Row; 3] = [(&[1, 2], Some(&[])), (&[], None), (&[], None)];
    assert_eq!(rt;
        order_of(alloc, &bare)?.as_slice(),
        [10, 20, 0, 1].as_slice()
    );
    // what a body withs comes before it, and its body too
    let body: [Row; 2] = [(&[], Some(&[1])), (&[], Some(&[]))];
    assert_eq!(rt;
        order_of(alloc, &body)?.as_slice(),
        [0, 10, 11, 1].as_slice()
    );
    Ok(())
}

/// Bodies that with each other's specs: none is preferred, and the first that may come does.
#[test]
fn bodies_with_each_other(rt: HostRuntime) -> Result<(), Fail> {
    let alloc = rt.alloc();
    let rows: [Row; 3] = [(&[], Some(&[1])), (&[], Some(&[0])), (&[0], None)];
    assert_eq!(rt;
        order_of(alloc, &rows)?.as_slice(),
        [0, 10, 1, 11, 20].as_slice()
    );
    Ok(())
}

#[test]
fn circles_of_specs(rt: HostRuntime) -> Result<(), Fail> {
    let alloc = rt.alloc();
    let rows: [Row; 4] = [(&[1], Some(&[])), (&[2], None), (&[3], None), (&[1], None)];
    assert_eq!(rt; circle_of(alloc, &rows)?, Some(1));
    let own: [Row; 2] = [(&[], Some(&[0, 1])), (&[1], None)];
    assert_eq!(rt; circle_of(alloc, &own)?, Some(1));
    let bodies: [Row; 2] = [(&[], Some(&[0, 1])), (&[], Some(&[1, 0]))];
    assert_eq!(rt; circle_of(alloc, &bodies)?, None);
    Ok(())
}

fn has_come(done: &[Item], package: usize, is_body: bool) -> bool {
    done.iter()
        .any(|item| item.number == package && item.is_body == is_body)
}

fn has_body(packages: &[Package], package: usize) -> bool {
    package < packages.len() && packages[package].body_withs.is_some()
}

fn are_fit(packages: &[Package], done: &[Item], names: &[usize], preferred: bool) -> bool {
    for name in names {
        if !has_come(done, *name, false) {
            return false;
        }
        if preferred && has_body(packages, *name) && !has_come(done, *name, true) {
            return false;
        }
    }
    true
}

/// Whether an item may come, by the words of the definition.
fn may_come(packages: &[Package], done: &[Item], item: Item, preferred: bool) -> bool {
    if has_come(done, item.number, item.is_body) || item.number >= packages.len() {
        return false;
    }
    let package = &packages[item.number];
    if !are_fit(packages, done, package.withs.as_slice(), preferred) {
        return false;
    }
    if !item.is_body {
        return true;
    }
    match &package.body_withs {
        Some(more) => {
            has_come(done, item.number, false)
                && are_fit(packages, done, more.as_slice(), preferred)
        }
        None => false,
    }
}

fn first_of(packages: &[Package], done: &[Item], preferred: bool) -> Option<Item> {
    for package in 0..packages.len() {
        for is_body in [false, true] {
            let item = Item {
                number: package,
                is_body,
            };
            if may_come(packages, done, item, preferred) {
                return Some(item);
            }
        }
    }
    None
}

fn plain_order(alloc: Global, packages: &[Package]) -> Result<Items<Item>, NoMemory> {
    let mut done = Items::new(alloc);
    for _ in 0..packages.len() * 2 {
        let preferred = first_of(packages, done.as_slice(), true);
        match preferred.or(first_of(packages, done.as_slice(), false)) {
            Some(item) => done.push(item)?,
            None => return Ok(done),
        }
    }
    Ok(done)
}

/// The numbers, each in the place that it has in an order of the packages.
fn moved(alloc: Global, numbers: &[usize], places: &[usize]) -> Result<Items<usize>, NoMemory> {
    let mut list = Items::new(alloc);
    for number in numbers {
        if *number < places.len() {
            list.push(places[*number])?;
        }
    }
    Ok(list)
}

/// The packages in another order, `places` having the new place of each.
fn rearranged(alloc: Global, rows: &[Row], places: &[usize]) -> Result<Vec<Package>, NoMemory> {
    let mut packages = Vec::new(alloc);
    for place in 0..rows.len() {
        for ((withs, body_withs), at) in rows.iter().zip(places.iter()) {
            if *at == place {
                packages.push(Package {
                    withs: moved(alloc, withs, places)?,
                    body_withs: match body_withs {
                        Some(more) => Some(moved(alloc, more, places)?),
                        None => None,
                    },
                })?;
            }
        }
    }
    Ok(packages)
}

/// Four packages in all orders of their specs: the order of elaboration is that of the definition in each.
#[test]
fn four_packages_in_all_orders(rt: HostRuntime) -> Result<(), Fail> {
    let alloc = rt.alloc();
    let rows: [Row; 4] = [
        (&[], Some(&[1, 2])),
        (&[0], Some(&[3])),
        (&[], Some(&[1])),
        (&[2], None),
    ];
    for number in 0..256usize {
        let places = [number % 4, number / 4 % 4, number / 16 % 4, number / 64];
        let packages = rearranged(alloc, &rows, &places)?;
        let is_order = (0..4usize).all(|place| places.iter().any(|at| *at == place));
        if is_order {
            assert!(rt; is_plain(alloc, packages.as_slice())?);
        }
    }
    Ok(())
}

fn next_random(seed: &mut u32) -> usize {
    *seed = seed.wrapping_mul(1_664_525).wrapping_add(1_013_904_223);
    (*seed >> 16) as usize
}

/// A few numbers below a bound.
fn some_numbers(alloc: Global, seed: &mut u32, bound: usize) -> Result<Items<usize>, NoMemory> {
    let mut numbers = Items::new(alloc);
    for _ in 0..next_random(seed) % 4 {
        let number = next_random(seed) % 12;
        if number < bound {
            numbers.push(number)?;
        }
    }
    Ok(numbers)
}

/// Ten packages: each spec withs some before it, and each body any; then they are turned round.
fn some_packages(alloc: Global, seed: &mut u32) -> Result<Vec<Package>, NoMemory> {
    let mut packages = Vec::new(alloc);
    for number in 0..10 {
        packages.push(Package {
            withs: some_numbers(alloc, seed, number)?,
            body_withs: if next_random(seed) % 3 > 0 {
                Some(some_numbers(alloc, seed, 10)?)
            } else {
                None
            },
        })?;
    }
    Ok(packages)
}

/// The numbers, counted from the end.
fn turned(alloc: Global, numbers: &Items<usize>) -> Result<Items<usize>, NoMemory> {
    let mut list = Items::new(alloc);
    for number in numbers.as_slice() {
        list.push(if *number < 10 { 9 - *number } else { *number })?;
    }
    Ok(list)
}

fn turned_round(alloc: Global, packages: &[Package]) -> Result<Vec<Package>, NoMemory> {
    let mut list = Vec::new(alloc);
    for package in packages.iter().rev() {
        list.push(Package {
            withs: turned(alloc, &package.withs)?,
            body_withs: match &package.body_withs {
                Some(more) => Some(turned(alloc, more)?),
                None => None,
            },
        })?;
    }
    Ok(list)
}

fn is_plain(alloc: Global, packages: &[Package]) -> Result<bool, NoMemory> {
    match elaborate(alloc, packages)? {
        Elaboration::Circle(_) => Ok(false),
        Elaboration::Order(items) => {
            Ok(items.as_slice() == plain_order(alloc, packages)?.as_slice())
        }
    }
}

#[test]
fn random_packages_have_the_order_of_the_definition(rt: HostRuntime) -> Result<(), Fail> {
    let alloc = rt.alloc();
    let mut seed = 23u32;
    for _ in 0..200 {
        let packages = some_packages(alloc, &mut seed)?;
        assert!(rt; is_plain(alloc, packages.as_slice())?);
        assert!(rt; is_plain(alloc, turned_round(alloc, packages.as_slice())?.as_slice())?);
    }
    Ok(())
}

/// A hundred thousand packages, each of which withs the one behind it: quadratic work would not end in the time of a test.
#[test]
fn many_packages_come_in_time(rt: HostRuntime) -> Result<(), Fail> {
    let alloc = rt.alloc();
    let mut packages = Vec::new(alloc);
    for number in 0..100_000usize {
        let mut withs = Items::new(alloc);
        if number < 99_999 {
            withs.push(number + 1)?;
        }
        let mut body_withs = Items::new(alloc);
        body_withs.push(number / 2)?;
        packages.push(Package {
            withs,
            body_withs: Some(body_withs),
        })?;
    }
    match elaborate(alloc, packages.as_slice())? {
        Elaboration::Circle(_) => assert!(rt; false),
        Elaboration::Order(items) => {
            assert_eq!(rt; items.len(), 200_000);
            assert_eq!(rt;
                items.as_slice().first().copied(),
                Some(Item {
                    number: 99_999,
                    is_body: false
                })
            );
        }
    }
    Ok(())
}
