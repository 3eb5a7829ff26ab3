use spark_base::{Items, NoMemory};
use std::alloc::Global;
use std::test::Fail;
use unit_names::{Head, Part, UnitFault, Withed, name_fault};

/// A unit by its part, its name and what it withs.
type Row<'a> = (Part, usize, &'a [Withed]);

const P: Withed = Withed::Package(0);

const Q: Withed = Withed::Package(1);

fn heads_of(alloc: Global, rows: &[Row]) -> Result<Vec<Head>, NoMemory> {
    let mut heads = Vec::new(alloc);
    for (part, name, withs) in rows {
        heads.push(Head {
            part: *part,
            name: *name,
            withs: Items::from_vec(Vec::from_slice(alloc, withs)?),
        })?;
    }
    Ok(heads)
}

fn fault_of(alloc: Global, rows: &[Row]) -> Result<Option<UnitFault>, NoMemory> {
    name_fault(alloc, heads_of(alloc, rows)?.as_slice())
}

#[test]
fn units_without_a_fault(rt: HostRuntime) -> Result<(), Fail> {
    let alloc = rt.alloc();
    assert_eq!(rt; fault_of(alloc, &[])?, None);
    let rows: [Row; 5] = [
        (Part::Main, 2, &[P, Withed::Clock]),
        (Part::Body, 0, &[Q, P]),
        (Part::Spec, 0, &[]),
        (Part::Body, 1, &[]),
        (Part::Spec, 1, &[Q]),
    ];
    assert_eq!(rt; fault_of(alloc, &rows)?, None);
    Ok(())
}

#[test]
fn names_declared_twice(rt: HostRuntime) -> Result<(), Fail> {
    let alloc = rt.alloc();
    let specs: [Row; 3] = [
        (Part::Spec, 0, &[Q]),
        (Part::Body, 0, &[]),
        (Part::Spec, 0, &[]),
    ];
    assert_eq!(rt;
        fault_of(alloc, &specs)?,
        Some(UnitFault::Doubled { unit: 2 })
    );
    let bodies: [Row; 3] = [
        (Part::Body, 0, &[]),
        (Part::Spec, 0, &[]),
        (Part::Body, 0, &[]),
    ];
    assert_eq!(rt;
        fault_of(alloc, &bodies)?,
        Some(UnitFault::Doubled { unit: 2 })
    );
    let main_behind: [Row; 2] = [(Part::Spec, 0, &[]), (Part::Main, 0, &[])];
    assert_eq!(rt;
        fault_of(alloc, &main_behind)?,
        Some(UnitFault::Doubled { unit: 1 })
    );
    let body_behind: [Row; 2] = [(Part::Main, 0, &[]), (Part::Body, 0, &[])];
    assert_eq!(rt;
        fault_of(alloc, &body_behind)?,
        Some(UnitFault::Doubled { unit: 1 })
    );
    Ok(())
}

/// Two mains of one name are a second main; and a name that is declared twice comes before it, wherever it stands.
#[test]
fn second_mains(rt: HostRuntime) -> Result<(), Fail> {
    let alloc = rt.alloc();
    let alike: [Row; 3] = [
        (Part::Main, 0, &[]),
        (Part::Main, 0, &[]),
        (Part::Main, 1, &[]),
    ];
    assert_eq!(rt;
        fault_of(alloc, &alike)?,
        Some(UnitFault::SecondMain { unit: 1 })
    );
    let behind: [Row; 4] = [
        (Part::Main, 2, &[]),
        (Part::Main, 3, &[]),
        (Part::Spec, 0, &[]),
        (Part::Spec, 0, &[]),
    ];
    assert_eq!(rt;
        fault_of(alloc, &behind)?,
        Some(UnitFault::Doubled { unit: 3 })
    );
    Ok(())
}

/// What a with clause names is a spec, before or behind it: no body, and no main.
#[test]
fn with_clauses(rt: HostRuntime) -> Result<(), Fail> {
    let alloc = rt.alloc();
    let elsewhere: [Row; 2] = [
        (Part::Body, 0, &[]),
        (Part::Spec, 1, &[Q, Withed::Elsewhere, P]),
    ];
    assert_eq!(rt;
        fault_of(alloc, &elsewhere)?,
        Some(UnitFault::Unseen { unit: 1, with: 1 })
    );
    let body: [Row; 2] = [(Part::Body, 0, &[]), (Part::Spec, 1, &[Q, P])];
    assert_eq!(rt;
        fault_of(alloc, &body)?,
        Some(UnitFault::Unseen { unit: 1, with: 1 })
    );
    let main: [Row; 2] = [
        (Part::Spec, 0, &[P]),
        (Part::Main, 1, &[P, Withed::Clock, Q]),
    ];
    assert_eq!(rt;
        fault_of(alloc, &main)?,
        Some(UnitFault::Unseen { unit: 1, with: 2 })
    );
    Ok(())
}

#[test]
fn bodies_without_a_spec(rt: HostRuntime) -> Result<(), Fail> {
    let alloc = rt.alloc();
    let rows: [Row; 4] = [
        (Part::Body, 0, &[Q]),
        (Part::Spec, 1, &[]),
        (Part::Body, 2, &[]),
        (Part::Spec, 0, &[]),
    ];
    assert_eq!(rt;
        fault_of(alloc, &rows)?,
        Some(UnitFault::WithoutSpec { unit: 2 })
    );
    Ok(())
}

fn has(units: &[Head], part: Part, name: usize) -> bool {
    units.iter().any(|u| u.part == part && u.name == name)
}

/// Whether a unit has the name of one before it, by the words of the definition.
fn plain_doubled(before: &[Head], head: &Head) -> bool {
    match head.part {
        Part::Main => has(before, Part::Spec, head.name) || has(before, Part::Body, head.name),
        part => has(before, part, head.name) || has(before, Part::Main, head.name),
    }
}

fn plain_seen(units: &[Head], withed: Withed) -> bool {
    match withed {
        Withed::Package(name) => has(units, Part::Spec, name),
        Withed::Clock => true,
        Withed::Elsewhere => false,
    }
}

fn plain_unseen(units: &[Head]) -> Option<UnitFault> {
    for (unit, head) in units.iter().enumerate() {
        for (with, withed) in head.withs.as_slice().iter().enumerate() {
            if !plain_seen(units, *withed) {
                return Some(UnitFault::Unseen { unit, with });
            }
        }
    }
    None
}

fn plain_first_doubled(units: &[Head]) -> Option<usize> {
    for unit in 0..units.len() {
        if plain_doubled(&units[..unit], &units[unit]) {
            return Some(unit);
        }
    }
    None
}

fn plain_second_main(units: &[Head]) -> Option<usize> {
    let mut has_main = false;
    for (unit, head) in units.iter().enumerate() {
        let is_main = head.part == Part::Main;
        if is_main && has_main {
            return Some(unit);
        }
        has_main = has_main || is_main;
    }
    None
}

fn plain_fault(units: &[Head]) -> Option<UnitFault> {
    if let Some(unit) = plain_first_doubled(units) {
        return Some(UnitFault::Doubled { unit });
    }
    if let Some(unit) = plain_second_main(units) {
        return Some(UnitFault::SecondMain { unit });
    }
    if let Some(fault) = plain_unseen(units) {
        return Some(fault);
    }
    for (unit, head) in units.iter().enumerate() {
        if head.part == Part::Body && !has(units, Part::Spec, head.name) {
            return Some(UnitFault::WithoutSpec { unit });
        }
    }
    None
}

fn next_random(seed: &mut u32) -> usize {
    *seed = seed.wrapping_mul(1_664_525).wrapping_add(1_013_904_223);
    (*seed >> 16) as usize
}

/// A name, one of five or one of twenty-four.
fn some_name(seed: &mut u32, is_any: bool) -> usize {
    if is_any {
        next_random(seed) % 24
    } else {
        next_random(seed) % 5
    }
}

fn some_withed(seed: &mut u32, is_any: bool) -> Withed {
    match next_random(seed) % 24 {
        0 => Withed::Elsewhere,
        1 => Withed::Clock,
        _ => Withed::Package(some_name(seed, is_any)),
    }
}

fn some_part(seed: &mut u32) -> Part {
    match next_random(seed) % 12 {
        0 => Part::Main,
        1..=4 => Part::Body,
        _ => Part::Spec,
    }
}

/// A few units; few of their with clauses name what is not there.
fn some_units(alloc: Global, seed: &mut u32) -> Result<Vec<Head>, NoMemory> {
    let is_any = next_random(seed) % 3 == 0;
    let mut units = Vec::new(alloc);
    for _ in 0..next_random(seed) % 8 {
        let mut withs = Items::new(alloc);
        for _ in 0..next_random(seed) % 3 {
            withs.push(some_withed(seed, is_any))?;
        }
        units.push(Head {
            part: some_part(seed),
            name: some_name(seed, is_any),
            withs,
        })?;
    }
    Ok(units)
}

#[test]
fn random_units_have_the_fault_of_the_definition(rt: HostRuntime) -> Result<(), Fail> {
    let alloc = rt.alloc();
    let mut seed = 31u32;
    for _ in 0..4_000 {
        let units = some_units(alloc, &mut seed)?;
        assert_eq!(rt;
            name_fault(alloc, units.as_slice())?,
            plain_fault(units.as_slice())
        );
    }
    Ok(())
}
