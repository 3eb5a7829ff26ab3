ghost use Rattle.std.specs.Prelude.{◌<◌, ◌≤◌};

// Flows over so few names that a set is a word: the definition, with loops as unions of their unrollings.

/// Five leaves, and "not assigned".
pub const NAMES: u32 = 6;

pub const VOID: u32 = 5;

/// Next, Returns, and leaving one loop, two or three.
pub const OUTCOMES: usize = 5;

pub const NEXT: usize = 0;

pub const RETURNS: usize = 1;

/// A relation has the pair (v, w) at bit 8 v + w.
#[derive(Clone, Copy)]
pub struct Plain {
    pub reads: u64,
    pub writes: u64,
    pub decides: u64,
    pub can: [bool; 5],
    pub kept: [u64; 5],
    pub dep: [u64; 5],
}

pub const NOWHERE: Plain = Plain {
    reads: 0,
    writes: 0,
    decides: 0,
    can: [false; 5],
    kept: [0; 5],
    dep: [0; 5],
};

pub fn one(v: u32) -> u64
    requires { v < NAMES }
{
    1 << v
}

pub fn pair(v: u32, w: u32) -> u64
    requires from { v < NAMES }
    requires to { w < NAMES }
{
    1 << (8 * v + w)
}

fn behind(relation: u64, v: u32) -> u64
    requires { v < NAMES }
{
    relation >> (8 * v) & 255
}

fn compose(a: u64, b: u64) -> u64 {
    let mut both = 0;
    for v in 0..NAMES {
        for u in 0..NAMES {
            if a & pair(v, u) != 0 {
                both |= behind(b, u) << (8 * v);
            }
        }
    }
    both
}

// What leads to a set.
fn back(relation: u64, set: u64) -> u64 {
    let mut from = 0;
    for v in 0..NAMES {
        if behind(relation, v) & set != 0 {
            from |= one(v);
        }
    }
    from
}

fn cross(from: u64, to: u64) -> u64 {
    let mut pairs = 0;
    for v in 0..NAMES {
        if from & one(v) != 0 {
            pairs |= (to & 255) << (8 * v);
        }
    }
    pairs
}

fn splits(can: &[bool; 5]) -> bool {
    let mut count = 0u8;
    for o in 0..OUTCOMES {
        if can[o] {
            count = count.saturating_add(1);
        }
    }
    count > 1
}

// Each name but one with itself.
fn same_but(below: u32, x: u32) -> u64
    requires { below ≤ NAMES }
{
    let mut pairs = 0;
    for v in 0..below {
        if v != x {
            pairs |= pair(v, v);
        }
    }
    pairs
}

/// Nothing is done, and this is the outcome.
pub fn leaving(o: usize) -> Plain
    requires { o < OUTCOMES }
{
    let mut f = NOWHERE;
    f.can[o] = true;
    f.kept[o] = same_but(NAMES, NAMES);
    f.dep[o] = same_but(VOID, NAMES);
    f
}

/// A leaf is written from a set; a part of it, where the rest is kept.
pub fn moving(x: u32, from: u64, keeps: bool) -> Plain
    requires { x < VOID }
{
    let mut f = NOWHERE;
    f.reads = from;
    f.writes = one(x);
    f.can[NEXT] = true;
    let but = if keeps { NAMES } else { x };
    f.kept[NEXT] = same_but(NAMES, but);
    f.dep[NEXT] = same_but(VOID, but) | cross(from, one(x));
    f
}

/// A leaf is no longer assigned.
pub fn clearing(x: u32) -> Plain
    requires { x < VOID }
{
    let mut f = moving(x, 0, false);
    f.kept[NEXT] |= pair(VOID, x);
    f
}

/// One statement, and then another.
pub fn seq(a: &Plain, b: &Plain) -> Plain {
    let mut f = NOWHERE;
    f.reads = a.reads | (back(a.kept[NEXT], b.reads) & !one(VOID));
    f.writes = a.writes;
    if a.can[NEXT] {
        f.writes |= b.writes;
    }
    for o in 0..OUTCOMES {
        f.can[o] = (o != NEXT && a.can[o]) || (a.can[NEXT] && b.can[o]);
        f.kept[o] = compose(a.kept[NEXT], b.kept[o]);
        f.dep[o] = compose(a.dep[NEXT], b.dep[o]);
        if o != NEXT {
            f.kept[o] |= a.kept[o];
            f.dep[o] |= a.dep[o];
        }
        if o != NEXT && a.can[o] && a.can[NEXT] && b.can[o] {
            f.dep[o] |= cross(a.decides, a.writes | b.writes);
        }
    }
    if splits(&f.can) {
        f.decides = a.decides | back(a.dep[NEXT], b.decides);
    }
    f
}

/// One statement or another, by a test.
pub fn branch(test: u64, a: &Plain, b: &Plain) -> Plain {
    let mut f = NOWHERE;
    f.reads = test | a.reads | b.reads;
    f.writes = a.writes | b.writes;
    for o in 0..OUTCOMES {
        f.can[o] = a.can[o] || b.can[o];
        f.kept[o] = a.kept[o] | b.kept[o];
        f.dep[o] = a.dep[o] | b.dep[o];
        if f.can[o] {
            f.dep[o] |= cross(test, f.writes);
        }
    }
    if splits(&f.can) {
        f.decides = test | a.decides | b.decides;
    }
    f
}

/// A loop: each unrolling has the facts of those before it, and 64 are more than there are facts to come.
pub fn repeat(a: &Plain) -> Plain {
    let mut all = NOWHERE;
    for _ in 0..64 {
        all = seq(a, &all);
    }
    let mut f = NOWHERE;
    f.reads = all.reads;
    f.writes = all.writes;
    for o in 0..OUTCOMES {
        let inside = match o {
            0 => 2,
            1 => 1,
            _ => o + 1,
        };
        if inside < OUTCOMES {
            f.can[o] = all.can[inside];
            f.kept[o] = all.kept[inside];
            f.dep[o] = all.dep[inside];
        }
    }
    if splits(&f.can) {
        f.decides = all.decides;
    }
    f
}
