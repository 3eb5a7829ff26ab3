ghost use Rattle.std.specs.Prelude.{◌≡◌, ◌≢◌, ℕ, ◌+◌, ◌<◌, ◌≤◌, ◌^◌, ◌⊎◌, ◌↔◌, length, All, IfOk, IsTrue};
ghost use Rattle.flow_bits.specs.Sets.{Has, Relates, Tells, TellsPairs};
ghost use Rattle.flow_facts.specs.Flow.{IsSame};
ghost use Rattle.flow_facts.specs.Told.{AreSized, IsSideSized, told};
ghost use Rattle.call_flow.specs.Calls.{IsAside, Standing, StandingPairs, knowing};
ghost use Rattle.call_flow.specs.Told.{IsKnown, known_told, name_in};

use flow_bits::{Row, Square};
use flow_facts::{Facts, Side, no_facts, no_side};
use spark_base::NoMemory;
use std::alloc::Global;

/// What is known of a callee. Its sets and pairs are of places in the list of names.
#[derive(Drop)]
pub struct Known {
    /// The name in the call of each leaf of which it speaks.
    pub names: Vec<u32>,
    /// Whether it may return.
    pub returns: bool,
    /// Leaves whose entry value may be read.
    pub reads: Row,
    /// Leaves that may be written or cleared.
    pub writes: Row,
    /// Leaves that may hold their entry value at the return.
    pub keeps: Row,
    /// Of two leaves: the entry value of the first may decide the second at the return.
    pub depends: Square,
}

// Adds the name of a place, where the place is in a set.
fn add_one(into: &mut Row, names: &[u32], from: &Row, i: u32)
    requires i { i < length names.now }
    requires size { length from.now ≡ length names.now }
    requires names { All (λ x. x < length into.old) names.now }
    ensures size { length into.new ≡ length into.old }
    ensures set { Tells into.new (λ x. Has into.old x ⊎ ((name_in names.now i ≡ x) × Has from.now i)) }
{
    if from.has(i) {
        into.add(names[i as usize]);
    }
}

// Adds the names of the places of a set.
fn add_named(into: &mut Row, names: &[u32], from: &Row)
    requires size { length from.now ≡ length names.now }
    requires names { All (λ x. x < length into.old) names.now }
    ensures size { length into.new ≡ length into.old }
    ensures set { Tells into.new (λ x. Has into.old x ⊎ Standing (name_in names.now) (Has from.now) x) }
{
    for i in 0..from.size() {
        add_one(into, names, from, i);
    }
}

// Takes these names away.
fn remove_names(into: &mut Row, names: &[u32])
    requires { All (λ x. x < length into.old) names.now }
    ensures size { length into.new ≡ length into.old }
    ensures set { Tells into.new (λ x. Has into.old x × (Standing (name_in names.now) (λ i. i < length names.now) x → ⊥)) }
{
    for i in 0..names.len() {
        into.remove(names[i]);
    }
}

// All numbers below a bound.
fn below(alloc: Global, size: u32, bound: u32) -> Result<Row, NoMemory>
    requires { bound ≤ size }
    ensures size { IfOk result (λ row. length row ≡ size) }
    ensures set { IfOk result (λ row. Tells row (λ v. v < bound)) }
{
    let mut row = Row::new(alloc, size)?;
    for v in 0..bound {
        row.add(v);
    }
    Ok(row)
}

// Adds a number with itself, where it is in a set.
fn add_itself(into: &mut Square, row: &Row, v: u32)
    requires v { v < length into.old }
    requires row { length row.now ≡ length into.old }
    ensures size { length into.new ≡ length into.old }
    ensures set { TellsPairs into.new (λ x y. Relates into.old x y ⊎ ((v ≡ x) × ((x ≡ y) × Has row.now x))) }
{
    if row.has(v) {
        into.add(v, v);
    }
}

// Adds each number of a set with itself.
fn add_diagonal(into: &mut Square, row: &Row)
    requires { length row.now ≡ length into.old }
    ensures size { length into.new ≡ length into.old }
    ensures set { TellsPairs into.new (λ x y. Relates into.old x y ⊎ ((x ≡ y) × Has row.now x)) }
{
    for v in 0..row.size() {
        add_itself(into, row, v);
    }
}

// Adds the names of the pairs that begin at a place. `row` and `names_row` are room to work in.
fn add_pairs_of(
    into: &mut Square,
    names: &[u32],
    from: &Square,
    i: u32,
    row: &mut Row,
    names_row: &mut Row,
)
    requires i { i < length names.now }
    requires size { length from.now ≡ length names.now }
    requires names { All (λ x. x < length into.old) names.now }
    requires row { length row.old ≡ length names.now }
    requires room { length names_row.old ≡ length into.old }
    ensures size { length into.new ≡ length into.old }
    ensures row { length row.new ≡ length row.old }
    ensures room { length names_row.new ≡ length names_row.old }
    ensures set { TellsPairs into.new (λ x y. Relates into.old x y
        ⊎ ((name_in names.now i ≡ x) × Standing (name_in names.now) (Relates from.now i) y)) }
{
    from.copy_row(i, row);
    names_row.clear();
    add_named(names_row, names, row);
    into.add_row(names[i as usize], names_row);
}

// Adds the names of pairs of places.
fn add_named_pairs(
    into: &mut Square,
    names: &[u32],
    from: &Square,
    row: &mut Row,
    names_row: &mut Row,
)
    requires size { length from.now ≡ length names.now }
    requires names { All (λ x. x < length into.old) names.now }
    requires row { length row.old ≡ length names.now }
    requires room { length names_row.old ≡ length into.old }
    ensures size { length into.new ≡ length into.old }
    ensures set { TellsPairs into.new (λ x y. Relates into.old x y ⊎ StandingPairs (name_in names.now) (Relates from.now) x y) }
{
    for i in 0..from.size() {
        add_pairs_of(into, names, from, i, row, names_row);
    }
}

// The same over the names of what is known

// Adds the names of the places of a set.
fn add_known(into: &mut Row, names: &Vec<u32>, from: &Row)
    requires size { length from.now ≡ length names.now.items }
    requires names { All (λ x. x < length into.old) names.now.items }
    ensures size { length into.new ≡ length into.old }
    ensures set { Tells into.new (λ x. Has into.old x ⊎ Standing (name_in names.now.items) (Has from.now) x) }
{
    add_named(into, names.as_slice(), from);
}

// Takes these names away.
fn remove_known(into: &mut Row, names: &Vec<u32>)
    requires { All (λ x. x < length into.old) names.now.items }
    ensures size { length into.new ≡ length into.old }
    ensures set { Tells into.new (λ x. Has into.old x × (Standing (name_in names.now.items) (λ i. i < length names.now.items) x → ⊥)) }
{
    remove_names(into, names.as_slice());
}

// Adds the names of pairs of places.
fn add_known_pairs(
    into: &mut Square,
    names: &Vec<u32>,
    from: &Square,
    row: &mut Row,
    names_row: &mut Row,
)
    requires size { length from.now ≡ length names.now.items }
    requires names { All (λ x. x < length into.old) names.now.items }
    requires row { length row.old ≡ length names.now.items }
    requires room { length names_row.old ≡ length into.old }
    ensures size { length into.new ≡ length into.old }
    ensures set { TellsPairs into.new (λ x y. Relates into.old x y ⊎ StandingPairs (name_in names.now.items) (Relates from.now) x y) }
{
    add_named_pairs(into, names.as_slice(), from, row, names_row);
}

// What is kept where a call goes on.
fn kept_of(alloc: Global, big: u32, known: &Known) -> Result<Square, NoMemory>
    requires room { big + 1 < 2 ^ 32 }
    requires known { IsKnown big known.now }
    ensures size { IfOk result (λ square. length square ≡ big + 1) }
    ensures set { IfOk result (λ square. TellsPairs square (λ v w. (v ≤ big) × ((v ≡ w)
        × (Standing (name_in known.now.names.items) (known_told known.now).keeps v
        ⊎ IsAside (name_in known.now.names.items) (known_told known.now) v)))) }
{
    let mut row = below(alloc, big + 1, big + 1)?;
    remove_known(&mut row, &known.names);
    add_known(&mut row, &known.names, &known.keeps);
    let mut kept = Square::new(alloc, big + 1)?;
    add_diagonal(&mut kept, &row);
    Ok(kept)
}

// What depends on what where a call goes on.
fn dep_of(alloc: Global, big: u32, known: &Known) -> Result<Square, NoMemory>
    requires room { big + 1 < 2 ^ 32 }
    requires known { IsKnown big known.now }
    ensures size { IfOk result (λ square. length square ≡ big + 1) }
    ensures set { IfOk result (λ square. TellsPairs square (λ v w. StandingPairs (name_in known.now.names.items) (known_told known.now).depends v w
        ⊎ ((v < big) × ((v ≡ w) × IsAside (name_in known.now.names.items) (known_told known.now) v)))) }
{
    let mut row = below(alloc, big + 1, big)?;
    remove_known(&mut row, &known.names);
    let mut dep = Square::new(alloc, big + 1)?;
    add_diagonal(&mut dep, &row);
    let mut places = Row::new(alloc, known.reads.size())?;
    add_known_pairs(
        &mut dep,
        &known.names,
        &known.depends,
        &mut places,
        &mut row,
    );
    Ok(dep)
}

// What holds where a call goes on.
fn known_side(alloc: Global, big: u32, known: &Known) -> Result<Side, NoMemory>
    requires room { big + 1 < 2 ^ 32 }
    requires known { IsKnown big known.now }
    ensures size { IfOk result (λ s. IsSideSized (big + 1) s) }
    ensures reached { IfOk result (λ s. s.reached ≡ known.now.returns) }
    ensures kept { IfOk result (λ s. TellsPairs s.kept (λ v w. IsTrue known.now.returns × ((v ≤ big) × ((v ≡ w)
        × (Standing (name_in known.now.names.items) (known_told known.now).keeps v
        ⊎ IsAside (name_in known.now.names.items) (known_told known.now) v))))) }
    ensures dep { IfOk result (λ s. TellsPairs s.dep (λ v w. IsTrue known.now.returns
        × (StandingPairs (name_in known.now.names.items) (known_told known.now).depends v w
        ⊎ ((v < big) × ((v ≡ w) × IsAside (name_in known.now.names.items) (known_told known.now) v))))) }
{
    if !known.returns {
        return Ok(no_side(alloc));
    }
    let kept = kept_of(alloc, big, known)?;
    let dep = dep_of(alloc, big, known)?;
    Ok(Side {
        reached: true,
        kept,
        dep,
    })
}

/// The flow of the second part of a call, in names below `big`, which stands for "not assigned".
pub fn known_facts(alloc: Global, big: u32, known: &Known) -> Result<Facts, NoMemory>
    requires room { big + 1 < 2 ^ 32 }
    requires known { IsKnown big known.now }
    ensures size { IfOk result (λ f. AreSized (big + 1) f) }
    ensures flow { IfOk result (λ f. IsSame (told f) (knowing big (name_in known.now.names.items) (known_told known.now))) }
{
    let mut facts = no_facts(alloc, big)?;
    add_known(&mut facts.reads, &known.names, &known.reads);
    add_known(&mut facts.writes, &known.names, &known.writes);
    facts.next = known_side(alloc, big, known)?;
    Ok(facts)
}
