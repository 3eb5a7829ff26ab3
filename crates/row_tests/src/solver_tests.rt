ghost use Rattle.std.specs.Prelude.{◌≡◌, ℕ, ◌+◌, ◌<◌, ◌≤◌, ◌^◌, ◌⊎◌, ◌↔◌, ◌||◌, All, length, IfOk, IsTrue, slice_index_or, []};
ghost use Rattle.summary_rows.specs.Bits.{Bit};
ghost use Rattle.summary_rows.specs.Facts.{Returning};
ghost use Rattle.summary_rows.specs.Layout.{IsLayout, AreRows, told, outer_of};
ghost use Rattle.call_lists.specs.Lists.{AreLists, Names};
ghost use Rattle.row_solver.specs.Equations.{AreCallers};
ghost use Rattle.row_solver.specs.Toy.{CallsIn, IsToy};

use call_lists::callers_of;
use row_solver::{RowEquations, solve_alone};
use spark_base::{BodyNo, Items, NoMemory};
use std::alloc::Global;
use summary_rows::{Layout, Rows, Words};

/// Whether each body returns by itself, and whom it calls.
#[derive(Drop)]
struct Toy {
    layout: Layout,
    own: Items<bool>,
    callees: Items<Items<BodyNo>>,
}

impl RowEquations for Toy {
    ghost use Rattle.row_solver.specs.Toy.{CallsIn, IsToy, may_return, toy_lawful};

    ghost layout = { λ toy. toy.layout };

    ghost calls = { λ toy. CallsIn toy.callees };

    ghost follow = { λ toy. may_return toy.own toy.callees };

    ghost is_fit = { λ toy. IsToy toy.layout toy.own toy.callees };

    ghost lawful = { λ toy h. toy_lawful toy.layout toy.own toy.callees h };

    fn row_words(&self, alloc: Global, b: BodyNo, rows: &Rows) -> Result<Words, NoMemory> {
        let mine = *self.own.at(b.0 as usize);
        let callees = self.callees.at(b.0 as usize);
        let others = any_returns(callees.as_slice(), rows);
        let words = one_word(alloc, either(mine, others))?;
        Ok(words)
    }
}

// Whether some body of a list returns.
fn any_returns(list: &[BodyNo], rows: &Rows) -> bool
    requires rows { AreRows rows.now }
    requires list { All (λ b. b.0 < length rows.now.layout.outer) list.now }
    ensures { IsTrue result ↔ ((c : ℕ) × (Names list.now c × told rows.now (record { owner = c; part = Returning }))) }
{
    for b in list {
        if rows.returns(*b) {
            return true;
        }
    }
    false
}

fn either(one: bool, other: bool) -> bool
    ensures { result ≡ (one || other) }
{
    one || other
}

// A word of which the first bit alone may be set.
#[tactic(auto, using(row_solver::proofs::Toy::bit_of_one))]
fn one_word(alloc: Global, bit: bool) -> Result<Words, NoMemory>
    ensures size { IfOk result (λ words. length words ≡ 1) }
    ensures bits { IfOk result (λ words. (n : ℕ) → Bit words n ↔ ((n ≡ 0) × IsTrue bit)) }
{
    if bit {
        let words = vec![in alloc; 1u64; 1]?;
        Ok(Words::from_vec(words))
    } else {
        Words::zeros(alloc, 1)
    }
}

// So many rows without leaves.
fn bare_layout(alloc: Global, bodies: u32) -> Result<Layout, NoMemory>
    requires { bodies < 2 ^ 20 }
    ensures layout { IfOk result (λ l. IsLayout l) }
    ensures bodies { IfOk result (λ l. length l.outer ≡ bodies) }
    ensures bare { IfOk result (λ l. (b : ℕ) → outer_of l b ≡ []) }
{
    let mut layout = Layout::new(alloc);
    for _b in 0..bodies {
        layout = layout.with_row(Items::new(alloc))?;
    }
    Ok(layout)
}

// Each body calls the next; the last calls the first where the line closes.
fn line(alloc: Global, bodies: u32, closes: bool) -> Result<Items<Items<BodyNo>>, NoMemory>
    requires { bodies < 2 ^ 20 }
    ensures { IfOk result (λ lists. AreLists bodies lists) }
{
    let mut lists = Items::new(alloc);
    for b in 0..bodies {
        let mut list = Items::new(alloc);
        if b + 1 < bodies {
            list.push(BodyNo(b + 1))?;
        } else if closes {
            list.push(BodyNo(0))?;
        }
        lists.push(list)?;
    }
    Ok(lists)
}

// One of so many bodies returns by itself.
fn one_returns(alloc: Global, bodies: u32, one: u32) -> Result<Items<bool>, NoMemory>
    ensures { IfOk result (λ own. length own ≡ bodies) }
{
    let mut own = Items::new(alloc);
    for b in 0..bodies {
        own.push(b == one)?;
    }
    Ok(own)
}

fn toy_of(alloc: Global, bodies: u32, closes: bool, one: u32) -> Result<Toy, NoMemory>
    requires { bodies < 2 ^ 20 }
    ensures fit { IfOk result (λ toy. IsToy toy.layout toy.own toy.callees) }
    ensures layout { IfOk result (λ toy. IsLayout toy.layout) }
    ensures bodies { IfOk result (λ toy. length toy.layout.outer ≡ bodies) }
{
    let layout = bare_layout(alloc, bodies)?;
    let own = one_returns(alloc, bodies, one)?;
    let callees = line(alloc, bodies, closes)?;
    Ok(Toy {
        layout,
        own,
        callees,
    })
}

fn solved(alloc: Global, bodies: u32, closes: bool, one: u32) -> Result<Rows, NoMemory>
    requires { bodies < 2 ^ 20 }
    ensures rows { IfOk result (λ rows. AreRows rows) }
    ensures bodies { IfOk result (λ rows. length rows.layout.outer ≡ bodies) }
{
    let toy = toy_of(alloc, bodies, closes, one)?;
    let callers = callers_of(alloc, toy.callees.as_slice())?;
    solve_alone(alloc, &toy, &toy.layout, callers.as_slice())
}

// How many bodies return.
fn count_returning(rows: &Rows) -> u32
    requires rows { AreRows rows.now }
    requires bodies { length rows.now.layout.outer < 2 ^ 20 }
{
    let bodies = rows.layout.outer.len() as u32;
    let mut count = 0u32;
    for b in 0..bodies {
        if rows.returns(BodyNo(b)) {
            count = count.saturating_add(1);
        }
    }
    count
}

// The number of bodies, whether the line closes, the one that returns by itself, and how many return.
const LINES: [(u32, bool, u32, u32); 7] = [
    (0, true, 0, 0),
    (1, true, 0, 1),
    (1, true, 1, 0),
    (512, true, 100, 512),
    (512, true, 512, 0),
    (4094, false, 4093, 4094),
    (4094, false, 2000, 2001),
];

#[test]
fn lines_and_circles(rt: HostRuntime) -> Result<(), NoMemory> {
    for (bodies, closes, one, returning) in LINES {
        let rows = solved(rt.alloc(), bodies, closes, one)?;
        assert_eq!(rt; count_returning(&rows), returning, "{bodies} {one}");
    }
    Ok(())
}
