ghost use Rattle.std.specs.Prelude.{◌≡◌, ℕ, ◌+◌, ◌*◌, ◌<◌, ◌≤◌, ◌^◌, length, IfOk, All};
ghost use Rattle.summary_rows.specs.Layout.{IsIncreasing, IsLayout, AreRows, row_size, outer_of};

use spark_base::{BodyNo, Items, LeafNo, NoMemory};
use std::alloc::Global;
use summary_rows::{Layout, Rows, Words, row_size};

// Leaves 2, 5, 8 and so on.
fn every_third(alloc: Global, count: u32) -> Result<Items<LeafNo>, NoMemory>
    requires { count < 128 }
    ensures size { IfOk result (λ leaves. length leaves ≡ count) }
    ensures increasing { IfOk result (λ leaves. IsIncreasing leaves) }
{
    let mut leaves = Items::new(alloc);
    for k in 0..count {
        leaves.push(LeafNo(3 * k + 2))?;
    }
    Ok(leaves)
}

fn grown(alloc: Global, layout: Layout, count: u32) -> Result<Layout, NoMemory>
    requires layout { IsLayout layout }
    requires room { layout.words < 2 ^ 30 }
    requires count { count < 128 }
    ensures layout { IfOk result (λ new. IsLayout new) }
    ensures words { IfOk result (λ new. new.words < layout.words + 1000) }
    ensures bodies { IfOk result (λ new. length new.outer ≡ length layout.outer + 1) }
    ensures last { IfOk result (λ new. length (outer_of new (length layout.outer)) ≡ count) }
{
    let leaves = every_third(alloc, count)?;
    let layout = layout.with_row(leaves)?;
    Ok(layout)
}

// A row of one leaf, and then one of so many.
fn two_bodies(alloc: Global, count: u32) -> Result<Layout, NoMemory>
    requires { count < 128 }
    ensures layout { IfOk result (λ new. IsLayout new) }
    ensures bodies { IfOk result (λ new. length new.outer ≡ 2) }
    ensures last { IfOk result (λ new. length (outer_of new 1) ≡ count) }
{
    let layout = grown(alloc, Layout::new(alloc), 1)?;
    grown(alloc, layout, count)
}

// Rows of which one bit is set.
fn with_bit(alloc: Global, layout: Layout, bit: usize) -> Result<Rows, NoMemory>
    requires { IsLayout layout }
    ensures rows { IfOk result (λ rows. AreRows rows) }
    ensures layout { IfOk result (λ rows. rows.layout ≡ layout) }
{
    let mut words = vec![in alloc; 0; layout.words as usize]?;
    set(words.as_mut_slice(), bit);
    let words = Words::from_vec(words);
    Ok(Rows { layout, words })
}

fn set(words: &mut [u64], bit: usize)
    ensures { length words.new ≡ length words.old }
{
    if let Some(word) = words.get_mut(bit / 64) {
        *word = 1 << (bit % 64);
    }
}

#[derive(Clone, Copy)]
enum Asked {
    Returns,
    Reads(u32),
    Writes(u32),
    Keeps(u32),
    Depends(u32, u32),
}

fn is_told(rows: &Rows, b: u32, asked: Asked) -> bool
    requires rows { AreRows rows.now }
    requires in_range { b < length rows.now.layout.outer }
{
    let b = BodyNo(b);
    match asked {
        Asked::Returns => rows.returns(b),
        Asked::Reads(v) => rows.reads(b, LeafNo(v)),
        Asked::Writes(v) => rows.writes(b, LeafNo(v)),
        Asked::Keeps(v) => rows.keeps(b, LeafNo(v)),
        Asked::Depends(v, w) => rows.depends(b, LeafNo(v), LeafNo(w)),
    }
}

// How many leaves below a bound a body reads, writes, keeps, and how many pairs it has.
fn count_of_leaf(rows: &Rows, b: u32, v: u32, bound: u32) -> usize
    requires rows { AreRows rows.now }
    requires in_range { b < length rows.now.layout.outer }
{
    let alone = [Asked::Reads(v), Asked::Writes(v), Asked::Keeps(v)];
    let of_leaf = alone
        .iter()
        .filter(|asked| is_told(rows, b, **asked))
        .count();
    let of_pairs = (0..bound)
        .filter(|w| is_told(rows, b, Asked::Depends(v, *w)))
        .count();
    of_leaf.wrapping_add(of_pairs)
}

fn count_of(rows: &Rows, b: u32, bound: u32) -> usize
    requires rows { AreRows rows.now }
    requires in_range { b < length rows.now.layout.outer }
{
    let mut count = is_told(rows, b, Asked::Returns) as usize;
    for v in 0..bound {
        count = count.wrapping_add(count_of_leaf(rows, b, v, bound));
    }
    count
}

#[test]
fn sizes_of_rows(rt: HostRuntime) {
    assert_eq!(rt; row_size(0), 1);
    assert_eq!(rt; row_size(1), 5);
    assert_eq!(rt; row_size(8), 5);
    assert_eq!(rt; row_size(64), 68);
    assert_eq!(rt; row_size(65), 74);
    assert_eq!(rt; row_size(4096), 262_337);
}

// The second body has leaves 2, 5 and 8, and its row begins at bit 320.
const BITS: [(usize, Asked); 12] = [
    (320, Asked::Returns),
    (384, Asked::Reads(2)),
    (386, Asked::Reads(8)),
    (448, Asked::Writes(2)),
    (449, Asked::Writes(5)),
    (514, Asked::Keeps(8)),
    (576, Asked::Depends(2, 2)),
    (577, Asked::Depends(2, 5)),
    (578, Asked::Depends(2, 8)),
    (579, Asked::Depends(5, 2)),
    (583, Asked::Depends(8, 5)),
    (584, Asked::Depends(8, 8)),
];

#[test]
fn each_fact_at_its_bit(rt: HostRuntime) -> Result<(), NoMemory> {
    for (bit, asked) in BITS {
        let rows = with_bit(rt.alloc(), two_bodies(rt.alloc(), 3)?, bit)?;
        assert!(rt; is_told(&rows, 1, asked), "{bit}");
        assert_eq!(rt; count_of(&rows, 1, 10), 1, "{bit}");
        assert_eq!(rt; count_of(&rows, 0, 10), 0, "{bit}");
    }
    Ok(())
}

#[test]
fn no_fact_at_unused_bits(rt: HostRuntime) -> Result<(), NoMemory> {
    for bit in [321, 383, 387, 447, 451, 515, 585, 639usize] {
        let rows = with_bit(rt.alloc(), two_bodies(rt.alloc(), 3)?, bit)?;
        assert_eq!(rt; count_of(&rows, 0, 10), 0, "{bit}");
        assert_eq!(rt; count_of(&rows, 1, 10), 0, "{bit}");
    }
    Ok(())
}

// The words of a row of 64 leaves with all facts but one kept leaf.
fn full_row(alloc: Global) -> Result<Vec<u64>, NoMemory>
    ensures { IfOk result (λ words. length words.items ≡ 68) }
{
    let mut words = vec![in alloc; u64::MAX; 68]?;
    words[0] = 1;
    words[3] = u64::MAX >> 1;
    Ok(words)
}

#[test]
fn a_full_row_comes_in_once(rt: HostRuntime) -> Result<(), NoMemory> {
    let layout = two_bodies(rt.alloc(), 64)?;
    let words = full_row(rt.alloc())?;
    let mut rows = Rows::new(rt.alloc(), &layout)?;
    assert_eq!(rt; count_of(&rows, 1, 194), 0);
    assert!(rt; rows.join(BodyNo(1), words.as_slice()));
    assert!(rt; !rows.join(BodyNo(1), words.as_slice()));
    assert_eq!(rt; count_of(&rows, 1, 194), 4288);
    assert_eq!(rt; count_of(&rows, 0, 194), 0);
    assert!(rt; !rows.keeps(BodyNo(1), LeafNo(191)));
    assert!(rt; !rows.reads(BodyNo(1), LeafNo(3)));
    Ok(())
}
