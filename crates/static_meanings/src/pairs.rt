//! Pairs of a number and what stands for it.
ghost use Rattle.std.specs.Prelude.{ℕ, ◌≡◌, [], ◌∷◌, ◌++◌, ◌<◌, ◌≤◌, ◌+◌, ◌-◌, length, None, get_or, OnOk, OnErr};
ghost use Rattle.static_meanings.specs.Pairs.{told};

use spark_base::NoMemory;
use std::alloc::Global;
use std::marker::Model;

/// Pairs of a number and what stands for it, in the order in which they came. What stands for a number is found at once.
#[derive(Debug, Drop)]
pub struct Pairs<V> {
    pairs: Vec<(u32, V)>,
    /// By number.
    slots: Vec<Option<V>>,
}

impl<V> Model for Pairs<V> {
    ghost use Rattle.std.specs.Prelude.{◌≡◌, ℕ, List, get_or, None};
    ghost use Rattle.static_meanings.specs.Pairs.{told};

    ghost Value = { List (ℕ × V) };

    ghost view = { λ t. t.pairs.items };

    ghost invariant = { λ t. (n : ℕ) → get_or t.slots.items n None ≡ told t.pairs.items n };
}

/// Has a place for a number.
fn make_room<V: Copy>(slots: &mut Vec<Option<V>>, number: u32) -> Result<(), NoMemory>
    ensures same { (n : ℕ) → get_or slots.new.items n None ≡ get_or slots.old.items n None }
    ensures room { OnOk result (number < length slots.new.items) }
{
    while slots.len() <= number as usize {
        slots.push(None)?;
    }
    Ok(())
}

impl<V: Copy> Pairs<V> {
    pub fn new(alloc: Global) -> Self
        ensures { result ≡ [] }
    {
        Pairs {
            pairs: Vec::new(alloc),
            slots: Vec::new(alloc),
        }
    }

    /// What stands for a number: by the last pair that has it.
    pub fn find(&self, number: u32) -> Option<V>
        ensures { result ≡ told self.now number }
    {
        if (number as usize) < self.slots.len() {
            self.slots[number as usize]
        } else {
            None
        }
    }

    /// Adds a pair; for want of memory the pairs stay as they were.
    pub fn push(&mut self, number: u32, value: V) -> Result<(), NoMemory>
        ensures ok { OnOk result (self.new ≡ self.old ++ (number, value) ∷ []) }
        ensures err { OnErr result (self.new ≡ self.old) }
    {
        make_room(&mut self.slots, number)?;
        self.pairs.push((number, value))?;
        self.slots[number as usize] = Some(value);
        Ok(())
    }
}
