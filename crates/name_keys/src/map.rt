//! What stands for the numbers of names.
ghost use Rattle.std.specs.Prelude.{◌≡◌, [], ◌∷◌, ◌++◌, if◌then◌else◌, not, nat_eq, length, position, slice_get, is_some, IfOk, OnErr};
ghost use Rattle.std.specs.Map.{keys_of, lookup};

use indexmap::IndexMap;
use spark_base::NoMemory;
use std::alloc::Global;
use std::marker::Model;

/// Numbers of names, each once, with what stands for each, in the order in which they came. A call takes constant time.
#[derive(Debug, Drop)]
pub struct KeyMap<T> {
    rows: IndexMap<usize, T>,
}

impl<T> Model for KeyMap<T> {
    ghost use Rattle.std.specs.Prelude.{ℕ, List};

    ghost Value = { List (ℕ × T) };

    ghost view = { λ t. t.rows.entries };
}

impl<T: Copy> KeyMap<T> {
    /// No numbers.
    pub fn new(alloc: Global) -> Self
        ensures { result ≡ [] }
    {
        KeyMap {
            rows: IndexMap::new(alloc),
        }
    }

    /// The count of numbers.
    pub fn len(&self) -> usize
        ensures { result ≡ length self.now }
    {
        self.rows.len()
    }

    /// Adds a number at the end, unless it is there: false says so. For want of memory nothing is added.
    #[tactic(auto, using(crate::proofs::Maps::insert_absent))]
    pub fn add(&mut self, key: usize, value: T) -> Result<bool, NoMemory>
        ensures known { IfOk result (λ added. added ≡ not (is_some (lookup (nat_eq key) self.old))) }
        ensures ok { IfOk result (λ added. self.new ≡ (if added then self.old ++ (key, value) ∷ [] else self.old)) }
        ensures err { OnErr result (self.new ≡ self.old) }
    {
        if self.rows.contains_key(&key) {
            return Ok(false);
        }
        self.rows.insert(key, value)?;
        Ok(true)
    }

    /// What stands for a number, if it is there.
    pub fn find(&self, key: usize) -> Option<T>
        ensures { result ≡ lookup (nat_eq key) self.now }
    {
        self.rows.get(&key).copied()
    }

    /// The place of a number, from 0, if it is there.
    pub fn place_of(&self, key: usize) -> Option<usize>
        ensures { result ≡ position (nat_eq key) (keys_of self.now) }
    {
        self.rows.get_index_of(&key)
    }

    /// The number at a place, from 0, and what stands for it, if there is one.
    pub fn at(&self, place: usize) -> Option<(usize, T)>
        ensures { result ≡ slice_get self.now place }
    {
        match self.rows.get_index(place) {
            None => None,
            Some((key, value)) => Some((*key, *value)),
        }
    }
}
