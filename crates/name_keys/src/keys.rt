ghost use Rattle.std.specs.Prelude.{◌≡◌, [], ◌∷◌, ◌++◌, if◌then◌else◌, not, position, IfOk, OnErr};
ghost use Rattle.std.specs.Str.{bytes_eq};
ghost use Rattle.name_keys.specs.Keys.{is_known};

use indexmap::IndexSet;
use spark_base::NoMemory;
use std::alloc::Global;
use std::marker::Model;

/// Keys of names, each once, in the order in which they came. The number of a name is the place of its key, from 0, so
/// numbers are dense. A call takes the time that the key's length takes.
#[derive(Debug, Drop)]
pub struct KeyTable {
    keys: IndexSet<Vec<u8>>,
}

impl Model for KeyTable {
    ghost use Rattle.std.specs.Prelude.{ℕ, List, map};

    ghost Value = { List (List ℕ) };

    ghost view = { λ t. map (λ k. k.items) t.keys.keys };
}

#[tactic(auto, using(crate::proofs::Maps::list_any_map, crate::proofs::Maps::position_map))]
impl KeyTable {
    /// No keys.
    pub fn new(alloc: Global) -> Self
        ensures { result ≡ [] }
    {
        KeyTable {
            keys: IndexSet::new(alloc),
        }
    }

    /// Adds a key at the end, unless it is there: false says so. For want of memory the keys stay as they were.
    pub fn add(&mut self, key: Vec<u8>) -> Result<bool, NoMemory>
        ensures known { IfOk result (λ added. added ≡ not (is_known self.old key.items)) }
        ensures ok { IfOk result (λ added. self.new ≡ (if added then self.old ++ key.items ∷ [] else self.old)) }
        ensures err { OnErr result (self.new ≡ self.old) }
    {
        Ok(self.keys.insert(key)?)
    }

    /// The number of a key, and none where it is not there.
    pub fn find(&self, key: &[u8]) -> Option<usize>
        ensures { result ≡ position (bytes_eq key.now) self.now }
    {
        self.keys.get_index_of(key)
    }
}
