ghost use Rattle.std.specs.Prelude.{◌≡◌, [], ◌∷◌, ◌++◌, if◌then◌else◌, not, position, IfOk, OnErr};
ghost use Rattle.std.specs.Str.{bytes_eq};
ghost use Rattle.first_conditions.specs.Conditions.{is_known, key};

use first_path::Word;
use indexmap::IndexSet;
use spark_base::NoMemory;
use std::alloc::Global;
use std::marker::Model;

/// Keys of names, each once, in the order in which they came.
#[derive(Debug, Drop)]
pub struct KeyTable {
    keys: IndexSet<Vec<u8>>,
}

impl Model for KeyTable {
    ghost use Rattle.std.specs.Prelude.{ℕ, List, map};

    ghost Value = { List (List ℕ) };

    ghost view = { λ t. map (λ k. k.items) t.keys.keys };
}

#[tactic(auto, using(crate::proofs::Maps::list_any_map, crate::proofs::Maps::position_map))]
impl KeyTable {
    /// A table without keys.
    pub fn new(alloc: Global) -> Self
        ensures { result ≡ [] }
    {
        KeyTable {
            keys: IndexSet::new(alloc),
        }
    }

    /// Adds a key at the end, unless it is known: false says so.
    pub fn add(&mut self, key: Vec<u8>) -> Result<bool, NoMemory>
        ensures known { IfOk result (λ added. added ≡ not (is_known self.old key.items)) }
        ensures ok { IfOk result (λ added. self.new ≡ (if added then self.old ++ key.items ∷ [] else self.old)) }
        ensures err { OnErr result (self.new ≡ self.old) }
    {
        Ok(self.keys.insert(key)?)
    }

    /// The place of a key, from 0, and none where it is not known.
    pub fn find(&self, key: &[u8]) -> Option<usize>
        ensures { result ≡ position (bytes_eq key.now) self.now }
    {
        self.keys.get_index_of(key)
    }

    /// Whether this key is among them.
    pub fn knows(&self, key: &[u8]) -> bool
        ensures { result ≡ is_known self.now key.now }
    {
        self.keys.contains(key)
    }
}

/// The key of a word, by which names are the same.
pub fn key_of(alloc: Global, word: &Word) -> Result<Vec<u8>, NoMemory>
    ensures { IfOk result (λ k. k.items ≡ key word.now) }
{
    let key: Vec<u8> = word
        .written
        .as_slice()
        .iter()
        .map(|b| b.to_ascii_lowercase())
        .collect(alloc)?;
    Ok(key)
}
