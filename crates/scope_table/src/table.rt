ghost use Rattle.std.specs.Prelude.{ℕ, ◌≡◌, ◌↔◌, [], ◌∷◌, ◌++◌, ◌<◌, ◌≤◌, ◌+◌, ◌-◌, length, take, None, get_or, IsTrue, OnOk, OnErr};
ghost use Rattle.scope_table.specs.Scopes.{latest};

use spark_base::NoMemory;
use std::alloc::Global;
use std::marker::Model;

/// A declaration of a region that is open: the number of its name, from 0, and what the name denotes by it.
#[derive(Clone, Copy, Debug)]
pub struct Open<T> {
    pub key: usize,
    pub shown: T,
}

/// An open declaration, and what its name denoted before it.
#[derive(Drop)]
struct Entry<T> {
    opened: Open<T>,
    hidden: Option<T>,
}

/// The declarations of the open regions, which contracts see as the list of them: outermost first, and in each region in
/// the order in which they were declared.
///
/// Names are known by numbers, which are to be dense: the table has a place for each number up to the greatest that was
/// declared. A call takes constant time then, `close` one step for each declaration that it takes away.
#[derive(Drop)]
pub struct ScopeTable<T> {
    entries: Vec<Entry<T>>,
    /// By the number of a name, what it denotes.
    heads: Vec<Option<T>>,
}

impl<T> Model for ScopeTable<T> {
    ghost use Rattle.std.specs.Prelude.{◌≡◌, ℕ, List, map, get_or, None};
    ghost use Rattle.scope_table.specs.Scopes.{latest, hides};
    ghost use Rattle.scope_table.specs.declared.table.Open.{Open as TheOpen};

    ghost Value = { List (TheOpen T) };

    ghost view = { λ t. map (λ e. e.opened) t.entries.items };

    ghost invariant = { λ t. ((k : ℕ) → get_or t.heads.items k None ≡ latest k (map (λ e. e.opened) t.entries.items)) × (map (λ e. e.hidden) t.entries.items ≡ hides (map (λ e. e.opened) t.entries.items)) };
}

/// Has a place for a name.
fn make_room<T: Copy>(heads: &mut Vec<Option<T>>, key: usize) -> Result<(), NoMemory>
    ensures same { (k : ℕ) → get_or heads.new.items k None ≡ get_or heads.old.items k None }
    ensures room { OnOk result (key < length heads.new.items) }
{
    while heads.len() <= key {
        heads.push(None)?;
    }
    Ok(())
}

impl<T: Copy> ScopeTable<T> {
    /// No declarations.
    pub fn new(alloc: Global) -> Self
        ensures { result ≡ [] }
    {
        ScopeTable {
            entries: Vec::new(alloc),
            heads: Vec::new(alloc),
        }
    }

    /// The count of the open declarations. A region that opens now is ended by `close` with it.
    pub fn len(&self) -> usize
        ensures { result ≡ length self.now }
    {
        self.entries.len()
    }

    /// Whether there is no open declaration.
    pub fn is_empty(&self) -> bool
        ensures { IsTrue result ↔ (self.now ≡ []) }
    {
        self.entries.is_empty()
    }

    /// What a name denotes: by the last open declaration of it, so an inner one hides the outer ones.
    pub fn find(&self, key: usize) -> Option<T>
        ensures { result ≡ latest key self.now }
    {
        if key < self.heads.len() {
            self.heads[key]
        } else {
            None
        }
    }

    /// Declares a name in the innermost region; for want of memory the table stays as it was.
    pub fn declare(&mut self, opened: Open<T>) -> Result<(), NoMemory>
        ensures ok { OnOk result (self.new ≡ self.old ++ opened ∷ []) }
        ensures err { OnErr result (self.new ≡ self.old) }
    {
        make_room(&mut self.heads, opened.key)?;
        let hidden = self.heads[opened.key];
        self.entries.push(Entry { opened, hidden })?;
        self.heads[opened.key] = Some(opened.shown);
        Ok(())
    }

    /// Takes away the last declaration, and shows what it hid.
    fn forget_last(&mut self)
        requires { 0 < length self.old }
        ensures { self.new ≡ take (length self.old - 1) self.old }
    {
        if let Some(entry) = self.entries.pop() {
            self.heads[entry.opened.key] = entry.hidden;
        }
    }

    /// Ends the regions that were opened when so many declarations were open: what they hid is found again.
    pub fn close(&mut self, count: usize)
        ensures { self.new ≡ take count self.old }
    {
        while self.entries.len() > count {
            self.forget_last();
        }
    }
}
