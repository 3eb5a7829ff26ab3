ghost use Rattle.std.specs.Prelude.{◌≡◌, ◌↔◌, [], Some, IsTrue, OnOk};
ghost use Rattle.std.specs.List.{Contains};
ghost use Rattle.depends_check.specs.ItemSets as spec;
ghost use Rattle.used_modes.specs.Added.{Adds};

use core_form::Item;
use indexmap::IndexSet;
use spark_base::NoMemory;
use std::alloc::Global;
use std::marker::Model;

/// Items, each once, in the order in which they came. A look-up takes constant time.
#[derive(Drop)]
pub struct ItemSet {
    items: Vec<Item>,
    keys: IndexSet<usize>,
}

impl Model for ItemSet {
    ghost use Rattle.std.specs.Prelude.{List};
    ghost use Rattle.core_form.specs.declared.program.Item.{Item};
    ghost use Rattle.depends_check.specs.ItemSets.{AreKeysOf};

    ghost Value = { List Item };

    ghost view = { λ s. s.items.items };

    ghost invariant = { λ s. AreKeysOf s.keys.keys s.items.items };
}

// A number of its own for each item.
fn item_key(item: Item) -> usize
    ensures { result ≡ spec.item_key item }
{
    match item {
        Item::Whole(var) => 3 * var.0 as usize,
        Item::State(state) => 3 * state as usize + 1,
        Item::Guard(object) => 3 * object.0 as usize + 2,
    }
}

impl ItemSet {
    /// No items.
    pub fn new(alloc: Global) -> ItemSet
        ensures { result ≡ [] }
    {
        ItemSet {
            items: Vec::new(alloc),
            keys: IndexSet::new(alloc),
        }
    }

    /// The items.
    pub fn as_slice(&self) -> &[Item]
        ensures { result.now ≡ self.now }
    {
        self.items.as_slice()
    }

    /// Whether an item is among them.
    pub fn has(&self, item: Item) -> bool
        ensures { IsTrue result ↔ Contains self.now item }
    {
        self.keys.contains(&item_key(item))
    }

    /// Adds an item, unless it is there. For want of memory nothing is added.
    pub fn note(&mut self, item: Item) -> Result<(), NoMemory>
        ensures { OnOk result (Adds self.old self.new (λ i. i ≡ item)) }
    {
        if self.has(item) {
            return Ok(());
        }
        self.items.push(item)?;
        match self.keys.insert(item_key(item)) {
            Ok(_) => Ok(()),
            Err(_) => {
                let _ = self.items.pop();
                Err(NoMemory)
            }
        }
    }

    /// Adds an item, if there is one.
    pub fn note_some(&mut self, item: Option<Item>) -> Result<(), NoMemory>
        ensures { OnOk result (Adds self.old self.new (λ i. item ≡ Some i)) }
    {
        match item {
            Some(item) => self.note(item),
            None => Ok(()),
        }
    }
}
