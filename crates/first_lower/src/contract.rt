ghost use Rattle.std.specs.Prelude.{◌≡◌, [], ◌∷◌, ◌++◌, ◌<◌, ◌^◌, map, length, IfOk, OnOk};
ghost use Rattle.std.specs.List.{flat_map};
ghost use Rattle.first_conditions.specs.Conditions.{entries_of, words_of};
ghost use Rattle.first_lower.specs.Known.{Each, KnownWord, KnownEntry};
ghost use Rattle.first_lower.specs.Lowered.{mode_of, low_global_item, low_entry, low_contract};

use crate::exprs::find_leaf;
use core_form::{Contract, GlobalItem, Mode};
use first_conditions::KeyTable;
use first_path::{Entry, GlobalForm, Names, Word};
use spark_base::{ItemNo, Items, NoMemory};
use std::alloc::Global;

/// The mode of an entry.
fn mode_of(entry: &Entry) -> Mode
    ensures { result ≡ mode_of entry.now }
{
    first_conditions::mode_of(&entry.mode).unwrap_or(Mode::Input)
}

/// Adds an item of a Global.
fn append_item(
    alloc: Global,
    list: &mut Items<GlobalItem>,
    table: &KeyTable,
    mode: Mode,
    word: &Word,
) -> Result<(), NoMemory>
    requires known { KnownWord table.now word.now }
    requires room { length table.now < 2 ^ 32 }
    ensures { OnOk result (list.new ≡ list.old ++ low_global_item table.now mode word.now ∷ []) }
{
    let leaf = find_leaf(alloc, table, word)?;
    list.push(GlobalItem {
        item: ItemNo(leaf.0),
        mode,
        place: word.span,
    })
}

/// Adds the items of some names.
fn append_items(
    alloc: Global,
    list: &mut Items<GlobalItem>,
    table: &KeyTable,
    mode: Mode,
    words: &[Word],
) -> Result<(), NoMemory>
    requires known { Each (KnownWord table.now) words.now }
    requires room { length table.now < 2 ^ 32 }
    ensures { OnOk result (list.new ≡ list.old ++ map (low_global_item table.now mode) words.now) }
{
    for word in words {
        append_item(alloc, list, table, mode, word)?;
    }
    Ok(())
}

/// Adds the items of an entry.
fn append_entry(
    alloc: Global,
    list: &mut Items<GlobalItem>,
    table: &KeyTable,
    entry: &Entry,
) -> Result<(), NoMemory>
    requires known { KnownEntry table.now entry.now }
    requires room { length table.now < 2 ^ 32 }
    ensures { OnOk result (list.new ≡ list.old ++ low_entry table.now entry.now) }
{
    let mode = mode_of(entry);
    match &entry.names {
        Names::Bare(word) => append_item(alloc, list, table, mode, word),
        Names::Listed { first, more } => {
            append_item(alloc, list, table, mode, first)?;
            append_items(alloc, list, table, mode, more.as_slice())
        }
    }
}

/// Adds the items of some entries.
fn append_entries(
    alloc: Global,
    list: &mut Items<GlobalItem>,
    table: &KeyTable,
    entries: &[Entry],
) -> Result<(), NoMemory>
    requires known { Each (KnownEntry table.now) entries.now }
    requires room { length table.now < 2 ^ 32 }
    ensures { OnOk result (list.new ≡ list.old ++ flat_map (low_entry table.now) entries.now) }
{
    for entry in entries {
        append_entry(alloc, list, table, entry)?;
    }
    Ok(())
}

/// The items of a Global.
fn global_items(
    alloc: Global,
    table: &KeyTable,
    global: &GlobalForm,
) -> Result<Items<GlobalItem>, NoMemory>
    requires known { Each (KnownEntry table.now) (entries_of global.now) }
    requires room { length table.now < 2 ^ 32 }
    ensures { IfOk result (λ l. l ≡ flat_map (low_entry table.now) (entries_of global.now)) }
{
    let mut list = Items::new(alloc);
    if let GlobalForm::Entries { first, more } = global {
        append_entry(alloc, &mut list, table, first)?;
        append_entries(alloc, &mut list, table, more.as_slice())?;
    }
    Ok(list)
}

/// The contract of the procedure.
pub fn contract(
    alloc: Global,
    table: &KeyTable,
    aspect: &Word,
    global: &GlobalForm,
) -> Result<Contract, NoMemory>
    requires known { Each (KnownEntry table.now) (entries_of global.now) }
    requires room { length table.now < 2 ^ 32 }
    ensures { IfOk result (λ c. c ≡ low_contract table.now aspect.now global.now) }
{
    Ok(Contract {
        globals: global_items(alloc, table, global)?,
        depends: None,
        derived: false,
        place: aspect.span,
        global_place: Some(aspect.span),
        depends_place: None,
        on_spec: true,
    })
}
