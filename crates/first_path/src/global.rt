ghost use Rattle.std.specs.Prelude.{◌≡◌, ◌<◌, ◌≤◌, List, IfOk, IfErr, OnOk, OnErr, true, false, length};
ghost use Rattle.first_path.specs.Begins.{Denies, begins};
ghost use Rattle.first_path.specs.Spelling.{each_then, further_name_then, names_then, entry_then, further_entry_then, global_then};
ghost use Rattle.first_path.specs.declared.source.Entry.{Entry};
ghost use Rattle.first_path.specs.declared.source.GlobalForm.{GlobalForm};
ghost use Rattle.first_path.specs.declared.source.Names.{Names};
ghost use Rattle.first_path.specs.declared.source.Sign.TheVariants as signs;
ghost use Rattle.first_path.specs.declared.source.Symbol.{Symbol};
ghost use Rattle.first_path.specs.declared.source.Word.{Word};

use crate::reading::ReadFault;
use crate::source::{Entry, GlobalForm, Names, Sign, Symbol, Word};
use crate::steps::{NotSpelled, is_next, sign, word};
use spark_base::Items;
use std::alloc::Global;
use std::collections::VecDeque;

/// Reads a further name of a list.
fn further_name(rest: &mut VecDeque<Symbol>) -> Result<Word, NotSpelled>
    ensures ok { IfOk result (λ w. rest.old.items ≡ further_name_then w rest.new.items) }
    ensures shorter { OnOk result (length rest.new.items < length rest.old.items) }
    ensures err { OnErr result ((w : Word) (r : List Symbol) → rest.old.items ≡ further_name_then w r → ⊥) }
{
    sign(rest, Sign::Comma)?;
    word(rest)
}

/// Reads the further names of a list.
fn further_names(alloc: Global, rest: &mut VecDeque<Symbol>) -> Result<Items<Word>, ReadFault>
    ensures ok { IfOk result (λ ws. rest.old.items ≡ each_then further_name_then ws rest.new.items) }
    ensures shorter { OnOk result (length rest.new.items ≤ length rest.old.items) }
    ensures stop { OnOk result (begins signs.Comma rest.new.items ≡ false) }
    ensures err { IfErr result (λ f. Denies f ((ws : List Word) (r : List Symbol) → begins signs.Comma r ≡ false
        → rest.old.items ≡ each_then further_name_then ws r → ⊥)) }
{
    let mut list = Items::new(alloc);
    'each: while is_next(rest, Sign::Comma) {
        match further_name(rest) {
            Ok(next) => list.push(next)?,
            Err(NotSpelled) => return Err(ReadFault::NotSpelled),
        }
    }
    Ok(list)
}

/// Reads names in parentheses.
fn listed(alloc: Global, rest: &mut VecDeque<Symbol>) -> Result<Names, ReadFault>
    requires { begins signs.Open rest.old.items ≡ true }
    ensures ok { IfOk result (λ n. rest.old.items ≡ names_then n rest.new.items) }
    ensures shorter { OnOk result (length rest.new.items < length rest.old.items) }
    ensures err { IfErr result (λ f. Denies f ((n : Names) (r : List Symbol) → rest.old.items ≡ names_then n r → ⊥)) }
{
    sign(rest, Sign::Open)?;
    let first = word(rest)?;
    let more = further_names(alloc, rest)?;
    sign(rest, Sign::Close)?;
    Ok(Names::Listed { first, more })
}

/// Reads one name without parentheses.
fn bare(rest: &mut VecDeque<Symbol>) -> Result<Names, NotSpelled>
    requires { begins signs.Open rest.old.items ≡ false }
    ensures ok { IfOk result (λ n. rest.old.items ≡ names_then n rest.new.items) }
    ensures shorter { OnOk result (length rest.new.items < length rest.old.items) }
    ensures err { OnErr result ((n : Names) (r : List Symbol) → rest.old.items ≡ names_then n r → ⊥) }
{
    let name = word(rest)?;
    Ok(Names::Bare(name))
}

/// Reads one name, or names in parentheses.
fn names(alloc: Global, rest: &mut VecDeque<Symbol>) -> Result<Names, ReadFault>
    ensures ok { IfOk result (λ n. rest.old.items ≡ names_then n rest.new.items) }
    ensures shorter { OnOk result (length rest.new.items < length rest.old.items) }
    ensures err { IfErr result (λ f. Denies f ((n : Names) (r : List Symbol) → rest.old.items ≡ names_then n r → ⊥)) }
{
    if is_next(rest, Sign::Open) {
        listed(alloc, rest)
    } else {
        Ok(bare(rest)?)
    }
}

/// Reads a mode with its names.
fn entry(alloc: Global, rest: &mut VecDeque<Symbol>) -> Result<Entry, ReadFault>
    ensures ok { IfOk result (λ e. rest.old.items ≡ entry_then e rest.new.items) }
    ensures shorter { OnOk result (length rest.new.items < length rest.old.items) }
    ensures err { IfErr result (λ f. Denies f ((e : Entry) (r : List Symbol) → rest.old.items ≡ entry_then e r → ⊥)) }
{
    let mode = word(rest)?;
    sign(rest, Sign::Arrow)?;
    let names = names(alloc, rest)?;
    Ok(Entry { mode, names })
}

/// Reads a further entry.
fn further_entry(alloc: Global, rest: &mut VecDeque<Symbol>) -> Result<Entry, ReadFault>
    ensures ok { IfOk result (λ e. rest.old.items ≡ further_entry_then e rest.new.items) }
    ensures shorter { OnOk result (length rest.new.items < length rest.old.items) }
    ensures err { IfErr result (λ f. Denies f ((e : Entry) (r : List Symbol) → rest.old.items ≡ further_entry_then e r → ⊥)) }
{
    sign(rest, Sign::Comma)?;
    entry(alloc, rest)
}

/// Reads the further entries of a Global.
fn further_entries(alloc: Global, rest: &mut VecDeque<Symbol>) -> Result<Items<Entry>, ReadFault>
    ensures ok { IfOk result (λ es. rest.old.items ≡ each_then further_entry_then es rest.new.items) }
    ensures stop { OnOk result (begins signs.Comma rest.new.items ≡ false) }
    ensures err { IfErr result (λ f. Denies f ((es : List Entry) (r : List Symbol) → begins signs.Comma r ≡ false
        → rest.old.items ≡ each_then further_entry_then es r → ⊥)) }
{
    let mut list = Items::new(alloc);
    'each: while is_next(rest, Sign::Comma) {
        match further_entry(alloc, rest) {
            Ok(next) => list.push(next)?,
            Err(fault) => return Err(fault),
        }
    }
    Ok(list)
}

/// Reads the entries of a Global, in parentheses.
fn entries(alloc: Global, rest: &mut VecDeque<Symbol>) -> Result<GlobalForm, ReadFault>
    requires { begins signs.Null rest.old.items ≡ false }
    ensures ok { IfOk result (λ g. rest.old.items ≡ global_then g rest.new.items) }
    ensures err { IfErr result (λ f. Denies f ((g : GlobalForm) (r : List Symbol) → rest.old.items ≡ global_then g r → ⊥)) }
{
    sign(rest, Sign::Open)?;
    let first = entry(alloc, rest)?;
    let more = further_entries(alloc, rest)?;
    sign(rest, Sign::Close)?;
    Ok(GlobalForm::Entries { first, more })
}

/// Reads the definition of a Global.
pub fn global(alloc: Global, rest: &mut VecDeque<Symbol>) -> Result<GlobalForm, ReadFault>
    ensures ok { IfOk result (λ g. rest.old.items ≡ global_then g rest.new.items) }
    ensures err { IfErr result (λ f. Denies f ((g : GlobalForm) (r : List Symbol) → rest.old.items ≡ global_then g r → ⊥)) }
{
    if is_next(rest, Sign::Null) {
        sign(rest, Sign::Null)?;
        Ok(GlobalForm::Null)
    } else {
        entries(alloc, rest)
    }
}
