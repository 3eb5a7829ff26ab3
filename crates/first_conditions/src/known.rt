ghost use Rattle.std.specs.Prelude.{◌≡◌, [], ◌∷◌, ◌++◌, map, is_some, IfNone, IfOk, IfSome, IsTrue};
ghost use Rattle.std.specs.List.{flat_map};
ghost use Rattle.first_conditions.specs.Checks.{are_items, are_known, are_new};
ghost use Rattle.first_conditions.specs.Conditions.{AreDistinct, declared_keys, is_known, item_words, key, line_words, lines_words, primary_words, sum_words, variable_keys, words_of};

use crate::names::{KeyTable, key_of};
use first_path::{Entry, GlobalForm, Line, Names, Primary, Spec, Sum, Term, Test, Variable, Word};
use spark_base::NoMemory;
use std::alloc::Global;

/// Whether a word is known.
fn knows_word(alloc: Global, known: &KeyTable, word: &Word) -> Result<bool, NoMemory>
    ensures { IfOk result (λ b. b ≡ is_known known.now (key word.now)) }
{
    let key = key_of(alloc, word)?;
    Ok(known.knows(key.as_slice()))
}

/// Whether an operand, if it is a name, is known.
fn knows_primary(alloc: Global, known: &KeyTable, primary: &Primary) -> Result<bool, NoMemory>
    ensures { IfOk result (λ b. b ≡ are_known known.now (primary_words primary.now)) }
{
    match primary {
        Primary::Name(word) => knows_word(alloc, known, word),
        Primary::Number(_) => Ok(true),
    }
}

/// Whether the names of further terms are known.
fn knows_terms(alloc: Global, known: &KeyTable, terms: &[Term]) -> Result<bool, NoMemory>
    ensures { IfOk result (λ b. b ≡ are_known known.now (flat_map (λ t. primary_words t.operand) terms.now)) }
{
    for term in terms {
        if !knows_primary(alloc, known, &term.operand)? {
            return Ok(false);
        }
    }
    Ok(true)
}

/// Whether the names of a sum are known.
fn knows_sum(alloc: Global, known: &KeyTable, sum: &Sum) -> Result<bool, NoMemory>
    ensures { IfOk result (λ b. b ≡ are_known known.now (sum_words sum.now)) }
{
    if !knows_primary(alloc, known, &sum.first)? {
        return Ok(false);
    }
    knows_terms(alloc, known, sum.more.as_slice())
}

/// Whether the names of a test are known.
fn knows_test(alloc: Global, known: &KeyTable, test: &Test) -> Result<bool, NoMemory>
    ensures { IfOk result (λ b. b ≡ are_known known.now (sum_words test.now.left ++ sum_words test.now.right)) }
{
    if !knows_sum(alloc, known, &test.left)? {
        return Ok(false);
    }
    knows_sum(alloc, known, &test.right)
}

/// Whether the names of an assignment are known.
fn knows_assignment(
    alloc: Global,
    known: &KeyTable,
    target: &Word,
    value: &Sum,
) -> Result<bool, NoMemory>
    ensures { IfOk result (λ b. b ≡ are_known known.now (target.now ∷ sum_words value.now)) }
{
    if !knows_word(alloc, known, target)? {
        return Ok(false);
    }
    knows_sum(alloc, known, value)
}

/// Whether the names of a line are known.
fn knows_line(alloc: Global, known: &KeyTable, line: &Line) -> Result<bool, NoMemory>
    ensures { IfOk result (λ b. b ≡ are_known known.now (line_words line.now)) }
{
    match line {
        Line::Assign { target, value } => knows_assignment(alloc, known, target, value),
        Line::If(test) => knows_test(alloc, known, test),
        Line::Null | Line::Else | Line::EndIf => Ok(true),
    }
}

/// Whether the names of lines are known.
pub fn knows_lines(alloc: Global, known: &KeyTable, lines: &[Line]) -> Result<bool, NoMemory>
    ensures { IfOk result (λ b. b ≡ are_known known.now (lines_words lines.now)) }
{
    for line in lines {
        if !knows_line(alloc, known, line)? {
            return Ok(false);
        }
    }
    Ok(true)
}

/// Adds a name of a Global, if it is known and new to the table: false says that it is not.
fn add_item(
    alloc: Global,
    known: &KeyTable,
    seen: &mut KeyTable,
    word: &Word,
) -> Result<bool, NoMemory>
    ensures item { IfOk result (λ b. b ≡ are_items known.now seen.old (word.now ∷ [])) }
    ensures seen { IfOk result (λ b. IsTrue b → seen.new ≡ seen.old ++ key word.now ∷ []) }
{
    let key = key_of(alloc, word)?;
    if !known.knows(key.as_slice()) {
        return Ok(false);
    }
    seen.add(key)
}

/// Adds further names of an entry.
fn add_items(
    alloc: Global,
    known: &KeyTable,
    seen: &mut KeyTable,
    words: &[Word],
) -> Result<bool, NoMemory>
    ensures items { IfOk result (λ b. b ≡ are_items known.now seen.old words.now) }
    ensures seen { IfOk result (λ b. IsTrue b → seen.new ≡ seen.old ++ map key words.now) }
{
    for word in words {
        if !add_item(alloc, known, seen, word)? {
            return Ok(false);
        }
    }
    Ok(true)
}

/// Adds the names of an entry.
fn add_names(
    alloc: Global,
    known: &KeyTable,
    seen: &mut KeyTable,
    names: &Names,
) -> Result<bool, NoMemory>
    ensures items { IfOk result (λ b. b ≡ are_items known.now seen.old (words_of names.now)) }
    ensures seen { IfOk result (λ b. IsTrue b → seen.new ≡ seen.old ++ map key (words_of names.now)) }
{
    match names {
        Names::Bare(word) => add_item(alloc, known, seen, word),
        Names::Listed { first, more } => {
            if !add_item(alloc, known, seen, first)? {
                return Ok(false);
            }
            add_items(alloc, known, seen, more.as_slice())
        }
    }
}

/// Adds the names of further entries.
fn add_entries(
    alloc: Global,
    known: &KeyTable,
    seen: &mut KeyTable,
    entries: &[Entry],
) -> Result<bool, NoMemory>
    ensures items { IfOk result (λ b. b ≡ are_items known.now seen.old (flat_map (λ e. words_of e.names) entries.now)) }
{
    for entry in entries {
        if !add_names(alloc, known, seen, &entry.names)? {
            return Ok(false);
        }
    }
    Ok(true)
}

/// Whether the items of a Global are known, each once.
#[tactic(auto, using(crate::proofs::Items::items_append))]
pub fn lists_items(alloc: Global, known: &KeyTable, global: &GlobalForm) -> Result<bool, NoMemory>
    ensures { IfOk result (λ b. b ≡ are_items known.now [] (item_words global.now)) }
{
    match global {
        GlobalForm::Null => Ok(true),
        GlobalForm::Entries { first, more } => {
            let mut seen = KeyTable::new(alloc);
            if !add_names(alloc, known, &mut seen, &first.names)? {
                return Ok(false);
            }
            add_entries(alloc, known, &mut seen, more.as_slice())
        }
    }
}

/// The keys of variables, in their order, and none where one comes twice.
fn keys_of_variables(alloc: Global, variables: &[Variable]) -> Result<Option<KeyTable>, NoMemory>
    ensures keys { IfOk result (λ r. IfSome r (λ t. t ≡ variable_keys variables.now)) }
    ensures new { IfOk result (λ r. is_some r ≡ are_new [] (variable_keys variables.now)) }
{
    let mut table = KeyTable::new(alloc);
    for variable in variables {
        if !table.add(key_of(alloc, &variable.name)?)? {
            return Ok(None);
        }
    }
    Ok(Some(table))
}

/// The keys of a spec's variables, in their order, and none where a declared name comes twice.
#[tactic(auto, using(crate::proofs::Distinct::distinct_when_new, crate::proofs::Distinct::new_when_distinct))]
pub fn declared(alloc: Global, spec: &Spec) -> Result<Option<KeyTable>, NoMemory>
    ensures some { IfOk result (λ r. IfSome r (λ t. AreDistinct (declared_keys spec.now) × (t ≡ variable_keys spec.now.variables))) }
    ensures none { IfOk result (λ r. IfNone r (AreDistinct (declared_keys spec.now) → ⊥)) }
{
    let Some(table) = keys_of_variables(alloc, spec.variables.as_slice())? else {
        return Ok(None);
    };
    if knows_word(alloc, &table, &spec.procedure.name)? {
        return Ok(None);
    }
    Ok(Some(table))
}
