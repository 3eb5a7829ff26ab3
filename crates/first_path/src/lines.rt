ghost use Rattle.std.specs.Prelude.{◌≡◌, ◌<◌, ◌≤◌, List, IfOk, IfErr, IfSome, IfNone, OnOk, OnErr, true, false, length};
ghost use Rattle.first_path.specs.Begins.{Denies, begins, begins_word, begins_line, begins_end_if};
ghost use Rattle.first_path.specs.Spelling.{each_then, sign_then, relation_sign, test_then, line_then};
ghost use Rattle.first_path.specs.declared.source.Line.{Line};
ghost use Rattle.first_path.specs.declared.source.Relation.{Relation};
ghost use Rattle.first_path.specs.declared.source.Sign.TheVariants as signs;
ghost use Rattle.first_path.specs.declared.source.Symbol.{Symbol};
ghost use Rattle.first_path.specs.declared.source.Test.{Test};

use crate::reading::{ReadFault, sum};
use crate::source::{Line, Relation, Sign, Symbol, Test};
use crate::steps::{NotSpelled, is_next, is_word_next, sign, word};
use spark_base::Items;
use std::alloc::Global;
use std::collections::VecDeque;

/// Reads an assignment.
fn assignment(alloc: Global, rest: &mut VecDeque<Symbol>) -> Result<Line, ReadFault>
    requires { begins_word rest.old.items ≡ true }
    ensures ok { IfOk result (λ l. rest.old.items ≡ line_then l rest.new.items) }
    ensures shorter { OnOk result (length rest.new.items < length rest.old.items) }
    ensures err { IfErr result (λ f. Denies f ((l : Line) (r : List Symbol) → rest.old.items ≡ line_then l r → ⊥)) }
{
    let target = word(rest)?;
    sign(rest, Sign::Becomes)?;
    let value = sum(alloc, rest)?;
    sign(rest, Sign::Semicolon)?;
    Ok(Line::Assign { target, value })
}

/// Reads a null statement.
fn null_line(rest: &mut VecDeque<Symbol>) -> Result<Line, NotSpelled>
    requires { begins signs.Null rest.old.items ≡ true }
    ensures ok { IfOk result (λ l. rest.old.items ≡ line_then l rest.new.items) }
    ensures shorter { OnOk result (length rest.new.items < length rest.old.items) }
    ensures err { OnErr result ((l : Line) (r : List Symbol) → rest.old.items ≡ line_then l r → ⊥) }
{
    sign(rest, Sign::Null)?;
    sign(rest, Sign::Semicolon)?;
    Ok(Line::Null)
}

/// The relation that a sign stands for.
fn relation_of(sign: Sign) -> Option<Relation>
    ensures some { IfSome result (λ r. sign ≡ relation_sign r) }
    ensures none { IfNone result ((r : Relation) → sign ≡ relation_sign r → ⊥) }
{
    match sign {
        Sign::Equal => Some(Relation::Equal),
        Sign::NotEqual => Some(Relation::NotEqual),
        Sign::Less => Some(Relation::Less),
        Sign::AtMost => Some(Relation::AtMost),
        Sign::Greater => Some(Relation::Greater),
        Sign::AtLeast => Some(Relation::AtLeast),
        _ => None,
    }
}

/// Reads a relation.
fn relation(rest: &mut VecDeque<Symbol>) -> Result<Relation, NotSpelled>
    ensures ok { IfOk result (λ o. rest.old.items ≡ sign_then (relation_sign o) rest.new.items) }
    ensures shorter { OnOk result (length rest.new.items < length rest.old.items) }
    ensures err { OnErr result ((o : Relation) (r : List Symbol) → rest.old.items ≡ sign_then (relation_sign o) r → ⊥) }
{
    match rest.pop_front() {
        Some(Symbol::Sign(sign)) => relation_of(sign).ok_or(NotSpelled),
        _ => Err(NotSpelled),
    }
}

/// Reads a test, with the `then` behind it.
fn test(alloc: Global, rest: &mut VecDeque<Symbol>) -> Result<Test, ReadFault>
    ensures ok { IfOk result (λ t. rest.old.items ≡ test_then t (sign_then signs.Then rest.new.items)) }
    ensures shorter { OnOk result (length rest.new.items < length rest.old.items) }
    ensures err { IfErr result (λ f. Denies f ((t : Test) (r : List Symbol)
        → rest.old.items ≡ test_then t (sign_then signs.Then r) → ⊥)) }
{
    let left = sum(alloc, rest)?;
    let relation = relation(rest)?;
    let right = sum(alloc, rest)?;
    sign(rest, Sign::Then)?;
    Ok(Test {
        left,
        relation,
        right,
    })
}

/// Reads the head of an if.
fn head(alloc: Global, rest: &mut VecDeque<Symbol>) -> Result<Line, ReadFault>
    requires { begins signs.If rest.old.items ≡ true }
    ensures ok { IfOk result (λ l. rest.old.items ≡ line_then l rest.new.items) }
    ensures shorter { OnOk result (length rest.new.items < length rest.old.items) }
    ensures err { IfErr result (λ f. Denies f ((l : Line) (r : List Symbol) → rest.old.items ≡ line_then l r → ⊥)) }
{
    sign(rest, Sign::If)?;
    Ok(Line::If(test(alloc, rest)?))
}

/// Reads an else, or the end of an if.
fn middle_or_end(rest: &mut VecDeque<Symbol>) -> Result<Line, NotSpelled>
    requires word { begins_word rest.old.items ≡ false }
    requires null { begins signs.Null rest.old.items ≡ false }
    requires head { begins signs.If rest.old.items ≡ false }
    ensures ok { IfOk result (λ l. rest.old.items ≡ line_then l rest.new.items) }
    ensures shorter { OnOk result (length rest.new.items < length rest.old.items) }
    ensures err { OnErr result ((l : Line) (r : List Symbol) → rest.old.items ≡ line_then l r → ⊥) }
{
    if is_next(rest, Sign::Else) {
        sign(rest, Sign::Else)?;
        return Ok(Line::Else);
    }
    sign(rest, Sign::End)?;
    sign(rest, Sign::If)?;
    sign(rest, Sign::Semicolon)?;
    Ok(Line::EndIf)
}

/// Reads a line.
fn line(alloc: Global, rest: &mut VecDeque<Symbol>) -> Result<Line, ReadFault>
    ensures ok { IfOk result (λ l. rest.old.items ≡ line_then l rest.new.items) }
    ensures shorter { OnOk result (length rest.new.items < length rest.old.items) }
    ensures err { IfErr result (λ f. Denies f ((l : Line) (r : List Symbol) → rest.old.items ≡ line_then l r → ⊥)) }
{
    if is_word_next(rest) {
        assignment(alloc, rest)
    } else if is_next(rest, Sign::If) {
        head(alloc, rest)
    } else if is_next(rest, Sign::Null) {
        Ok(null_line(rest)?)
    } else {
        Ok(middle_or_end(rest)?)
    }
}

/// Whether the end of an if comes next.
fn is_end_if_next(rest: &VecDeque<Symbol>) -> bool
    ensures { result ≡ begins_end_if rest.now.items }
{
    match (rest.get(0), rest.get(1)) {
        (Some(Symbol::Sign(Sign::End)), Some(Symbol::Sign(Sign::If))) => true,
        _ => false,
    }
}

/// Whether a line comes next.
fn is_line_next(rest: &VecDeque<Symbol>) -> bool
    ensures { result ≡ begins_line rest.now.items }
{
    is_word_next(rest)
        || is_next(rest, Sign::Null)
        || is_next(rest, Sign::If)
        || is_next(rest, Sign::Else)
        || is_end_if_next(rest)
}

/// Reads the lines of statements.
pub fn lines(alloc: Global, rest: &mut VecDeque<Symbol>) -> Result<Items<Line>, ReadFault>
    ensures ok { IfOk result (λ ls. rest.old.items ≡ each_then line_then ls rest.new.items) }
    ensures stop { OnOk result (begins_line rest.new.items ≡ false) }
    ensures err { IfErr result (λ f. Denies f ((ls : List Line) (r : List Symbol) → begins_line r ≡ false
        → rest.old.items ≡ each_then line_then ls r → ⊥)) }
{
    let mut list = Items::new(alloc);
    'each: while is_line_next(rest) {
        match line(alloc, rest) {
            Ok(next) => list.push(next)?,
            Err(fault) => return Err(fault),
        }
    }
    Ok(list)
}
