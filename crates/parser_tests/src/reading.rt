// What the readers answer of a text.
use ada_aspects::read_aspects;
use ada_exprs::{read_drange, read_expr, read_name, read_simple};
use ada_lexer::lex;
use ada_stmts::{read_local_decls, read_stmts};
use ada_tree::{ExprKind, Tokens, Units};
use spark_base::{Bytes, FileNo, Name};
use spark_messages::{Code, PhaseFault};
use std::alloc::{AllocError, Global};
use std::fmt::Debug;
use std::test::Fail;

/// A part of the grammar that a call reads by itself.
#[derive(Clone, Copy, Debug)]
pub enum Part {
    Expression,
    Simple,
    Name,
    Range,
    Aspects,
    Statements,
    Declarations,
}

/// What is answered of a text: the place behind the part; or a refusal and its column.
#[derive(Clone, Copy, Debug, PartialEq, Eq)]
pub enum Answer {
    Read { next: usize },
    Refused(Code, u32),
}

pub fn tokens_of(alloc: Global, source: &[u8]) -> Result<Tokens, PhaseFault> {
    let bytes = Bytes::from_slice(alloc, source)?;
    lex(alloc, FileNo(0), bytes)
}

/// The nodes of a part, and the place behind it.
fn read(alloc: Global, part: Part, text: &str) -> Result<(Units, usize), PhaseFault> {
    let tokens = tokens_of(alloc, text.as_bytes())?;
    let mut units = Units::new(alloc);
    let next = match part {
        Part::Expression => read_expr(alloc, &mut units, &tokens, 0, 0)?.1,
        Part::Simple => read_simple(alloc, &mut units, &tokens, 0, 0)?.1,
        Part::Name => read_name(alloc, &mut units, &tokens, 0, 0)?.1,
        Part::Range => read_drange(alloc, &mut units, &tokens, 0, 0)?.1,
        Part::Aspects => read_aspects(alloc, &mut units, &tokens, 0)?.1,
        Part::Statements => read_stmts(alloc, &mut units, &tokens, 0)?.1,
        Part::Declarations => read_local_decls(alloc, &mut units, &tokens, 0)?.1,
    };
    Ok((units, next))
}

pub fn answer_of(alloc: Global, part: Part, text: &str) -> Result<Answer, PhaseFault> {
    match read(alloc, part, text) {
        Ok((_, next)) => Ok(Answer::Read { next }),
        Err(PhaseFault::Refused(message)) => Ok(Answer::Refused(message.code, message.place.col)),
        Err(PhaseFault::NoMemory) => Err(PhaseFault::NoMemory),
    }
}

/// Adds the first word of what is written of a kind.
fn push_word(alloc: Global, shown: &mut String, kind: ExprKind) -> Result<(), AllocError> {
    let written = format!(in alloc; "{kind:?}")?;
    for letter in written.as_str().chars() {
        if !letter.is_ascii_alphabetic() {
            break;
        }
        shown.push(letter)?;
    }
    shown.push_str(" ")
}

fn push_kind<K: Debug>(alloc: Global, shown: &mut String, kind: &K) -> Result<(), AllocError> {
    let written = format!(in alloc; "{kind:?} ")?;
    shown.push_str(written.as_str())
}

/// The kinds of the expressions of a text, by their first words, each behind its children.
pub fn expressions_of(alloc: Global, part: Part, text: &str) -> Result<String, Fail> {
    let (units, _) = read(alloc, part, text)?;
    let mut shown = String::new(alloc);
    for node in units.exprs.as_slice() {
        push_word(alloc, &mut shown, node.kind)?;
    }
    Ok(shown)
}

/// The kinds of the states of a text, and those of its aspects, each behind its children.
pub fn aspects_of(alloc: Global, text: &str) -> Result<String, Fail> {
    let (units, _) = read(alloc, Part::Aspects, text)?;
    let mut shown = declarations_in(alloc, &units)?;
    for node in units.aspects.as_slice() {
        push_kind(alloc, &mut shown, &node.kind)?;
    }
    Ok(shown)
}

/// The kinds of the statements of a text, each behind its children.
pub fn statements_of(alloc: Global, text: &str) -> Result<String, Fail> {
    let (units, _) = read(alloc, Part::Statements, text)?;
    let mut shown = String::new(alloc);
    for node in units.stmts.as_slice() {
        push_kind(alloc, &mut shown, &node.kind)?;
    }
    Ok(shown)
}

fn declarations_in(alloc: Global, units: &Units) -> Result<String, AllocError> {
    let mut shown = String::new(alloc);
    for node in units.decls.as_slice() {
        push_kind(alloc, &mut shown, &node.kind)?;
    }
    Ok(shown)
}

/// The kinds of the declarations of a text, each behind its children.
pub fn declarations_of(alloc: Global, text: &str) -> Result<String, Fail> {
    let (units, _) = read(alloc, Part::Declarations, text)?;
    Ok(declarations_in(alloc, &units)?)
}

fn push_name(shown: &mut String, name: &Option<Name>) -> Result<(), Fail> {
    if let Some(name) = name {
        shown.push_str(str::from_utf8(name.written.as_slice())?)?;
        shown.push_str(" ")?;
    }
    Ok(())
}

/// The names of the declarations and the aspects of a text.
pub fn names_of(alloc: Global, part: Part, text: &str) -> Result<String, Fail> {
    let (units, _) = read(alloc, part, text)?;
    let mut shown = String::new(alloc);
    for node in units.decls.as_slice() {
        push_name(&mut shown, &node.name)?;
    }
    for node in units.aspects.as_slice() {
        push_name(&mut shown, &node.name)?;
    }
    Ok(shown)
}
