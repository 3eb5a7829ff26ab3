//! The readers of a file: its pragmas, contexts and units.
ghost use Rattle.std.specs.Prelude.{◌≤◌, length, IfOk};
ghost use Rattle.ada_grammar.specs.Parts as parts;
ghost use Rattle.ada_grammar.specs.Parts.{Rest};
ghost use Rattle.ada_grammar.specs.Lexemes.{Lexeme, lexeme, lexemes};
ghost use Rattle.ada_grammar.specs.Phrases as phrases;
ghost use Rattle.ada_grammar.specs.Reading.{Awaits, point};
ghost use Rattle.ada_grammar.specs.Standing.{Forth, Grows, Holds};
ghost use Rattle.ada_tree.specs.Forms.{file_form};
ghost use Rattle.ada_tree.specs.Tree.{IsOrdered};
ghost use Rattle.ada_tree.specs.declared.forms.FileForm.TheVariants as forms;
ghost use Rattle.spark_parser.specs.Files.{AddsUnits, FindsFile, FindsItem};

use crate::units::{main_unit, package_unit};
use ada_aspects::readers::pragma;
use ada_grammar::{Children, Class, Cursor, Fault, accept};
use ada_stmts::declarations::unit_names;
use ada_tree::{DeclKind, FileForm, Reserved, Token, Tokens, Units, file_form};
use std::alloc::Global;

/// How far a file is read.
#[derive(Debug, Drop)]
pub struct Progress {
    pub next: Cursor,
    /// Whether the file may end here: a unit stands in it, and no context stands behind the last.
    pub ends: bool,
    /// The context of the next unit.
    pub context: Children,
}

/// A use clause of a context, behind its word.
fn context_use(
    alloc: Global,
    units: &mut Units,
    tokens: &Tokens,
    cursor: Cursor,
    first: Token,
    so_far: Progress,
) -> Result<Progress, Fault>
    requires at { cursor.at ≤ length (lexemes tokens.now) }
    ensures goes { IfOk result (λ p. Forth (lexemes tokens.now) cursor p.next) }
    ensures reads { (start : Cursor) (old : Units) (os ds : phrases.Children) → Holds units.old so_far.context os → AddsUnits old units.old ds.units
        → Awaits parts.File (point (lexemes tokens.now) start) (point (lexemes tokens.now) cursor) (Rest (parts.FileItem forms.Use (lexeme tokens.now.source first) so_far.ends os ds))
        → FindsItem (lexemes tokens.now) start old units.new result }
{
    let Progress { mut context, .. } = so_far;
    if let Some((_, behind_keyword)) = accept(tokens, cursor, Class::Reserved(Reserved::Type))? {
        let kind = DeclKind::ContextUse { is_type: true };
        let next = unit_names(
            alloc,
            units,
            tokens,
            behind_keyword,
            kind,
            first.span,
            &mut context,
        )?;
        return Ok(Progress {
            next,
            ends: false,
            context,
        });
    }
    let kind = DeclKind::ContextUse { is_type: false };
    let next = unit_names(alloc, units, tokens, cursor, kind, first.span, &mut context)?;
    Ok(Progress {
        next,
        ends: false,
        context,
    })
}

/// A with clause of a context, behind its word.
fn context_with(
    alloc: Global,
    units: &mut Units,
    tokens: &Tokens,
    cursor: Cursor,
    first: Token,
    so_far: Progress,
) -> Result<Progress, Fault>
    requires at { cursor.at ≤ length (lexemes tokens.now) }
    ensures goes { IfOk result (λ p. Forth (lexemes tokens.now) cursor p.next) }
    ensures reads { (start : Cursor) (old : Units) (os ds : phrases.Children) → Holds units.old so_far.context os → AddsUnits old units.old ds.units
        → Awaits parts.File (point (lexemes tokens.now) start) (point (lexemes tokens.now) cursor) (Rest (parts.FileItem forms.With (lexeme tokens.now.source first) so_far.ends os ds))
        → FindsItem (lexemes tokens.now) start old units.new result }
{
    let Progress { mut context, .. } = so_far;
    let kind = DeclKind::With;
    let next = unit_names(alloc, units, tokens, cursor, kind, first.span, &mut context)?;
    Ok(Progress {
        next,
        ends: false,
        context,
    })
}

/// A pragma between the units, behind its word.
fn file_pragma(tokens: &Tokens, cursor: Cursor, so_far: Progress) -> Result<Progress, Fault>
    requires at { cursor.at ≤ length (lexemes tokens.now) }
    ensures goes { IfOk result (λ p. Forth (lexemes tokens.now) cursor p.next) }
    ensures reads { (first : Lexeme) (start : Cursor) (old now : Units) (os ds : phrases.Children) → Holds now so_far.context os → AddsUnits old now ds.units
        → Awaits parts.File (point (lexemes tokens.now) start) (point (lexemes tokens.now) cursor) (Rest (parts.FileItem forms.Pragma first so_far.ends os ds))
        → FindsItem (lexemes tokens.now) start old now result }
{
    let next = pragma(tokens, cursor)?;
    Ok(Progress { next, ..so_far })
}

/// A package or its body, behind the word `package`.
fn package(
    alloc: Global,
    units: &mut Units,
    tokens: &Tokens,
    cursor: Cursor,
    so_far: Progress,
) -> Result<Progress, Fault>
    requires at { cursor.at ≤ length (lexemes tokens.now) }
    ensures goes { IfOk result (λ p. Forth (lexemes tokens.now) cursor p.next) }
    ensures reads { (first : Lexeme) (start : Cursor) (old : Units) (os ds : phrases.Children) → Holds units.old so_far.context os → AddsUnits old units.old ds.units
        → Awaits parts.File (point (lexemes tokens.now) start) (point (lexemes tokens.now) cursor) (Rest (parts.FileItem forms.Package first so_far.ends os ds))
        → FindsItem (lexemes tokens.now) start old units.new result }
{
    let next = package_unit(alloc, units, tokens, cursor, so_far.context)?;
    Ok(Progress {
        next,
        ends: true,
        context: Children::new(alloc),
    })
}

/// A main subprogram, behind the word `procedure`.
fn main_subprogram(
    alloc: Global,
    units: &mut Units,
    tokens: &Tokens,
    cursor: Cursor,
    so_far: Progress,
) -> Result<Progress, Fault>
    requires at { cursor.at ≤ length (lexemes tokens.now) }
    ensures goes { IfOk result (λ p. Forth (lexemes tokens.now) cursor p.next) }
    ensures reads { (first : Lexeme) (start : Cursor) (old : Units) (os ds : phrases.Children) → Holds units.old so_far.context os → AddsUnits old units.old ds.units
        → Awaits parts.File (point (lexemes tokens.now) start) (point (lexemes tokens.now) cursor) (Rest (parts.FileItem forms.Procedure first so_far.ends os ds))
        → FindsItem (lexemes tokens.now) start old units.new result }
{
    let next = main_unit(alloc, units, tokens, cursor, so_far.context)?;
    Ok(Progress {
        next,
        ends: true,
        context: Children::new(alloc),
    })
}

/// One item of a file, behind its first word.
fn item(
    alloc: Global,
    units: &mut Units,
    tokens: &Tokens,
    cursor: Cursor,
    first: Token,
    so_far: Progress,
) -> Result<Progress, Fault>
    requires at { cursor.at ≤ length (lexemes tokens.now) }
    ensures goes { IfOk result (λ p. Forth (lexemes tokens.now) cursor p.next) }
    ensures reads { (start : Cursor) (old : Units) (os ds : phrases.Children) → Holds units.old so_far.context os → AddsUnits old units.old ds.units
        → Awaits parts.File (point (lexemes tokens.now) start) (point (lexemes tokens.now) cursor) (Rest (parts.FileItem (file_form first.kind) (lexeme tokens.now.source first) so_far.ends os ds))
        → FindsItem (lexemes tokens.now) start old units.new result }
{
    match file_form(first.kind) {
        FileForm::Pragma => file_pragma(tokens, cursor, so_far),
        FileForm::With => context_with(alloc, units, tokens, cursor, first, so_far),
        FileForm::Use => context_use(alloc, units, tokens, cursor, first, so_far),
        FileForm::Package => package(alloc, units, tokens, cursor, so_far),
        FileForm::Procedure => main_subprogram(alloc, units, tokens, cursor, so_far),
    }
}

/// A file, from the cursor to where no more items stand.
pub fn file(
    alloc: Global,
    units: &mut Units,
    tokens: &Tokens,
    cursor: Cursor,
) -> Result<Cursor, Fault>
    requires at { cursor.at ≤ length (lexemes tokens.now) }
    requires ordered { IsOrdered units.old }
    ensures { FindsFile (lexemes tokens.now) cursor units.old units.new result }
{
    let mut so_far = Progress {
        next: cursor,
        ends: false,
        context: Children::new(alloc),
    };
    while let Some((first, behind_first)) = accept(tokens, so_far.next, Class::FileItem)? {
        so_far = item(alloc, units, tokens, behind_first, first, so_far)?;
    }
    if so_far.ends {
        Ok(so_far.next)
    } else {
        Err(Fault::Syntax(so_far.next.at))
    }
}
