//! The readers of packages, their bodies and main subprograms.
ghost use Rattle.std.specs.Prelude.{◌≡◌, ◌≤◌, ◌+◌, length, IfOk};
ghost use Rattle.ada_grammar.specs.Parts as parts;
ghost use Rattle.ada_grammar.specs.Lexemes.{lexeme, lexemes};
ghost use Rattle.ada_grammar.specs.Phrases as phrases;
ghost use Rattle.ada_grammar.specs.Standing.{Forth, Holds, Widens};
ghost use Rattle.spark_parser.specs.Files.{FindsUnit};

use crate::declarations::declarations;
use ada_aspects::readers::optional_aspects;
use ada_grammar::{
    Children, Class, Cursor, Fault, accept, add_declaration, add_end_name, add_unit, expect,
};
use ada_stmts::statements::{body, statements};
use ada_tree::{DeclKind, Mark, Region, Reserved, Token, Tokens, UnitKind, Units, unit_end};
use std::alloc::Global;

/// The end name, if any, and the semicolon of a unit over these children.
fn end_of_unit(
    alloc: Global,
    units: &mut Units,
    tokens: &Tokens,
    cursor: Cursor,
    kind: UnitKind,
    name: Token,
    mut own: Children,
) -> Result<Cursor, Fault>
    requires at { cursor.at ≤ length (lexemes tokens.now) }
    ensures widens { Widens units.old units.new }
    ensures one { IfOk result (λ _. length units.new.units ≡ length units.old.units + 1) }
    ensures goes { IfOk result (λ next. Forth (lexemes tokens.now) cursor next) }
    ensures reads { (os ds : phrases.Children) → Holds units.old own os → FindsUnit (parts.EndOfUnit kind (lexeme tokens.now.source name) os ds) (lexemes tokens.now) cursor units.new (length units.old.units) ds result }
{
    if let Some((last, behind_last)) = accept(tokens, cursor, Class::Word)? {
        let (_, behind_end) = expect(tokens, behind_last, Class::Mark(Mark::Semicolon))?;
        add_end_name(alloc, units, tokens, last, &mut own)?;
        let kind = unit_end(kind);
        add_unit(alloc, units, tokens, kind, name, own)?;
        return Ok(behind_end);
    }
    let (_, behind_end_2) = expect(tokens, cursor, Class::Mark(Mark::Semicolon))?;
    add_unit(alloc, units, tokens, kind, name, own)?;
    Ok(behind_end_2)
}

/// The declaration of a package, behind its word.
fn spec_unit(
    alloc: Global,
    units: &mut Units,
    tokens: &Tokens,
    cursor: Cursor,
    mut own: Children,
) -> Result<Cursor, Fault>
    requires at { cursor.at ≤ length (lexemes tokens.now) }
    ensures widens { Widens units.old units.new }
    ensures one { IfOk result (λ _. length units.new.units ≡ length units.old.units + 1) }
    ensures goes { IfOk result (λ next. Forth (lexemes tokens.now) cursor next) }
    ensures reads { (os ds : phrases.Children) → Holds units.old own os → FindsUnit (parts.SpecUnit os ds) (lexemes tokens.now) cursor units.new (length units.old.units) ds result }
{
    let (name, behind_name) = expect(tokens, cursor, Class::Word)?;
    let behind_aspects = optional_aspects(alloc, units, tokens, behind_name, &mut own)?;
    let (_, behind_keyword) = expect(tokens, behind_aspects, Class::Reserved(Reserved::Is))?;
    let next = declarations(alloc, units, tokens, behind_keyword, Region::Spec, &mut own)?;
    if let Some((private, inside)) = accept(tokens, next, Class::Reserved(Reserved::Private))? {
        let mut hidden = Children::new(alloc);
        let behind_items = declarations(alloc, units, tokens, inside, Region::Spec, &mut hidden)?;
        add_declaration(units, DeclKind::PrivatePart, private.span, hidden, &mut own)?;
        let (_, behind_end) = expect(tokens, behind_items, Class::Reserved(Reserved::End))?;
        let kind = UnitKind::Spec {
            has_private_part: true,
            has_end_name: false,
        };
        return end_of_unit(alloc, units, tokens, behind_end, kind, name, own);
    }
    let (_, behind_end_2) = expect(tokens, next, Class::Reserved(Reserved::End))?;
    let kind = UnitKind::Spec {
        has_private_part: false,
        has_end_name: false,
    };
    end_of_unit(alloc, units, tokens, behind_end_2, kind, name, own)
}

/// The body of a package, behind its words.
fn body_unit(
    alloc: Global,
    units: &mut Units,
    tokens: &Tokens,
    cursor: Cursor,
    mut own: Children,
) -> Result<Cursor, Fault>
    requires at { cursor.at ≤ length (lexemes tokens.now) }
    ensures widens { Widens units.old units.new }
    ensures one { IfOk result (λ _. length units.new.units ≡ length units.old.units + 1) }
    ensures goes { IfOk result (λ next. Forth (lexemes tokens.now) cursor next) }
    ensures reads { (os ds : phrases.Children) → Holds units.old own os → FindsUnit (parts.BodyUnit os ds) (lexemes tokens.now) cursor units.new (length units.old.units) ds result }
{
    let (name, behind_name) = expect(tokens, cursor, Class::Word)?;
    let behind_aspects = optional_aspects(alloc, units, tokens, behind_name, &mut own)?;
    let (_, behind_keyword) = expect(tokens, behind_aspects, Class::Reserved(Reserved::Is))?;
    let behind_items = declarations(alloc, units, tokens, behind_keyword, Region::Body, &mut own)?;
    if let Some((_, behind_begin)) = accept(
        tokens,
        behind_items,
        Class::Reserved(Reserved::Begin),
    )? {
        let behind_statements = statements(alloc, units, tokens, behind_begin, &mut own)?;
        let (_, behind_end) = expect(tokens, behind_statements, Class::Reserved(Reserved::End))?;
        let kind = UnitKind::PackageBody {
            has_statements: true,
            has_end_name: false,
        };
        return end_of_unit(alloc, units, tokens, behind_end, kind, name, own);
    }
    let (_, behind_end_2) = expect(tokens, behind_items, Class::Reserved(Reserved::End))?;
    let kind = UnitKind::PackageBody {
        has_statements: false,
        has_end_name: false,
    };
    end_of_unit(alloc, units, tokens, behind_end_2, kind, name, own)
}

/// A package or its body, behind the word package.
pub fn package_unit(
    alloc: Global,
    units: &mut Units,
    tokens: &Tokens,
    cursor: Cursor,
    own: Children,
) -> Result<Cursor, Fault>
    requires at { cursor.at ≤ length (lexemes tokens.now) }
    ensures widens { Widens units.old units.new }
    ensures one { IfOk result (λ _. length units.new.units ≡ length units.old.units + 1) }
    ensures goes { IfOk result (λ next. Forth (lexemes tokens.now) cursor next) }
    ensures reads { (os ds : phrases.Children) → Holds units.old own os → FindsUnit (parts.PackageUnit os ds) (lexemes tokens.now) cursor units.new (length units.old.units) ds result }
{
    if let Some((_, behind_keyword)) = accept(tokens, cursor, Class::Reserved(Reserved::Body))? {
        return body_unit(alloc, units, tokens, behind_keyword, own);
    }
    spec_unit(alloc, units, tokens, cursor, own)
}

/// A main subprogram, behind its word.
pub fn main_unit(
    alloc: Global,
    units: &mut Units,
    tokens: &Tokens,
    cursor: Cursor,
    mut own: Children,
) -> Result<Cursor, Fault>
    requires at { cursor.at ≤ length (lexemes tokens.now) }
    ensures widens { Widens units.old units.new }
    ensures one { IfOk result (λ _. length units.new.units ≡ length units.old.units + 1) }
    ensures goes { IfOk result (λ next. Forth (lexemes tokens.now) cursor next) }
    ensures reads { (os ds : phrases.Children) → Holds units.old own os → FindsUnit (parts.MainUnit os ds) (lexemes tokens.now) cursor units.new (length units.old.units) ds result }
{
    let (name, behind_name) = expect(tokens, cursor, Class::Word)?;
    let behind_aspects = optional_aspects(alloc, units, tokens, behind_name, &mut own)?;
    let (_, behind_keyword) = expect(tokens, behind_aspects, Class::Reserved(Reserved::Is))?;
    let behind_body = body(alloc, units, tokens, behind_keyword, &mut own)?;
    end_of_unit(
        alloc,
        units,
        tokens,
        behind_body,
        UnitKind::Main {
            has_end_name: false,
        },
        name,
        own,
    )
}
