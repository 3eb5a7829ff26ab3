ghost use Rattle.std.specs.Prelude.{◌≡◌, ◌≤◌, [], ◌∷◌, length, map, IfOk};
ghost use Rattle.ada_grammar.specs.Parts as parts;
ghost use Rattle.ada_grammar.specs.Lexemes.{Lexeme, lexeme, lexemes};
ghost use Rattle.ada_grammar.specs.Phrases as phrases;
ghost use Rattle.ada_grammar.specs.Standing.{Finds, Forth, Grows, Holds};
ghost use Rattle.ada_tree.specs.Forms.{local_form};

use ada_aspects::readers::{behind_with, pragma};
use ada_exprs::parts::{discrete_range, expression, indication, simple_expression, unit_name};
use ada_grammar::{
    Children, Class, Cursor, Fault, accept, add_declaration, declare, declare_all, expect,
};
use ada_tree::{DeclKind, LocalForm, Mark, Naming, Reserved, Token, Tokens, Units, local_form};
use spark_base::{Items, NoMemory, Span};
use std::alloc::Global;

/// One name.
pub fn only(alloc: Global, name: Token) -> Result<Items<Token>, NoMemory>
    ensures { IfOk result (λ names. names ≡ name ∷ []) }
{
    let names = vec![in alloc; name]?;
    Ok(Items::from_vec(names))
}

/// Names before a colon, behind the first of them, and what they declare.
pub fn declared_names(
    alloc: Global,
    units: &mut Units,
    tokens: &Tokens,
    cursor: Cursor,
    what: Naming,
    first: Token,
    into: &mut Children,
) -> Result<Cursor, Fault>
    requires at { cursor.at ≤ length (lexemes tokens.now) }
    ensures grows { Grows units.old units.new }
    ensures goes { IfOk result (λ next. Forth (lexemes tokens.now) cursor next) }
    ensures reads { (ds : phrases.Children) → Holds units.old into.old ds → Finds (parts.Names what (lexeme tokens.now.source first ∷ []) ds) (lexemes tokens.now) cursor units.new into.new result }
{
    let mut names = only(alloc, first)?;
    let mut next = cursor;
    while let Some((_, behind_comma)) = accept(tokens, next, Class::Mark(Mark::Comma))? {
        let (name, behind_name) = expect(tokens, behind_comma, Class::Word)?;
        names.push(name)?;
        next = behind_name;
    }
    let (_, behind_colon) = expect(tokens, next, Class::Mark(Mark::Colon))?;
    behind_names(alloc, units, tokens, behind_colon, what, &names, into)
}

/// Aspects, if any, and the semicolon of a declaration of these names over these children.
pub fn closing(
    alloc: Global,
    units: &mut Units,
    tokens: &Tokens,
    cursor: Cursor,
    kind: DeclKind,
    names: &Items<Token>,
    mut own: Children,
    into: &mut Children,
) -> Result<Cursor, Fault>
    requires at { cursor.at ≤ length (lexemes tokens.now) }
    ensures grows { Grows units.old units.new }
    ensures goes { IfOk result (λ next. Forth (lexemes tokens.now) cursor next) }
    ensures reads { (os ds : phrases.Children) → Holds units.old own os → Holds units.old into.old ds → Finds (parts.Closing kind (map (lexeme tokens.now.source) names.now) os ds) (lexemes tokens.now) cursor units.new into.new result }
{
    if let Some((_, behind_keyword)) = accept(tokens, cursor, Class::Reserved(Reserved::With))? {
        let behind_behind_with = behind_with(alloc, units, tokens, behind_keyword, &mut own)?;
        let (_, behind_end) = expect(tokens, behind_behind_with, Class::Mark(Mark::Semicolon))?;
        declare_all(alloc, units, tokens, kind, names, own, into)?;
        return Ok(behind_end);
    }
    let (_, behind_end_2) = expect(tokens, cursor, Class::Mark(Mark::Semicolon))?;
    declare_all(alloc, units, tokens, kind, names, own, into)?;
    Ok(behind_end_2)
}

/// What names declare, behind their colon.
fn behind_names(
    alloc: Global,
    units: &mut Units,
    tokens: &Tokens,
    cursor: Cursor,
    what: Naming,
    names: &Items<Token>,
    into: &mut Children,
) -> Result<Cursor, Fault>
    requires at { cursor.at ≤ length (lexemes tokens.now) }
    ensures grows { Grows units.old units.new }
    ensures goes { IfOk result (λ next. Forth (lexemes tokens.now) cursor next) }
    ensures reads { (ds : phrases.Children) → Holds units.old into.old ds → Finds (parts.BehindNames what (map (lexeme tokens.now.source) names.now) ds) (lexemes tokens.now) cursor units.new into.new result }
{
    match what {
        Naming::Objects => object(alloc, units, tokens, cursor, names, into),
        Naming::Components => component(alloc, units, tokens, cursor, names, into),
        Naming::Formals => formal(alloc, units, tokens, cursor, names, into),
    }
}

/// An object or a named number, behind the colon.
fn object(
    alloc: Global,
    units: &mut Units,
    tokens: &Tokens,
    cursor: Cursor,
    names: &Items<Token>,
    into: &mut Children,
) -> Result<Cursor, Fault>
    requires at { cursor.at ≤ length (lexemes tokens.now) }
    ensures grows { Grows units.old units.new }
    ensures goes { IfOk result (λ next. Forth (lexemes tokens.now) cursor next) }
    ensures reads { (ds : phrases.Children) → Holds units.old into.old ds → Finds (parts.Object (map (lexeme tokens.now.source) names.now) ds) (lexemes tokens.now) cursor units.new into.new result }
{
    if let Some((_, behind_keyword)) = accept(
        tokens,
        cursor,
        Class::Reserved(Reserved::Constant),
    )? {
        let mut own = Children::new(alloc);
        if let Some((_, behind_becomes)) = accept(
            tokens,
            behind_keyword,
            Class::Mark(Mark::Becomes),
        )? {
            let behind_value = expression(alloc, units, tokens, behind_becomes, &mut own)?;
            let (_, behind_end) = expect(tokens, behind_value, Class::Mark(Mark::Semicolon))?;
            let kind = DeclKind::NamedNumber;
            declare_all(alloc, units, tokens, kind, names, own, into)?;
            return Ok(behind_end);
        }
        return object_from(alloc, units, tokens, behind_keyword, true, names, into);
    }
    object_from(alloc, units, tokens, cursor, false, names, into)
}

/// An object, behind the colon and the word constant.
fn object_from(
    alloc: Global,
    units: &mut Units,
    tokens: &Tokens,
    cursor: Cursor,
    constant: bool,
    names: &Items<Token>,
    into: &mut Children,
) -> Result<Cursor, Fault>
    requires at { cursor.at ≤ length (lexemes tokens.now) }
    ensures grows { Grows units.old units.new }
    ensures goes { IfOk result (λ next. Forth (lexemes tokens.now) cursor next) }
    ensures reads { (ds : phrases.Children) → Holds units.old into.old ds → Finds (parts.ObjectFrom constant (map (lexeme tokens.now.source) names.now) ds) (lexemes tokens.now) cursor units.new into.new result }
{
    let mut own = Children::new(alloc);
    let behind_subtype = indication(alloc, units, tokens, cursor, &mut own)?;
    if let Some((_, behind_becomes)) = accept(tokens, behind_subtype, Class::Mark(Mark::Becomes))? {
        let behind_value = expression(alloc, units, tokens, behind_becomes, &mut own)?;
        let kind = DeclKind::Object {
            is_constant: constant,
            has_initial_value: true,
        };
        return closing(alloc, units, tokens, behind_value, kind, names, own, into);
    }
    let kind = DeclKind::Object {
        is_constant: constant,
        has_initial_value: false,
    };
    closing(alloc, units, tokens, behind_subtype, kind, names, own, into)
}

/// A component, behind the colon.
fn component(
    alloc: Global,
    units: &mut Units,
    tokens: &Tokens,
    cursor: Cursor,
    names: &Items<Token>,
    into: &mut Children,
) -> Result<Cursor, Fault>
    requires at { cursor.at ≤ length (lexemes tokens.now) }
    ensures grows { Grows units.old units.new }
    ensures goes { IfOk result (λ next. Forth (lexemes tokens.now) cursor next) }
    ensures reads { (ds : phrases.Children) → Holds units.old into.old ds → Finds (parts.Component (map (lexeme tokens.now.source) names.now) ds) (lexemes tokens.now) cursor units.new into.new result }
{
    let mut own = Children::new(alloc);
    let behind_subtype = indication(alloc, units, tokens, cursor, &mut own)?;
    if let Some((_, behind_becomes)) = accept(tokens, behind_subtype, Class::Mark(Mark::Becomes))? {
        let behind_value = expression(alloc, units, tokens, behind_becomes, &mut own)?;
        let (_, behind_end) = expect(tokens, behind_value, Class::Mark(Mark::Semicolon))?;
        let kind = DeclKind::Component { has_preset: true };
        declare_all(alloc, units, tokens, kind, names, own, into)?;
        return Ok(behind_end);
    }
    let (_, behind_end_2) = expect(tokens, behind_subtype, Class::Mark(Mark::Semicolon))?;
    let kind = DeclKind::Component { has_preset: false };
    declare_all(alloc, units, tokens, kind, names, own, into)?;
    Ok(behind_end_2)
}

/// A formal, behind the colon.
fn formal(
    alloc: Global,
    units: &mut Units,
    tokens: &Tokens,
    cursor: Cursor,
    names: &Items<Token>,
    into: &mut Children,
) -> Result<Cursor, Fault>
    requires at { cursor.at ≤ length (lexemes tokens.now) }
    ensures grows { Grows units.old units.new }
    ensures goes { IfOk result (λ next. Forth (lexemes tokens.now) cursor next) }
    ensures reads { (ds : phrases.Children) → Holds units.old into.old ds → Finds (parts.Formal (map (lexeme tokens.now.source) names.now) ds) (lexemes tokens.now) cursor units.new into.new result }
{
    if let Some((_, behind_in)) = accept(tokens, cursor, Class::Reserved(Reserved::In))? {
        if let Some((_, behind_also)) = accept(tokens, behind_in, Class::Reserved(Reserved::Out))? {
            let kind = DeclKind::Formal {
                is_in: true,
                is_out: true,
            };
            return formal_mark(alloc, units, tokens, behind_also, kind, names, into);
        }
        let kind = DeclKind::Formal {
            is_in: true,
            is_out: false,
        };
        return formal_mark(alloc, units, tokens, behind_in, kind, names, into);
    }
    if let Some((_, behind_keyword_2)) = accept(tokens, cursor, Class::Reserved(Reserved::Out))? {
        let kind = DeclKind::Formal {
            is_in: false,
            is_out: true,
        };
        return formal_mark(alloc, units, tokens, behind_keyword_2, kind, names, into);
    }
    let kind = DeclKind::Formal {
        is_in: false,
        is_out: false,
    };
    formal_mark(alloc, units, tokens, cursor, kind, names, into)
}

/// The mark of a formal, behind its mode.
fn formal_mark(
    alloc: Global,
    units: &mut Units,
    tokens: &Tokens,
    cursor: Cursor,
    kind: DeclKind,
    names: &Items<Token>,
    into: &mut Children,
) -> Result<Cursor, Fault>
    requires at { cursor.at ≤ length (lexemes tokens.now) }
    ensures grows { Grows units.old units.new }
    ensures goes { IfOk result (λ next. Forth (lexemes tokens.now) cursor next) }
    ensures reads { (ds : phrases.Children) → Holds units.old into.old ds → Finds (parts.FormalMark kind (map (lexeme tokens.now.source) names.now) ds) (lexemes tokens.now) cursor units.new into.new result }
{
    let mut own = Children::new(alloc);
    let behind_mark = unit_name(alloc, units, tokens, cursor, &mut own)?;
    declare_all(alloc, units, tokens, kind, names, own, into)?;
    Ok(behind_mark)
}

/// Local declarations, as many as stand there.
pub fn local_declarations(
    alloc: Global,
    units: &mut Units,
    tokens: &Tokens,
    cursor: Cursor,
    into: &mut Children,
) -> Result<Cursor, Fault>
    requires at { cursor.at ≤ length (lexemes tokens.now) }
    ensures grows { Grows units.old units.new }
    ensures goes { IfOk result (λ next. Forth (lexemes tokens.now) cursor next) }
    ensures reads { (ds : phrases.Children) → Holds units.old into.old ds → Finds (parts.LocalDeclarations ds) (lexemes tokens.now) cursor units.new into.new result }
{
    let mut next = cursor;
    while let Some((first, behind_first)) = accept(tokens, next, Class::LocalDeclaration)? {
        next = local_declaration(alloc, units, tokens, behind_first, first, into)?;
    }
    Ok(next)
}

/// A local declaration, behind its first token.
pub fn local_declaration(
    alloc: Global,
    units: &mut Units,
    tokens: &Tokens,
    cursor: Cursor,
    first: Token,
    into: &mut Children,
) -> Result<Cursor, Fault>
    requires at { cursor.at ≤ length (lexemes tokens.now) }
    ensures grows { Grows units.old units.new }
    ensures goes { IfOk result (λ next. Forth (lexemes tokens.now) cursor next) }
    ensures reads { (ds : phrases.Children) → Holds units.old into.old ds → Finds (parts.LocalDeclaration (local_form first.kind) (lexeme tokens.now.source first) ds) (lexemes tokens.now) cursor units.new into.new result }
{
    match local_form(first.kind) {
        LocalForm::Type => type_declaration(alloc, units, tokens, cursor, into),
        LocalForm::Subtype => subtype_declaration(alloc, units, tokens, cursor, into),
        LocalForm::Object => declared_names(
            alloc,
            units,
            tokens,
            cursor,
            Naming::Objects,
            first,
            into,
        ),
        LocalForm::Use => use_clause(alloc, units, tokens, cursor, first, into),
        LocalForm::Pragma => pragma(tokens, cursor),
    }
}

/// Names of units up to a semicolon, which are one declaration that stands at this place.
pub fn unit_names(
    alloc: Global,
    units: &mut Units,
    tokens: &Tokens,
    cursor: Cursor,
    kind: DeclKind,
    span: Span,
    into: &mut Children,
) -> Result<Cursor, Fault>
    requires at { cursor.at ≤ length (lexemes tokens.now) }
    ensures grows { Grows units.old units.new }
    ensures goes { IfOk result (λ next. Forth (lexemes tokens.now) cursor next) }
    ensures reads { (ds : phrases.Children) → Holds units.old into.old ds → Finds (parts.UnitNames kind span ds) (lexemes tokens.now) cursor units.new into.new result }
{
    let mut own = Children::new(alloc);
    let mut next = unit_name(alloc, units, tokens, cursor, &mut own)?;
    while let Some((_, behind_comma)) = accept(tokens, next, Class::Mark(Mark::Comma))? {
        next = unit_name(alloc, units, tokens, behind_comma, &mut own)?;
    }
    let (_, behind_end) = expect(tokens, next, Class::Mark(Mark::Semicolon))?;
    add_declaration(units, kind, span, own, into)?;
    Ok(behind_end)
}

/// The definition of a type, behind `is`.
fn type_definition(
    alloc: Global,
    units: &mut Units,
    tokens: &Tokens,
    cursor: Cursor,
    name: Token,
    into: &mut Children,
) -> Result<Cursor, Fault>
    requires at { cursor.at ≤ length (lexemes tokens.now) }
    ensures grows { Grows units.old units.new }
    ensures goes { IfOk result (λ next. Forth (lexemes tokens.now) cursor next) }
    ensures reads { (ds : phrases.Children) → Holds units.old into.old ds → Finds (parts.TypeDefinition (lexeme tokens.now.source name) ds) (lexemes tokens.now) cursor units.new into.new result }
{
    if let Some((_, behind_opening)) = accept(tokens, cursor, Class::Mark(Mark::Open))? {
        return literals(alloc, units, tokens, behind_opening, name, into);
    }
    if let Some((_, behind_keyword)) = accept(tokens, cursor, Class::Reserved(Reserved::Range))? {
        return range_type(alloc, units, tokens, behind_keyword, name, into);
    }
    if let Some((_, behind_keyword_2)) = accept(tokens, cursor, Class::Reserved(Reserved::Mod))? {
        let mut own = Children::new(alloc);
        let behind_value = expression(alloc, units, tokens, behind_keyword_2, &mut own)?;
        let names = only(alloc, name)?;
        let kind = DeclKind::ModularType;
        return closing(alloc, units, tokens, behind_value, kind, &names, own, into);
    }
    if let Some((_, behind_keyword_3)) = accept(tokens, cursor, Class::Reserved(Reserved::Array))? {
        return array_type(alloc, units, tokens, behind_keyword_3, name, into);
    }
    if let Some((_, behind_null)) = accept(tokens, cursor, Class::Reserved(Reserved::Null))? {
        let (_, behind_behind) = expect(tokens, behind_null, Class::Reserved(Reserved::Record))?;
        let own = Children::new(alloc);
        let names = only(alloc, name)?;
        let kind = DeclKind::NullRecordType;
        return closing(alloc, units, tokens, behind_behind, kind, &names, own, into);
    }
    if let Some((_, behind_private)) = accept(tokens, cursor, Class::Reserved(Reserved::Private))? {
        let own = Children::new(alloc);
        let names = only(alloc, name)?;
        let kind = DeclKind::PrivateType;
        return closing(
            alloc,
            units,
            tokens,
            behind_private,
            kind,
            &names,
            own,
            into,
        );
    }
    let (_, behind_keyword_6) = expect(tokens, cursor, Class::Reserved(Reserved::Record))?;
    components(alloc, units, tokens, behind_keyword_6, name, into)
}

/// A literal of an enumeration type.
fn literal(
    alloc: Global,
    units: &mut Units,
    tokens: &Tokens,
    name: Token,
    into: &mut Children,
) -> Result<(), NoMemory>
    ensures grows { Grows units.old units.new }
    ensures builds { IfOk result (λ _. (ds : phrases.Children) → Holds units.old into.old ds
        → Holds units.new into.new (phrases.declared DeclKind.EnumerationLiteral (lexeme tokens.now.source name) phrases.none ds)) }
{
    let kind = DeclKind::EnumerationLiteral;
    declare(alloc, units, tokens, kind, name, Children::new(alloc), into)?;
    Ok(())
}

/// The literals of an enumeration type, behind the parenthesis.
fn literals(
    alloc: Global,
    units: &mut Units,
    tokens: &Tokens,
    cursor: Cursor,
    name: Token,
    into: &mut Children,
) -> Result<Cursor, Fault>
    requires at { cursor.at ≤ length (lexemes tokens.now) }
    ensures grows { Grows units.old units.new }
    ensures goes { IfOk result (λ next. Forth (lexemes tokens.now) cursor next) }
    ensures reads { (ds : phrases.Children) → Holds units.old into.old ds → Finds (parts.Literals (lexeme tokens.now.source name) ds) (lexemes tokens.now) cursor units.new into.new result }
{
    let (first, behind_literal) = expect(tokens, cursor, Class::Word)?;
    let mut own = Children::new(alloc);
    literal(alloc, units, tokens, first, &mut own)?;
    let mut next = behind_literal;
    while let Some((_, behind_comma)) = accept(tokens, next, Class::Mark(Mark::Comma))? {
        let (further, behind_literal_2) = expect(tokens, behind_comma, Class::Word)?;
        literal(alloc, units, tokens, further, &mut own)?;
        next = behind_literal_2;
    }
    let (_, behind_end) = expect(tokens, next, Class::Mark(Mark::Close))?;
    let names = only(alloc, name)?;
    let kind = DeclKind::EnumerationType;
    closing(alloc, units, tokens, behind_end, kind, &names, own, into)
}

/// The bounds of an integer type.
fn range_type(
    alloc: Global,
    units: &mut Units,
    tokens: &Tokens,
    cursor: Cursor,
    name: Token,
    into: &mut Children,
) -> Result<Cursor, Fault>
    requires at { cursor.at ≤ length (lexemes tokens.now) }
    ensures grows { Grows units.old units.new }
    ensures goes { IfOk result (λ next. Forth (lexemes tokens.now) cursor next) }
    ensures reads { (ds : phrases.Children) → Holds units.old into.old ds → Finds (parts.RangeType (lexeme tokens.now.source name) ds) (lexemes tokens.now) cursor units.new into.new result }
{
    let mut own = Children::new(alloc);
    let behind_bound = simple_expression(alloc, units, tokens, cursor, &mut own)?;
    let (_, behind_dots) = expect(tokens, behind_bound, Class::Mark(Mark::Dots))?;
    let behind_bound_2 = simple_expression(alloc, units, tokens, behind_dots, &mut own)?;
    let names = only(alloc, name)?;
    closing(
        alloc,
        units,
        tokens,
        behind_bound_2,
        DeclKind::RangeType,
        &names,
        own,
        into,
    )
}

/// An array type, behind its word.
fn array_type(
    alloc: Global,
    units: &mut Units,
    tokens: &Tokens,
    cursor: Cursor,
    name: Token,
    into: &mut Children,
) -> Result<Cursor, Fault>
    requires at { cursor.at ≤ length (lexemes tokens.now) }
    ensures grows { Grows units.old units.new }
    ensures goes { IfOk result (λ next. Forth (lexemes tokens.now) cursor next) }
    ensures reads { (ds : phrases.Children) → Holds units.old into.old ds → Finds (parts.ArrayType (lexeme tokens.now.source name) ds) (lexemes tokens.now) cursor units.new into.new result }
{
    let (_, behind_opening) = expect(tokens, cursor, Class::Mark(Mark::Open))?;
    let mut own = Children::new(alloc);
    let behind_range = discrete_range(alloc, units, tokens, behind_opening, &mut own)?;
    let (_, behind_end) = expect(tokens, behind_range, Class::Mark(Mark::Close))?;
    let (_, behind_keyword) = expect(tokens, behind_end, Class::Reserved(Reserved::Of))?;
    let behind_mark = unit_name(alloc, units, tokens, behind_keyword, &mut own)?;
    let names = only(alloc, name)?;
    closing(
        alloc,
        units,
        tokens,
        behind_mark,
        DeclKind::ArrayType,
        &names,
        own,
        into,
    )
}

/// The components of a record type, behind its word.
fn components(
    alloc: Global,
    units: &mut Units,
    tokens: &Tokens,
    cursor: Cursor,
    name: Token,
    into: &mut Children,
) -> Result<Cursor, Fault>
    requires at { cursor.at ≤ length (lexemes tokens.now) }
    ensures grows { Grows units.old units.new }
    ensures goes { IfOk result (λ next. Forth (lexemes tokens.now) cursor next) }
    ensures reads { (ds : phrases.Children) → Holds units.old into.old ds → Finds (parts.Components (lexeme tokens.now.source name) ds) (lexemes tokens.now) cursor units.new into.new result }
{
    let (first, behind_first) = expect(tokens, cursor, Class::Word)?;
    let mut own = Children::new(alloc);
    let what = Naming::Components;
    let mut next = declared_names(alloc, units, tokens, behind_first, what, first, &mut own)?;
    while let Some((first, behind_first_2)) = accept(tokens, next, Class::Word)? {
        next = declared_names(alloc, units, tokens, behind_first_2, what, first, &mut own)?;
    }
    let (_, behind_end) = expect(tokens, next, Class::Reserved(Reserved::End))?;
    let (_, behind_record) = expect(tokens, behind_end, Class::Reserved(Reserved::Record))?;
    let names = only(alloc, name)?;
    let kind = DeclKind::RecordType;
    closing(alloc, units, tokens, behind_record, kind, &names, own, into)
}

/// A type, behind its word.
fn type_declaration(
    alloc: Global,
    units: &mut Units,
    tokens: &Tokens,
    cursor: Cursor,
    into: &mut Children,
) -> Result<Cursor, Fault>
    requires at { cursor.at ≤ length (lexemes tokens.now) }
    ensures grows { Grows units.old units.new }
    ensures goes { IfOk result (λ next. Forth (lexemes tokens.now) cursor next) }
    ensures reads { (first : Lexeme) (ds : phrases.Children) → Holds units.old into.old ds → Finds (parts.LocalDeclaration LocalForm.Type first ds) (lexemes tokens.now) cursor units.new into.new result }
{
    let (name, behind_name) = expect(tokens, cursor, Class::Word)?;
    let (_, behind_keyword) = expect(tokens, behind_name, Class::Reserved(Reserved::Is))?;
    type_definition(alloc, units, tokens, behind_keyword, name, into)
}

/// A subtype, behind its word.
fn subtype_declaration(
    alloc: Global,
    units: &mut Units,
    tokens: &Tokens,
    cursor: Cursor,
    into: &mut Children,
) -> Result<Cursor, Fault>
    requires at { cursor.at ≤ length (lexemes tokens.now) }
    ensures grows { Grows units.old units.new }
    ensures goes { IfOk result (λ next. Forth (lexemes tokens.now) cursor next) }
    ensures reads { (first : Lexeme) (ds : phrases.Children) → Holds units.old into.old ds → Finds (parts.LocalDeclaration LocalForm.Subtype first ds) (lexemes tokens.now) cursor units.new into.new result }
{
    let (name, behind_name) = expect(tokens, cursor, Class::Word)?;
    let (_, behind_keyword) = expect(tokens, behind_name, Class::Reserved(Reserved::Is))?;
    let mut own = Children::new(alloc);
    let behind_subtype = indication(alloc, units, tokens, behind_keyword, &mut own)?;
    let names = only(alloc, name)?;
    closing(
        alloc,
        units,
        tokens,
        behind_subtype,
        DeclKind::Subtype,
        &names,
        own,
        into,
    )
}

/// A use clause, behind its word.
fn use_clause(
    alloc: Global,
    units: &mut Units,
    tokens: &Tokens,
    cursor: Cursor,
    first: Token,
    into: &mut Children,
) -> Result<Cursor, Fault>
    requires at { cursor.at ≤ length (lexemes tokens.now) }
    ensures grows { Grows units.old units.new }
    ensures goes { IfOk result (λ next. Forth (lexemes tokens.now) cursor next) }
    ensures reads { (ds : phrases.Children) → Holds units.old into.old ds → Finds (parts.LocalDeclaration LocalForm.Use (lexeme tokens.now.source first) ds) (lexemes tokens.now) cursor units.new into.new result }
{
    if let Some((_, behind_keyword)) = accept(tokens, cursor, Class::Reserved(Reserved::Type))? {
        return unit_names(
            alloc,
            units,
            tokens,
            behind_keyword,
            DeclKind::Use { is_type: true },
            first.span,
            into,
        );
    }
    unit_names(
        alloc,
        units,
        tokens,
        cursor,
        DeclKind::Use { is_type: false },
        first.span,
        into,
    )
}
