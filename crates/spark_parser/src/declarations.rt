ghost use Rattle.std.specs.Prelude.{◌≡◌, ◌≤◌, [], ◌∷◌, true, false, length, IfOk};
ghost use Rattle.ada_grammar.specs.Parts as parts;
ghost use Rattle.ada_grammar.specs.Lexemes.{lexeme, lexemes};
ghost use Rattle.ada_grammar.specs.Phrases as phrases;
ghost use Rattle.ada_grammar.specs.Standing.{Finds, Forth, Grows, Holds};
ghost use Rattle.ada_tree.specs.Forms.{declaration_form, local_form, operation_form};

use ada_aspects::readers::{behind_with, optional_aspects, pragma};
use ada_exprs::parts::{expression, unit_name};
use ada_grammar::{
    Children, Class, Cursor, Fault, accept, add_declaration, add_end_name, declare, expect,
};
use ada_stmts::declarations::{closing, declared_names, local_declaration, only};
use ada_stmts::statements::body;
use ada_tree::{
    DeclKind, DeclarationForm, Head, Mark, Naming, OperationForm, Region, Reserved, Token, Tokens,
    Units, declaration_form, declared_end, operation_form,
};
use std::alloc::Global;

/// The end name, if any, and the semicolon of a declaration over these children.
fn end_of_declaration(
    alloc: Global,
    units: &mut Units,
    tokens: &Tokens,
    cursor: Cursor,
    kind: DeclKind,
    name: Token,
    mut own: Children,
    into: &mut Children,
) -> Result<Cursor, Fault>
    requires at { cursor.at ≤ length (lexemes tokens.now) }
    ensures grows { Grows units.old units.new }
    ensures goes { IfOk result (λ next. Forth (lexemes tokens.now) cursor next) }
    ensures reads { (os ds : phrases.Children) → Holds units.old own os → Holds units.old into.old ds → Finds (parts.EndOfDeclaration kind (lexeme tokens.now.source name) os ds) (lexemes tokens.now) cursor units.new into.new result }
{
    if let Some((last, behind_last)) = accept(tokens, cursor, Class::Word)? {
        let (_, behind_end) = expect(tokens, behind_last, Class::Mark(Mark::Semicolon))?;
        add_end_name(alloc, units, tokens, last, &mut own)?;
        let kind = declared_end(kind);
        declare(alloc, units, tokens, kind, name, own, into)?;
        return Ok(behind_end);
    }
    let (_, behind_end_2) = expect(tokens, cursor, Class::Mark(Mark::Semicolon))?;
    declare(alloc, units, tokens, kind, name, own, into)?;
    Ok(behind_end_2)
}

/// The formals of a subprogram or an entry, behind the parenthesis.
fn formals(
    alloc: Global,
    units: &mut Units,
    tokens: &Tokens,
    cursor: Cursor,
    into: &mut Children,
) -> Result<Cursor, Fault>
    requires at { cursor.at ≤ length (lexemes tokens.now) }
    ensures grows { Grows units.old units.new }
    ensures goes { IfOk result (λ next. Forth (lexemes tokens.now) cursor next) }
    ensures reads { (ds : phrases.Children) → Holds units.old into.old ds → Finds (parts.Formals ds) (lexemes tokens.now) cursor units.new into.new result }
{
    let (first, behind_first) = expect(tokens, cursor, Class::Word)?;
    let mut next = declared_names(
        alloc,
        units,
        tokens,
        behind_first,
        Naming::Formals,
        first,
        into,
    )?;
    while let Some((_, behind_semicolon)) = accept(tokens, next, Class::Mark(Mark::Semicolon))? {
        let (first, behind_first_2) = expect(tokens, behind_semicolon, Class::Word)?;
        next = declared_names(
            alloc,
            units,
            tokens,
            behind_first_2,
            Naming::Formals,
            first,
            into,
        )?;
    }
    let (_, behind_end) = expect(tokens, next, Class::Mark(Mark::Close))?;
    Ok(behind_end)
}

/// A procedure, behind its word.
fn procedure(
    alloc: Global,
    units: &mut Units,
    tokens: &Tokens,
    cursor: Cursor,
    region: Region,
    into: &mut Children,
) -> Result<Cursor, Fault>
    requires at { cursor.at ≤ length (lexemes tokens.now) }
    ensures grows { Grows units.old units.new }
    ensures goes { IfOk result (λ next. Forth (lexemes tokens.now) cursor next) }
    ensures reads { (ds : phrases.Children) → Holds units.old into.old ds → Finds (parts.Procedure region ds) (lexemes tokens.now) cursor units.new into.new result }
{
    let (name, behind) = expect(tokens, cursor, Class::Word)?;
    let mut own = Children::new(alloc);
    if let Some((_, behind_opening)) = accept(tokens, behind, Class::Mark(Mark::Open))? {
        let next = formals(alloc, units, tokens, behind_opening, &mut own)?;
        let head = Head::Procedure { has_formals: true };
        return behind_head(alloc, units, tokens, next, region, head, name, own, into);
    }
    let head = Head::Procedure { has_formals: false };
    behind_head(alloc, units, tokens, behind, region, head, name, own, into)
}

/// A function, behind its word.
fn function(
    alloc: Global,
    units: &mut Units,
    tokens: &Tokens,
    cursor: Cursor,
    region: Region,
    into: &mut Children,
) -> Result<Cursor, Fault>
    requires at { cursor.at ≤ length (lexemes tokens.now) }
    ensures grows { Grows units.old units.new }
    ensures goes { IfOk result (λ next. Forth (lexemes tokens.now) cursor next) }
    ensures reads { (ds : phrases.Children) → Holds units.old into.old ds → Finds (parts.Function region ds) (lexemes tokens.now) cursor units.new into.new result }
{
    let (name, behind) = expect(tokens, cursor, Class::Word)?;
    let mut own = Children::new(alloc);
    if let Some((_, behind_opening)) = accept(tokens, behind, Class::Mark(Mark::Open))? {
        let next = formals(alloc, units, tokens, behind_opening, &mut own)?;
        let head = Head::Function { has_formals: true };
        return function_result(alloc, units, tokens, next, region, head, name, own, into);
    }
    let head = Head::Function { has_formals: false };
    function_result(alloc, units, tokens, behind, region, head, name, own, into)
}

/// The mark of a function's result.
fn function_result(
    alloc: Global,
    units: &mut Units,
    tokens: &Tokens,
    cursor: Cursor,
    region: Region,
    head: Head,
    name: Token,
    mut own: Children,
    into: &mut Children,
) -> Result<Cursor, Fault>
    requires at { cursor.at ≤ length (lexemes tokens.now) }
    ensures grows { Grows units.old units.new }
    ensures goes { IfOk result (λ next. Forth (lexemes tokens.now) cursor next) }
    ensures reads { (os ds : phrases.Children) → Holds units.old own os → Holds units.old into.old ds → Finds (parts.FunctionResult region head (lexeme tokens.now.source name) os ds) (lexemes tokens.now) cursor units.new into.new result }
{
    let (_, behind_keyword) = expect(tokens, cursor, Class::Reserved(Reserved::Return))?;
    let behind_mark = unit_name(alloc, units, tokens, behind_keyword, &mut own)?;
    behind_head(
        alloc,
        units,
        tokens,
        behind_mark,
        region,
        head,
        name,
        own,
        into,
    )
}

/// What follows the head of a subprogram.
fn behind_head(
    alloc: Global,
    units: &mut Units,
    tokens: &Tokens,
    cursor: Cursor,
    region: Region,
    head: Head,
    name: Token,
    own: Children,
    into: &mut Children,
) -> Result<Cursor, Fault>
    requires at { cursor.at ≤ length (lexemes tokens.now) }
    ensures grows { Grows units.old units.new }
    ensures goes { IfOk result (λ next. Forth (lexemes tokens.now) cursor next) }
    ensures reads { (os ds : phrases.Children) → Holds units.old own os → Holds units.old into.old ds → Finds (parts.BehindHead region head (lexeme tokens.now.source name) os ds) (lexemes tokens.now) cursor units.new into.new result }
{
    match region {
        Region::Spec => head_in_spec(alloc, units, tokens, cursor, head, name, own, into),
        Region::Body => head_in_body(alloc, units, tokens, cursor, head, name, own, into),
        Region::Protected => head_in_protected(alloc, units, tokens, cursor, head, name, own, into),
        Region::ProtectedBody => head_in_protected_body(
            alloc, units, tokens, cursor, head, name, own, into,
        ),
    }
}

/// A null procedure or an expression function, behind `is`.
fn null_or_value(
    alloc: Global,
    units: &mut Units,
    tokens: &Tokens,
    cursor: Cursor,
    head: Head,
    name: Token,
    own: Children,
    into: &mut Children,
) -> Result<Cursor, Fault>
    requires at { cursor.at ≤ length (lexemes tokens.now) }
    ensures grows { Grows units.old units.new }
    ensures goes { IfOk result (λ next. Forth (lexemes tokens.now) cursor next) }
    ensures reads { (os ds : phrases.Children) → Holds units.old own os → Holds units.old into.old ds → Finds (parts.NullOrValue head (lexeme tokens.now.source name) os ds) (lexemes tokens.now) cursor units.new into.new result }
{
    if let Some((_, behind_keyword)) = accept(tokens, cursor, Class::Reserved(Reserved::Null))? {
        let names = only(alloc, name)?;
        return closing(
            alloc,
            units,
            tokens,
            behind_keyword,
            DeclKind::SubprogramDeclaration {
                head,
                is_null: true,
            },
            &names,
            own,
            into,
        );
    }
    let (_, behind_opening) = expect(tokens, cursor, Class::Mark(Mark::Open))?;
    value(alloc, units, tokens, behind_opening, head, name, own, into)
}

/// A null procedure, an expression function or a body, behind `is`.
fn any_completion(
    alloc: Global,
    units: &mut Units,
    tokens: &Tokens,
    cursor: Cursor,
    head: Head,
    name: Token,
    own: Children,
    into: &mut Children,
) -> Result<Cursor, Fault>
    requires at { cursor.at ≤ length (lexemes tokens.now) }
    ensures grows { Grows units.old units.new }
    ensures goes { IfOk result (λ next. Forth (lexemes tokens.now) cursor next) }
    ensures reads { (os ds : phrases.Children) → Holds units.old own os → Holds units.old into.old ds → Finds (parts.AnyCompletion head (lexeme tokens.now.source name) os ds) (lexemes tokens.now) cursor units.new into.new result }
{
    if let Some((_, behind_keyword)) = accept(tokens, cursor, Class::Reserved(Reserved::Null))? {
        let names = only(alloc, name)?;
        return closing(
            alloc,
            units,
            tokens,
            behind_keyword,
            DeclKind::SubprogramDeclaration {
                head,
                is_null: true,
            },
            &names,
            own,
            into,
        );
    }
    value_or_body(alloc, units, tokens, cursor, head, name, own, into)
}

/// An expression function or a body, behind `is`.
fn value_or_body(
    alloc: Global,
    units: &mut Units,
    tokens: &Tokens,
    cursor: Cursor,
    head: Head,
    name: Token,
    own: Children,
    into: &mut Children,
) -> Result<Cursor, Fault>
    requires at { cursor.at ≤ length (lexemes tokens.now) }
    ensures grows { Grows units.old units.new }
    ensures goes { IfOk result (λ next. Forth (lexemes tokens.now) cursor next) }
    ensures reads { (os ds : phrases.Children) → Holds units.old own os → Holds units.old into.old ds → Finds (parts.ValueOrBody head (lexeme tokens.now.source name) os ds) (lexemes tokens.now) cursor units.new into.new result }
{
    if let Some((_, behind_opening)) = accept(tokens, cursor, Class::Mark(Mark::Open))? {
        return value(alloc, units, tokens, behind_opening, head, name, own, into);
    }
    subprogram_body(alloc, units, tokens, cursor, head, name, own, into)
}

/// The value of an expression function, behind its parenthesis.
fn value(
    alloc: Global,
    units: &mut Units,
    tokens: &Tokens,
    cursor: Cursor,
    head: Head,
    name: Token,
    mut own: Children,
    into: &mut Children,
) -> Result<Cursor, Fault>
    requires at { cursor.at ≤ length (lexemes tokens.now) }
    ensures grows { Grows units.old units.new }
    ensures goes { IfOk result (λ next. Forth (lexemes tokens.now) cursor next) }
    ensures reads { (os ds : phrases.Children) → Holds units.old own os → Holds units.old into.old ds → Finds (parts.Value head (lexeme tokens.now.source name) os ds) (lexemes tokens.now) cursor units.new into.new result }
{
    let behind_value = expression(alloc, units, tokens, cursor, &mut own)?;
    let (_, behind_end) = expect(tokens, behind_value, Class::Mark(Mark::Close))?;
    let names = only(alloc, name)?;
    closing(
        alloc,
        units,
        tokens,
        behind_end,
        DeclKind::ExpressionFunction { head },
        &names,
        own,
        into,
    )
}

/// The body of a subprogram, behind `is`.
fn subprogram_body(
    alloc: Global,
    units: &mut Units,
    tokens: &Tokens,
    cursor: Cursor,
    head: Head,
    name: Token,
    mut own: Children,
    into: &mut Children,
) -> Result<Cursor, Fault>
    requires at { cursor.at ≤ length (lexemes tokens.now) }
    ensures grows { Grows units.old units.new }
    ensures goes { IfOk result (λ next. Forth (lexemes tokens.now) cursor next) }
    ensures reads { (os ds : phrases.Children) → Holds units.old own os → Holds units.old into.old ds → Finds (parts.SubprogramBody head (lexeme tokens.now.source name) os ds) (lexemes tokens.now) cursor units.new into.new result }
{
    let behind_body = body(alloc, units, tokens, cursor, &mut own)?;
    end_of_declaration(
        alloc,
        units,
        tokens,
        behind_body,
        DeclKind::SubprogramBody {
            head,
            has_end_name: false,
        },
        name,
        own,
        into,
    )
}

/// A task, behind its word.
fn task(
    alloc: Global,
    units: &mut Units,
    tokens: &Tokens,
    cursor: Cursor,
    into: &mut Children,
) -> Result<Cursor, Fault>
    requires at { cursor.at ≤ length (lexemes tokens.now) }
    ensures grows { Grows units.old units.new }
    ensures goes { IfOk result (λ next. Forth (lexemes tokens.now) cursor next) }
    ensures reads { (ds : phrases.Children) → Holds units.old into.old ds → Finds (parts.Task ds) (lexemes tokens.now) cursor units.new into.new result }
{
    if let Some((_, behind_keyword)) = accept(tokens, cursor, Class::Reserved(Reserved::Type))? {
        return task_named(alloc, units, tokens, behind_keyword, true, into);
    }
    task_named(alloc, units, tokens, cursor, false, into)
}

/// A task, behind its words.
fn task_named(
    alloc: Global,
    units: &mut Units,
    tokens: &Tokens,
    cursor: Cursor,
    is_type: bool,
    into: &mut Children,
) -> Result<Cursor, Fault>
    requires at { cursor.at ≤ length (lexemes tokens.now) }
    ensures grows { Grows units.old units.new }
    ensures goes { IfOk result (λ next. Forth (lexemes tokens.now) cursor next) }
    ensures reads { (ds : phrases.Children) → Holds units.old into.old ds → Finds (parts.TaskNamed is_type ds) (lexemes tokens.now) cursor units.new into.new result }
{
    let (name, behind_name) = expect(tokens, cursor, Class::Word)?;
    let mut own = Children::new(alloc);
    let behind_aspects = optional_aspects(alloc, units, tokens, behind_name, &mut own)?;
    if let Some((_, behind_keyword)) = accept(
        tokens,
        behind_aspects,
        Class::Reserved(Reserved::Is),
    )? {
        let kind = DeclKind::Task {
            is_type,
            has_definition: true,
            has_end_name: false,
        };
        return task_definition(alloc, units, tokens, behind_keyword, kind, name, own, into);
    }
    let (_, behind_end) = expect(tokens, behind_aspects, Class::Mark(Mark::Semicolon))?;
    let kind = DeclKind::Task {
        is_type,
        has_definition: false,
        has_end_name: false,
    };
    declare(alloc, units, tokens, kind, name, own, into)?;
    Ok(behind_end)
}

/// The definition of a task, behind `is`.
fn task_definition(
    alloc: Global,
    units: &mut Units,
    tokens: &Tokens,
    cursor: Cursor,
    kind: DeclKind,
    name: Token,
    own: Children,
    into: &mut Children,
) -> Result<Cursor, Fault>
    requires at { cursor.at ≤ length (lexemes tokens.now) }
    ensures grows { Grows units.old units.new }
    ensures goes { IfOk result (λ next. Forth (lexemes tokens.now) cursor next) }
    ensures reads { (os ds : phrases.Children) → Holds units.old own os → Holds units.old into.old ds → Finds (parts.TaskDefinition kind (lexeme tokens.now.source name) os ds) (lexemes tokens.now) cursor units.new into.new result }
{
    let mut next = cursor;
    while let Some((_, behind_keyword)) = accept(tokens, next, Class::Reserved(Reserved::Pragma))? {
        let behind_pragma = pragma(tokens, behind_keyword)?;
        next = behind_pragma;
    }
    let (_, behind_end) = expect(tokens, next, Class::Reserved(Reserved::End))?;
    end_of_declaration(alloc, units, tokens, behind_end, kind, name, own, into)
}

/// A task or its body, behind the word task.
fn task_in_body(
    alloc: Global,
    units: &mut Units,
    tokens: &Tokens,
    cursor: Cursor,
    into: &mut Children,
) -> Result<Cursor, Fault>
    requires at { cursor.at ≤ length (lexemes tokens.now) }
    ensures grows { Grows units.old units.new }
    ensures goes { IfOk result (λ next. Forth (lexemes tokens.now) cursor next) }
    ensures reads { (ds : phrases.Children) → Holds units.old into.old ds → Finds (parts.TaskInBody ds) (lexemes tokens.now) cursor units.new into.new result }
{
    if let Some((_, behind_keyword)) = accept(tokens, cursor, Class::Reserved(Reserved::Body))? {
        return task_body(alloc, units, tokens, behind_keyword, into);
    }
    task(alloc, units, tokens, cursor, into)
}

/// The body of a task, behind its words.
fn task_body(
    alloc: Global,
    units: &mut Units,
    tokens: &Tokens,
    cursor: Cursor,
    into: &mut Children,
) -> Result<Cursor, Fault>
    requires at { cursor.at ≤ length (lexemes tokens.now) }
    ensures grows { Grows units.old units.new }
    ensures goes { IfOk result (λ next. Forth (lexemes tokens.now) cursor next) }
    ensures reads { (ds : phrases.Children) → Holds units.old into.old ds → Finds (parts.TaskBody ds) (lexemes tokens.now) cursor units.new into.new result }
{
    let (name, behind_name) = expect(tokens, cursor, Class::Word)?;
    let mut own = Children::new(alloc);
    let behind_aspects = optional_aspects(alloc, units, tokens, behind_name, &mut own)?;
    let (_, behind_keyword) = expect(tokens, behind_aspects, Class::Reserved(Reserved::Is))?;
    let behind_body = body(alloc, units, tokens, behind_keyword, &mut own)?;
    end_of_declaration(
        alloc,
        units,
        tokens,
        behind_body,
        DeclKind::TaskBody {
            has_end_name: false,
        },
        name,
        own,
        into,
    )
}

/// A protected unit, behind its word.
fn protected(
    alloc: Global,
    units: &mut Units,
    tokens: &Tokens,
    cursor: Cursor,
    into: &mut Children,
) -> Result<Cursor, Fault>
    requires at { cursor.at ≤ length (lexemes tokens.now) }
    ensures grows { Grows units.old units.new }
    ensures goes { IfOk result (λ next. Forth (lexemes tokens.now) cursor next) }
    ensures reads { (ds : phrases.Children) → Holds units.old into.old ds → Finds (parts.Protected ds) (lexemes tokens.now) cursor units.new into.new result }
{
    if let Some((_, behind_keyword)) = accept(tokens, cursor, Class::Reserved(Reserved::Type))? {
        return protected_named(alloc, units, tokens, behind_keyword, true, into);
    }
    protected_named(alloc, units, tokens, cursor, false, into)
}

/// A protected unit, behind its words.
fn protected_named(
    alloc: Global,
    units: &mut Units,
    tokens: &Tokens,
    cursor: Cursor,
    is_type: bool,
    into: &mut Children,
) -> Result<Cursor, Fault>
    requires at { cursor.at ≤ length (lexemes tokens.now) }
    ensures grows { Grows units.old units.new }
    ensures goes { IfOk result (λ next. Forth (lexemes tokens.now) cursor next) }
    ensures reads { (ds : phrases.Children) → Holds units.old into.old ds → Finds (parts.ProtectedNamed is_type ds) (lexemes tokens.now) cursor units.new into.new result }
{
    let (name, behind_name) = expect(tokens, cursor, Class::Word)?;
    let mut own = Children::new(alloc);
    let behind_aspects = optional_aspects(alloc, units, tokens, behind_name, &mut own)?;
    let (_, behind_keyword) = expect(tokens, behind_aspects, Class::Reserved(Reserved::Is))?;
    let next = operations(alloc, units, tokens, behind_keyword, &mut own)?;
    if let Some((private, inside)) = accept(tokens, next, Class::Reserved(Reserved::Private))? {
        let mut hidden = Children::new(alloc);
        let behind_items = private_items(alloc, units, tokens, inside, &mut hidden)?;
        add_declaration(units, DeclKind::PrivatePart, private.span, hidden, &mut own)?;
        let (_, behind_end) = expect(tokens, behind_items, Class::Reserved(Reserved::End))?;
        let kind = DeclKind::Protected {
            is_type,
            has_private_part: true,
            has_end_name: false,
        };
        return end_of_declaration(alloc, units, tokens, behind_end, kind, name, own, into);
    }
    let (_, behind_end_2) = expect(tokens, next, Class::Reserved(Reserved::End))?;
    let kind = DeclKind::Protected {
        is_type,
        has_private_part: false,
        has_end_name: false,
    };
    end_of_declaration(alloc, units, tokens, behind_end_2, kind, name, own, into)
}

/// The operations of a protected unit.
fn operations(
    alloc: Global,
    units: &mut Units,
    tokens: &Tokens,
    cursor: Cursor,
    into: &mut Children,
) -> Result<Cursor, Fault>
    requires at { cursor.at ≤ length (lexemes tokens.now) }
    ensures grows { Grows units.old units.new }
    ensures goes { IfOk result (λ next. Forth (lexemes tokens.now) cursor next) }
    ensures reads { (ds : phrases.Children) → Holds units.old into.old ds → Finds (parts.Operations ds) (lexemes tokens.now) cursor units.new into.new result }
{
    let mut next = cursor;
    while let Some((first, behind_first)) = accept(tokens, next, Class::Operation)? {
        next = operation(alloc, units, tokens, behind_first, first, into)?;
    }
    Ok(next)
}

/// What stands in the private part of a protected unit.
fn private_items(
    alloc: Global,
    units: &mut Units,
    tokens: &Tokens,
    cursor: Cursor,
    into: &mut Children,
) -> Result<Cursor, Fault>
    requires at { cursor.at ≤ length (lexemes tokens.now) }
    ensures grows { Grows units.old units.new }
    ensures goes { IfOk result (λ next. Forth (lexemes tokens.now) cursor next) }
    ensures reads { (ds : phrases.Children) → Holds units.old into.old ds → Finds (parts.PrivateItems ds) (lexemes tokens.now) cursor units.new into.new result }
{
    let mut next = cursor;
    while let Some((first, behind_first)) = accept(tokens, next, Class::PrivateItem)? {
        next = operation(alloc, units, tokens, behind_first, first, into)?;
    }
    Ok(next)
}

/// An operation, a component or a pragma of a protected unit, behind its first token.
fn operation(
    alloc: Global,
    units: &mut Units,
    tokens: &Tokens,
    cursor: Cursor,
    first: Token,
    into: &mut Children,
) -> Result<Cursor, Fault>
    requires at { cursor.at ≤ length (lexemes tokens.now) }
    ensures grows { Grows units.old units.new }
    ensures goes { IfOk result (λ next. Forth (lexemes tokens.now) cursor next) }
    ensures reads { (ds : phrases.Children) → Holds units.old into.old ds → Finds (parts.Operation (operation_form first.kind) (lexeme tokens.now.source first) ds) (lexemes tokens.now) cursor units.new into.new result }
{
    match operation_form(first.kind) {
        OperationForm::Procedure => procedure(
            alloc,
            units,
            tokens,
            cursor,
            Region::Protected,
            into,
        ),
        OperationForm::Function => function(alloc, units, tokens, cursor, Region::Protected, into),
        OperationForm::Entry => entry(alloc, units, tokens, cursor, into),
        OperationForm::Pragma => pragma(tokens, cursor),
        OperationForm::Component => declared_names(
            alloc,
            units,
            tokens,
            cursor,
            Naming::Components,
            first,
            into,
        ),
    }
}

/// An entry, behind its word.
fn entry(
    alloc: Global,
    units: &mut Units,
    tokens: &Tokens,
    cursor: Cursor,
    into: &mut Children,
) -> Result<Cursor, Fault>
    requires at { cursor.at ≤ length (lexemes tokens.now) }
    ensures grows { Grows units.old units.new }
    ensures goes { IfOk result (λ next. Forth (lexemes tokens.now) cursor next) }
    ensures reads { (ds : phrases.Children) → Holds units.old into.old ds → Finds (parts.Entry ds) (lexemes tokens.now) cursor units.new into.new result }
{
    let (name, behind_name) = expect(tokens, cursor, Class::Word)?;
    let mut own = Children::new(alloc);
    if let Some((_, behind_opening)) = accept(tokens, behind_name, Class::Mark(Mark::Open))? {
        let behind_formals = formals(alloc, units, tokens, behind_opening, &mut own)?;
        let names = only(alloc, name)?;
        return closing(
            alloc,
            units,
            tokens,
            behind_formals,
            DeclKind::Entry { has_formals: true },
            &names,
            own,
            into,
        );
    }
    let names = only(alloc, name)?;
    closing(
        alloc,
        units,
        tokens,
        behind_name,
        DeclKind::Entry { has_formals: false },
        &names,
        own,
        into,
    )
}

/// A protected unit or its body, behind the word protected.
fn protected_in_body(
    alloc: Global,
    units: &mut Units,
    tokens: &Tokens,
    cursor: Cursor,
    into: &mut Children,
) -> Result<Cursor, Fault>
    requires at { cursor.at ≤ length (lexemes tokens.now) }
    ensures grows { Grows units.old units.new }
    ensures goes { IfOk result (λ next. Forth (lexemes tokens.now) cursor next) }
    ensures reads { (ds : phrases.Children) → Holds units.old into.old ds → Finds (parts.ProtectedInBody ds) (lexemes tokens.now) cursor units.new into.new result }
{
    if let Some((_, behind_keyword)) = accept(tokens, cursor, Class::Reserved(Reserved::Body))? {
        return protected_body(alloc, units, tokens, behind_keyword, into);
    }
    protected(alloc, units, tokens, cursor, into)
}

/// The body of a protected unit, behind its words.
fn protected_body(
    alloc: Global,
    units: &mut Units,
    tokens: &Tokens,
    cursor: Cursor,
    into: &mut Children,
) -> Result<Cursor, Fault>
    requires at { cursor.at ≤ length (lexemes tokens.now) }
    ensures grows { Grows units.old units.new }
    ensures goes { IfOk result (λ next. Forth (lexemes tokens.now) cursor next) }
    ensures reads { (ds : phrases.Children) → Holds units.old into.old ds → Finds (parts.ProtectedBody ds) (lexemes tokens.now) cursor units.new into.new result }
{
    let (name, behind_name) = expect(tokens, cursor, Class::Word)?;
    let mut own = Children::new(alloc);
    let behind_aspects = optional_aspects(alloc, units, tokens, behind_name, &mut own)?;
    let (_, behind_keyword) = expect(tokens, behind_aspects, Class::Reserved(Reserved::Is))?;
    let behind_bodies = operation_bodies(alloc, units, tokens, behind_keyword, &mut own)?;
    let (_, behind_end) = expect(tokens, behind_bodies, Class::Reserved(Reserved::End))?;
    end_of_declaration(
        alloc,
        units,
        tokens,
        behind_end,
        DeclKind::ProtectedBody {
            has_end_name: false,
        },
        name,
        own,
        into,
    )
}

/// The bodies of operations.
fn operation_bodies(
    alloc: Global,
    units: &mut Units,
    tokens: &Tokens,
    cursor: Cursor,
    into: &mut Children,
) -> Result<Cursor, Fault>
    requires at { cursor.at ≤ length (lexemes tokens.now) }
    ensures grows { Grows units.old units.new }
    ensures goes { IfOk result (λ next. Forth (lexemes tokens.now) cursor next) }
    ensures reads { (ds : phrases.Children) → Holds units.old into.old ds → Finds (parts.OperationBodies ds) (lexemes tokens.now) cursor units.new into.new result }
{
    let mut next = cursor;
    while let Some((first, behind_first)) = accept(tokens, next, Class::OperationBody)? {
        next = operation_body(alloc, units, tokens, behind_first, first, into)?;
    }
    Ok(next)
}

/// The body of an operation, behind its first token. A token of another form begins no body, and does not come here.
fn operation_body(
    alloc: Global,
    units: &mut Units,
    tokens: &Tokens,
    cursor: Cursor,
    first: Token,
    into: &mut Children,
) -> Result<Cursor, Fault>
    requires at { cursor.at ≤ length (lexemes tokens.now) }
    ensures grows { Grows units.old units.new }
    ensures goes { IfOk result (λ next. Forth (lexemes tokens.now) cursor next) }
    ensures reads { (ds : phrases.Children) → Holds units.old into.old ds → Finds (parts.OperationBody (operation_form first.kind) ds) (lexemes tokens.now) cursor units.new into.new result }
{
    let region = Region::ProtectedBody;
    match operation_form(first.kind) {
        OperationForm::Function => function(alloc, units, tokens, cursor, region, into),
        OperationForm::Entry => entry_body(alloc, units, tokens, cursor, into),
        OperationForm::Procedure => procedure(alloc, units, tokens, cursor, region, into),
        OperationForm::Pragma => procedure(alloc, units, tokens, cursor, region, into),
        OperationForm::Component => procedure(alloc, units, tokens, cursor, region, into),
    }
}

/// The body of an entry, behind its word.
fn entry_body(
    alloc: Global,
    units: &mut Units,
    tokens: &Tokens,
    cursor: Cursor,
    into: &mut Children,
) -> Result<Cursor, Fault>
    requires at { cursor.at ≤ length (lexemes tokens.now) }
    ensures grows { Grows units.old units.new }
    ensures goes { IfOk result (λ next. Forth (lexemes tokens.now) cursor next) }
    ensures reads { (ds : phrases.Children) → Holds units.old into.old ds → Finds (parts.EntryBody ds) (lexemes tokens.now) cursor units.new into.new result }
{
    let (name, behind_name) = expect(tokens, cursor, Class::Word)?;
    let mut own = Children::new(alloc);
    if let Some((_, behind_opening)) = accept(tokens, behind_name, Class::Mark(Mark::Open))? {
        let behind_formals = formals(alloc, units, tokens, behind_opening, &mut own)?;
        return barrier(alloc, units, tokens, behind_formals, true, name, own, into);
    }
    barrier(alloc, units, tokens, behind_name, false, name, own, into)
}

/// The barrier and the body of an entry.
fn barrier(
    alloc: Global,
    units: &mut Units,
    tokens: &Tokens,
    cursor: Cursor,
    has_formals: bool,
    name: Token,
    mut own: Children,
    into: &mut Children,
) -> Result<Cursor, Fault>
    requires at { cursor.at ≤ length (lexemes tokens.now) }
    ensures grows { Grows units.old units.new }
    ensures goes { IfOk result (λ next. Forth (lexemes tokens.now) cursor next) }
    ensures reads { (os ds : phrases.Children) → Holds units.old own os → Holds units.old into.old ds → Finds (parts.Barrier has_formals (lexeme tokens.now.source name) os ds) (lexemes tokens.now) cursor units.new into.new result }
{
    let (_, behind_keyword) = expect(tokens, cursor, Class::Reserved(Reserved::When))?;
    let behind_value = expression(alloc, units, tokens, behind_keyword, &mut own)?;
    let (_, behind_is) = expect(tokens, behind_value, Class::Reserved(Reserved::Is))?;
    let behind_body = body(alloc, units, tokens, behind_is, &mut own)?;
    end_of_declaration(
        alloc,
        units,
        tokens,
        behind_body,
        DeclKind::EntryBody {
            has_formals,
            has_end_name: false,
        },
        name,
        own,
        into,
    )
}

/// Declarations of a package, as many as stand there.
pub fn declarations(
    alloc: Global,
    units: &mut Units,
    tokens: &Tokens,
    cursor: Cursor,
    region: Region,
    into: &mut Children,
) -> Result<Cursor, Fault>
    requires at { cursor.at ≤ length (lexemes tokens.now) }
    ensures grows { Grows units.old units.new }
    ensures goes { IfOk result (λ next. Forth (lexemes tokens.now) cursor next) }
    ensures reads { (ds : phrases.Children) → Holds units.old into.old ds → Finds (parts.Declarations region ds) (lexemes tokens.now) cursor units.new into.new result }
{
    let mut next = cursor;
    while let Some((first, behind_first)) = accept(tokens, next, Class::Declaration)? {
        next = declaration(alloc, units, tokens, behind_first, region, first, into)?;
    }
    Ok(next)
}

/// A declaration of a package, behind its first token.
fn declaration(
    alloc: Global,
    units: &mut Units,
    tokens: &Tokens,
    cursor: Cursor,
    region: Region,
    first: Token,
    into: &mut Children,
) -> Result<Cursor, Fault>
    requires at { cursor.at ≤ length (lexemes tokens.now) }
    ensures grows { Grows units.old units.new }
    ensures goes { IfOk result (λ next. Forth (lexemes tokens.now) cursor next) }
    ensures reads { (ds : phrases.Children) → Holds units.old into.old ds → Finds (parts.Declaration region (declaration_form first.kind) (lexeme tokens.now.source first) ds) (lexemes tokens.now) cursor units.new into.new result }
{
    match declaration_form(first.kind) {
        DeclarationForm::Procedure => procedure(alloc, units, tokens, cursor, region, into),
        DeclarationForm::Function => function(alloc, units, tokens, cursor, region, into),
        DeclarationForm::Task => task_in(alloc, units, tokens, cursor, region, into),
        DeclarationForm::Protected => protected_in(alloc, units, tokens, cursor, region, into),
        DeclarationForm::Local => local_declaration(alloc, units, tokens, cursor, first, into),
    }
}

/// A task, or in a body also a task's body, behind the word task.
fn task_in(
    alloc: Global,
    units: &mut Units,
    tokens: &Tokens,
    cursor: Cursor,
    region: Region,
    into: &mut Children,
) -> Result<Cursor, Fault>
    requires at { cursor.at ≤ length (lexemes tokens.now) }
    ensures grows { Grows units.old units.new }
    ensures goes { IfOk result (λ next. Forth (lexemes tokens.now) cursor next) }
    ensures reads { (ds : phrases.Children) → Holds units.old into.old ds → Finds (parts.TaskIn region ds) (lexemes tokens.now) cursor units.new into.new result }
{
    match region {
        Region::Body => task_in_body(alloc, units, tokens, cursor, into),
        Region::Spec => task(alloc, units, tokens, cursor, into),
        Region::Protected => task(alloc, units, tokens, cursor, into),
        Region::ProtectedBody => task(alloc, units, tokens, cursor, into),
    }
}

/// A protected unit, or in a body also its body, behind the word protected.
fn protected_in(
    alloc: Global,
    units: &mut Units,
    tokens: &Tokens,
    cursor: Cursor,
    region: Region,
    into: &mut Children,
) -> Result<Cursor, Fault>
    requires at { cursor.at ≤ length (lexemes tokens.now) }
    ensures grows { Grows units.old units.new }
    ensures goes { IfOk result (λ next. Forth (lexemes tokens.now) cursor next) }
    ensures reads { (ds : phrases.Children) → Holds units.old into.old ds → Finds (parts.ProtectedIn region ds) (lexemes tokens.now) cursor units.new into.new result }
{
    match region {
        Region::Body => protected_in_body(alloc, units, tokens, cursor, into),
        Region::Spec => protected(alloc, units, tokens, cursor, into),
        Region::Protected => protected(alloc, units, tokens, cursor, into),
        Region::ProtectedBody => protected(alloc, units, tokens, cursor, into),
    }
}

/// What follows a head in the declaration of a package.
fn head_in_spec(
    alloc: Global,
    units: &mut Units,
    tokens: &Tokens,
    cursor: Cursor,
    head: Head,
    name: Token,
    mut own: Children,
    into: &mut Children,
) -> Result<Cursor, Fault>
    requires at { cursor.at ≤ length (lexemes tokens.now) }
    ensures grows { Grows units.old units.new }
    ensures goes { IfOk result (λ next. Forth (lexemes tokens.now) cursor next) }
    ensures reads { (os ds : phrases.Children) → Holds units.old own os → Holds units.old into.old ds → Finds (parts.BehindHead Region.Spec head (lexeme tokens.now.source name) os ds) (lexemes tokens.now) cursor units.new into.new result }
{
    if let Some((_, behind_keyword)) = accept(tokens, cursor, Class::Reserved(Reserved::With))? {
        let behind_aspects = behind_with(alloc, units, tokens, behind_keyword, &mut own)?;
        let (_, behind_end) = expect(tokens, behind_aspects, Class::Mark(Mark::Semicolon))?;
        let kind = DeclKind::SubprogramDeclaration {
            head,
            is_null: false,
        };
        declare(alloc, units, tokens, kind, name, own, into)?;
        return Ok(behind_end);
    }
    if let Some((_, behind_end_2)) = accept(tokens, cursor, Class::Mark(Mark::Semicolon))? {
        let kind = DeclKind::SubprogramDeclaration {
            head,
            is_null: false,
        };
        declare(alloc, units, tokens, kind, name, own, into)?;
        return Ok(behind_end_2);
    }
    let (_, behind_is) = expect(tokens, cursor, Class::Reserved(Reserved::Is))?;
    null_or_value(alloc, units, tokens, behind_is, head, name, own, into)
}

/// What follows a head in the body of a package.
fn head_in_body(
    alloc: Global,
    units: &mut Units,
    tokens: &Tokens,
    cursor: Cursor,
    head: Head,
    name: Token,
    mut own: Children,
    into: &mut Children,
) -> Result<Cursor, Fault>
    requires at { cursor.at ≤ length (lexemes tokens.now) }
    ensures grows { Grows units.old units.new }
    ensures goes { IfOk result (λ next. Forth (lexemes tokens.now) cursor next) }
    ensures reads { (os ds : phrases.Children) → Holds units.old own os → Holds units.old into.old ds → Finds (parts.BehindHead Region.Body head (lexeme tokens.now.source name) os ds) (lexemes tokens.now) cursor units.new into.new result }
{
    if let Some((_, behind_keyword)) = accept(tokens, cursor, Class::Reserved(Reserved::With))? {
        let next = behind_with(alloc, units, tokens, behind_keyword, &mut own)?;
        if let Some((_, behind_end)) = accept(tokens, next, Class::Mark(Mark::Semicolon))? {
            let kind = DeclKind::SubprogramDeclaration {
                head,
                is_null: false,
            };
            declare(alloc, units, tokens, kind, name, own, into)?;
            return Ok(behind_end);
        }
        let (_, behind_behind) = expect(tokens, next, Class::Reserved(Reserved::Is))?;
        return subprogram_body(alloc, units, tokens, behind_behind, head, name, own, into);
    }
    if let Some((_, behind_end_2)) = accept(tokens, cursor, Class::Mark(Mark::Semicolon))? {
        let kind = DeclKind::SubprogramDeclaration {
            head,
            is_null: false,
        };
        declare(alloc, units, tokens, kind, name, own, into)?;
        return Ok(behind_end_2);
    }
    let (_, behind_is) = expect(tokens, cursor, Class::Reserved(Reserved::Is))?;
    any_completion(alloc, units, tokens, behind_is, head, name, own, into)
}

/// What follows a head in a protected unit.
fn head_in_protected(
    alloc: Global,
    units: &mut Units,
    tokens: &Tokens,
    cursor: Cursor,
    head: Head,
    name: Token,
    own: Children,
    into: &mut Children,
) -> Result<Cursor, Fault>
    requires at { cursor.at ≤ length (lexemes tokens.now) }
    ensures grows { Grows units.old units.new }
    ensures goes { IfOk result (λ next. Forth (lexemes tokens.now) cursor next) }
    ensures reads { (os ds : phrases.Children) → Holds units.old own os → Holds units.old into.old ds → Finds (parts.BehindHead Region.Protected head (lexeme tokens.now.source name) os ds) (lexemes tokens.now) cursor units.new into.new result }
{
    let names = only(alloc, name)?;
    closing(
        alloc,
        units,
        tokens,
        cursor,
        DeclKind::ProtectedSubprogram { head },
        &names,
        own,
        into,
    )
}

/// What follows a head in the body of a protected unit.
fn head_in_protected_body(
    alloc: Global,
    units: &mut Units,
    tokens: &Tokens,
    cursor: Cursor,
    head: Head,
    name: Token,
    mut own: Children,
    into: &mut Children,
) -> Result<Cursor, Fault>
    requires at { cursor.at ≤ length (lexemes tokens.now) }
    ensures grows { Grows units.old units.new }
    ensures goes { IfOk result (λ next. Forth (lexemes tokens.now) cursor next) }
    ensures reads { (os ds : phrases.Children) → Holds units.old own os → Holds units.old into.old ds → Finds (parts.BehindHead Region.ProtectedBody head (lexeme tokens.now.source name) os ds) (lexemes tokens.now) cursor units.new into.new result }
{
    if let Some((_, behind_keyword)) = accept(tokens, cursor, Class::Reserved(Reserved::With))? {
        let behind_aspects = behind_with(alloc, units, tokens, behind_keyword, &mut own)?;
        let (_, behind_behind) = expect(tokens, behind_aspects, Class::Reserved(Reserved::Is))?;
        return subprogram_body(alloc, units, tokens, behind_behind, head, name, own, into);
    }
    let (_, behind_keyword_2) = expect(tokens, cursor, Class::Reserved(Reserved::Is))?;
    value_or_body(
        alloc,
        units,
        tokens,
        behind_keyword_2,
        head,
        name,
        own,
        into,
    )
}
