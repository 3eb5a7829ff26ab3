ghost use Rattle.std.specs.Prelude.{◌≡◌, ◌≤◌, true, length, IfOk};
ghost use Rattle.ada_grammar.specs.Parts as parts;
ghost use Rattle.ada_grammar.specs.Lexemes.{lexeme, lexemes};
ghost use Rattle.ada_grammar.specs.Phrases as phrases;
ghost use Rattle.ada_grammar.specs.Standing.{Finds, Forth, Grows, Holds};
ghost use Rattle.ada_tree.specs.Forms.{compound_form, statement_form};

use crate::declarations::local_declarations;
use ada_aspects::readers::pragma;
use ada_exprs::parts::{choice, discrete_range, expression, name_from};
use ada_grammar::{
    Children, Class, Cursor, Fault, accept, add_end_name, add_statement, declare, expect,
};
use ada_tree::{
    CompoundForm, DeclKind, Mark, Reserved, StatementForm, StmtKind, Token, Tokens, Units,
    compound_form, named_end, statement_form,
};
use spark_base::Span;
use std::alloc::Global;

/// Statements, one at least; their sequence is one node.
#[cycle(stmts)]
pub fn statements(
    alloc: Global,
    units: &mut Units,
    tokens: &Tokens,
    cursor: Cursor,
    into: &mut Children,
) -> Result<Cursor, Fault>
    requires at { cursor.at ≤ length (lexemes tokens.now) }
    ensures grows { Grows units.old units.new }
    ensures goes { IfOk result (λ next. Forth (lexemes tokens.now) cursor next) }
    ensures reads { (ds : phrases.Children) → Holds units.old into.old ds → Finds (parts.Statements ds) (lexemes tokens.now) cursor units.new into.new result }
{
    let (first, behind_first) = expect(tokens, cursor, Class::Statement)?;
    let mut own = Children::new(alloc);
    let mut next = statement(alloc, units, tokens, behind_first, first, &mut own)?;
    while let Some((further, behind_further)) = accept(tokens, next, Class::Statement)? {
        next = statement(alloc, units, tokens, behind_further, further, &mut own)?;
    }
    add_statement(units, StmtKind::Sequence, first.span, own, into)?;
    Ok(next)
}

/// A statement, behind its first token.
#[cycle(stmts)]
fn statement(
    alloc: Global,
    units: &mut Units,
    tokens: &Tokens,
    cursor: Cursor,
    first: Token,
    into: &mut Children,
) -> Result<Cursor, Fault>
    requires at { cursor.at ≤ length (lexemes tokens.now) }
    ensures grows { Grows units.old units.new }
    ensures goes { IfOk result (λ next. Forth (lexemes tokens.now) cursor next) }
    ensures reads { (ds : phrases.Children) → Holds units.old into.old ds → Finds (parts.Statement (statement_form first.kind) (lexeme tokens.now.source first) ds) (lexemes tokens.now) cursor units.new into.new result }
{
    match statement_form(first.kind) {
        StatementForm::Null => null_statement(alloc, units, tokens, cursor, first, into),
        StatementForm::Pragma => pragma(tokens, cursor),
        StatementForm::Named => named_statement(alloc, units, tokens, cursor, first, into),
        StatementForm::If => if_statement(alloc, units, tokens, cursor, first, into),
        StatementForm::Case => case_statement(alloc, units, tokens, cursor, first, into),
        StatementForm::While => while_loop(
            alloc,
            units,
            tokens,
            cursor,
            false,
            first,
            Children::new(alloc),
            into,
        ),
        StatementForm::For => for_loop(
            alloc,
            units,
            tokens,
            cursor,
            false,
            first,
            Children::new(alloc),
            into,
        ),
        StatementForm::Loop => loop_body(
            alloc,
            units,
            tokens,
            cursor,
            StmtKind::Loop {
                has_label: false,
                has_end_name: false,
            },
            first.span,
            Children::new(alloc),
            into,
        ),
        StatementForm::Declare => declare_block(
            alloc,
            units,
            tokens,
            cursor,
            false,
            first,
            Children::new(alloc),
            into,
        ),
        StatementForm::Begin => block_body(
            alloc,
            units,
            tokens,
            cursor,
            StmtKind::Block {
                has_label: false,
                has_declare: false,
                has_end_name: false,
            },
            first.span,
            Children::new(alloc),
            into,
        ),
        StatementForm::Exit => exit_statement(alloc, units, tokens, cursor, first, into),
        StatementForm::Return => return_statement(alloc, units, tokens, cursor, first, into),
        StatementForm::Delay => delay_statement(alloc, units, tokens, cursor, first, into),
    }
}

/// A statement that begins with an identifier, behind it.
#[cycle(stmts)]
fn named_statement(
    alloc: Global,
    units: &mut Units,
    tokens: &Tokens,
    cursor: Cursor,
    first: Token,
    into: &mut Children,
) -> Result<Cursor, Fault>
    requires at { cursor.at ≤ length (lexemes tokens.now) }
    ensures grows { Grows units.old units.new }
    ensures goes { IfOk result (λ next. Forth (lexemes tokens.now) cursor next) }
    ensures reads { (ds : phrases.Children) → Holds units.old into.old ds → Finds (parts.NamedStatement (lexeme tokens.now.source first) ds) (lexemes tokens.now) cursor units.new into.new result }
{
    let mut own = Children::new(alloc);
    if let Some((_, behind_colon)) = accept(tokens, cursor, Class::Mark(Mark::Colon))? {
        let (keyword, behind_keyword) = expect(tokens, behind_colon, Class::Compound)?;
        declare(
            alloc,
            units,
            tokens,
            DeclKind::StatementName,
            first,
            Children::new(alloc),
            &mut own,
        )?;
        return labelled(alloc, units, tokens, behind_keyword, keyword, own, into);
    }
    let behind_whole_name = name_from(alloc, units, tokens, cursor, first, &mut own)?;
    behind_name(
        alloc,
        units,
        tokens,
        behind_whole_name,
        first.span,
        own,
        into,
    )
}

/// A loop or a block with a name, behind its first word.
#[cycle(stmts)]
fn labelled(
    alloc: Global,
    units: &mut Units,
    tokens: &Tokens,
    cursor: Cursor,
    first: Token,
    own: Children,
    into: &mut Children,
) -> Result<Cursor, Fault>
    requires at { cursor.at ≤ length (lexemes tokens.now) }
    ensures grows { Grows units.old units.new }
    ensures goes { IfOk result (λ next. Forth (lexemes tokens.now) cursor next) }
    ensures reads { (os ds : phrases.Children) → Holds units.old own os → Holds units.old into.old ds → Finds (parts.Labelled (compound_form first.kind) (lexeme tokens.now.source first) os ds) (lexemes tokens.now) cursor units.new into.new result }
{
    match compound_form(first.kind) {
        CompoundForm::While => while_loop(alloc, units, tokens, cursor, true, first, own, into),
        CompoundForm::For => for_loop(alloc, units, tokens, cursor, true, first, own, into),
        CompoundForm::Loop => loop_body(
            alloc,
            units,
            tokens,
            cursor,
            StmtKind::Loop {
                has_label: true,
                has_end_name: false,
            },
            first.span,
            own,
            into,
        ),
        CompoundForm::Declare => declare_block(
            alloc, units, tokens, cursor, true, first, own, into,
        ),
        CompoundForm::Begin => block_body(
            alloc,
            units,
            tokens,
            cursor,
            StmtKind::Block {
                has_label: true,
                has_declare: false,
                has_end_name: false,
            },
            first.span,
            own,
            into,
        ),
    }
}

/// An if, behind its word.
#[cycle(stmts)]
fn if_statement(
    alloc: Global,
    units: &mut Units,
    tokens: &Tokens,
    cursor: Cursor,
    first: Token,
    into: &mut Children,
) -> Result<Cursor, Fault>
    requires at { cursor.at ≤ length (lexemes tokens.now) }
    ensures grows { Grows units.old units.new }
    ensures goes { IfOk result (λ next. Forth (lexemes tokens.now) cursor next) }
    ensures reads { (ds : phrases.Children) → Holds units.old into.old ds → Finds (parts.If (lexeme tokens.now.source first) ds) (lexemes tokens.now) cursor units.new into.new result }
{
    let mut own = Children::new(alloc);
    let behind_value = expression(alloc, units, tokens, cursor, &mut own)?;
    let (_, behind_keyword) = expect(tokens, behind_value, Class::Reserved(Reserved::Then))?;
    let mut next = statements(alloc, units, tokens, behind_keyword, &mut own)?;
    while let Some((_, behind_elsif)) = accept(tokens, next, Class::Reserved(Reserved::Elsif))? {
        let behind_value_2 = expression(alloc, units, tokens, behind_elsif, &mut own)?;
        let (_, behind_behind) = expect(tokens, behind_value_2, Class::Reserved(Reserved::Then))?;
        next = statements(alloc, units, tokens, behind_behind, &mut own)?;
    }
    if let Some((_, behind_keyword_3)) = accept(tokens, next, Class::Reserved(Reserved::Else))? {
        let behind_statements = statements(alloc, units, tokens, behind_keyword_3, &mut own)?;
        let kind = StmtKind::If { has_else: true };
        return end_if(
            alloc,
            units,
            tokens,
            behind_statements,
            kind,
            first.span,
            own,
            into,
        );
    }
    let kind = StmtKind::If { has_else: false };
    end_if(alloc, units, tokens, next, kind, first.span, own, into)
}

/// A case, behind its word.
#[cycle(stmts)]
fn case_statement(
    alloc: Global,
    units: &mut Units,
    tokens: &Tokens,
    cursor: Cursor,
    first: Token,
    into: &mut Children,
) -> Result<Cursor, Fault>
    requires at { cursor.at ≤ length (lexemes tokens.now) }
    ensures grows { Grows units.old units.new }
    ensures goes { IfOk result (λ next. Forth (lexemes tokens.now) cursor next) }
    ensures reads { (ds : phrases.Children) → Holds units.old into.old ds → Finds (parts.Case (lexeme tokens.now.source first) ds) (lexemes tokens.now) cursor units.new into.new result }
{
    let mut own = Children::new(alloc);
    let behind_value = expression(alloc, units, tokens, cursor, &mut own)?;
    let (_, behind_keyword) = expect(tokens, behind_value, Class::Reserved(Reserved::Is))?;
    let (branch, behind_branch) = expect(tokens, behind_keyword, Class::Reserved(Reserved::When))?;
    let mut next = alternative(alloc, units, tokens, behind_branch, branch.span, &mut own)?;
    while let Some((branch, behind_branch_2)) = accept(
        tokens,
        next,
        Class::Reserved(Reserved::When),
    )? {
        next = alternative(alloc, units, tokens, behind_branch_2, branch.span, &mut own)?;
    }
    let (_, behind_end) = expect(tokens, next, Class::Reserved(Reserved::End))?;
    let (_, behind_keyword_2) = expect(tokens, behind_end, Class::Reserved(Reserved::Case))?;
    let (_, behind_semicolon) = expect(tokens, behind_keyword_2, Class::Mark(Mark::Semicolon))?;
    add_statement(units, StmtKind::Case, first.span, own, into)?;
    Ok(behind_semicolon)
}

/// An alternative of a case, behind `when`.
#[cycle(stmts)]
fn alternative(
    alloc: Global,
    units: &mut Units,
    tokens: &Tokens,
    cursor: Cursor,
    span: Span,
    into: &mut Children,
) -> Result<Cursor, Fault>
    requires at { cursor.at ≤ length (lexemes tokens.now) }
    ensures grows { Grows units.old units.new }
    ensures goes { IfOk result (λ next. Forth (lexemes tokens.now) cursor next) }
    ensures reads { (ds : phrases.Children) → Holds units.old into.old ds → Finds (parts.Alternative span ds) (lexemes tokens.now) cursor units.new into.new result }
{
    let mut own = Children::new(alloc);
    let mut next = choice(alloc, units, tokens, cursor, &mut own)?;
    while let Some((_, behind_bar)) = accept(tokens, next, Class::Mark(Mark::Bar))? {
        next = choice(alloc, units, tokens, behind_bar, &mut own)?;
    }
    let (_, behind_arrow) = expect(tokens, next, Class::Mark(Mark::Arrow))?;
    let behind_statements = statements(alloc, units, tokens, behind_arrow, &mut own)?;
    add_statement(units, StmtKind::Alternative, span, own, into)?;
    Ok(behind_statements)
}

/// A loop behind `while`.
#[cycle(stmts)]
fn while_loop(
    alloc: Global,
    units: &mut Units,
    tokens: &Tokens,
    cursor: Cursor,
    labelled: bool,
    first: Token,
    mut own: Children,
    into: &mut Children,
) -> Result<Cursor, Fault>
    requires at { cursor.at ≤ length (lexemes tokens.now) }
    ensures grows { Grows units.old units.new }
    ensures goes { IfOk result (λ next. Forth (lexemes tokens.now) cursor next) }
    ensures reads { (os ds : phrases.Children) → Holds units.old own os → Holds units.old into.old ds → Finds (parts.While labelled (lexeme tokens.now.source first) os ds) (lexemes tokens.now) cursor units.new into.new result }
{
    let behind_value = expression(alloc, units, tokens, cursor, &mut own)?;
    let (_, behind_keyword) = expect(tokens, behind_value, Class::Reserved(Reserved::Loop))?;
    loop_body(
        alloc,
        units,
        tokens,
        behind_keyword,
        StmtKind::While {
            has_label: labelled,
            has_end_name: false,
        },
        first.span,
        own,
        into,
    )
}

/// A loop behind `for`.
#[cycle(stmts)]
fn for_loop(
    alloc: Global,
    units: &mut Units,
    tokens: &Tokens,
    cursor: Cursor,
    labelled: bool,
    first: Token,
    own: Children,
    into: &mut Children,
) -> Result<Cursor, Fault>
    requires at { cursor.at ≤ length (lexemes tokens.now) }
    ensures grows { Grows units.old units.new }
    ensures goes { IfOk result (λ next. Forth (lexemes tokens.now) cursor next) }
    ensures reads { (os ds : phrases.Children) → Holds units.old own os → Holds units.old into.old ds → Finds (parts.For labelled (lexeme tokens.now.source first) os ds) (lexemes tokens.now) cursor units.new into.new result }
{
    let kind = StmtKind::For {
        has_label: labelled,
        has_end_name: false,
    };
    let (name, behind_name) = expect(tokens, cursor, Class::Word)?;
    let (_, behind_keyword) = expect(tokens, behind_name, Class::Reserved(Reserved::In))?;
    if let Some((_, behind_reverse)) = accept(
        tokens,
        behind_keyword,
        Class::Reserved(Reserved::Reverse),
    )? {
        let parameter = DeclKind::LoopParameter { is_reverse: true };
        return for_range(
            alloc,
            units,
            tokens,
            behind_reverse,
            parameter,
            name,
            kind,
            first.span,
            own,
            into,
        );
    }
    let parameter = DeclKind::LoopParameter { is_reverse: false };
    for_range(
        alloc,
        units,
        tokens,
        behind_keyword,
        parameter,
        name,
        kind,
        first.span,
        own,
        into,
    )
}

/// The range of a loop's parameter.
#[cycle(stmts)]
fn for_range(
    alloc: Global,
    units: &mut Units,
    tokens: &Tokens,
    cursor: Cursor,
    parameter: DeclKind,
    name: Token,
    kind: StmtKind,
    span: Span,
    mut own: Children,
    into: &mut Children,
) -> Result<Cursor, Fault>
    requires at { cursor.at ≤ length (lexemes tokens.now) }
    ensures grows { Grows units.old units.new }
    ensures goes { IfOk result (λ next. Forth (lexemes tokens.now) cursor next) }
    ensures reads { (os ds : phrases.Children) → Holds units.old own os → Holds units.old into.old ds → Finds (parts.ForRange parameter (lexeme tokens.now.source name) kind span os ds) (lexemes tokens.now) cursor units.new into.new result }
{
    let mut range = Children::new(alloc);
    let behind_range = discrete_range(alloc, units, tokens, cursor, &mut range)?;
    declare(alloc, units, tokens, parameter, name, range, &mut own)?;
    let (_, behind_keyword) = expect(tokens, behind_range, Class::Reserved(Reserved::Loop))?;
    loop_body(alloc, units, tokens, behind_keyword, kind, span, own, into)
}

/// The statements of a loop, and its end.
#[cycle(stmts)]
fn loop_body(
    alloc: Global,
    units: &mut Units,
    tokens: &Tokens,
    cursor: Cursor,
    kind: StmtKind,
    span: Span,
    mut own: Children,
    into: &mut Children,
) -> Result<Cursor, Fault>
    requires at { cursor.at ≤ length (lexemes tokens.now) }
    ensures grows { Grows units.old units.new }
    ensures goes { IfOk result (λ next. Forth (lexemes tokens.now) cursor next) }
    ensures reads { (os ds : phrases.Children) → Holds units.old own os → Holds units.old into.old ds → Finds (parts.LoopBody kind span os ds) (lexemes tokens.now) cursor units.new into.new result }
{
    let behind_statements = statements(alloc, units, tokens, cursor, &mut own)?;
    let (_, behind_end) = expect(tokens, behind_statements, Class::Reserved(Reserved::End))?;
    let (_, behind_keyword) = expect(tokens, behind_end, Class::Reserved(Reserved::Loop))?;
    end_of_statement(alloc, units, tokens, behind_keyword, kind, span, own, into)
}

/// A block, behind `declare`.
#[cycle(stmts)]
fn declare_block(
    alloc: Global,
    units: &mut Units,
    tokens: &Tokens,
    cursor: Cursor,
    labelled: bool,
    first: Token,
    mut own: Children,
    into: &mut Children,
) -> Result<Cursor, Fault>
    requires at { cursor.at ≤ length (lexemes tokens.now) }
    ensures grows { Grows units.old units.new }
    ensures goes { IfOk result (λ next. Forth (lexemes tokens.now) cursor next) }
    ensures reads { (os ds : phrases.Children) → Holds units.old own os → Holds units.old into.old ds → Finds (parts.Declare labelled (lexeme tokens.now.source first) os ds) (lexemes tokens.now) cursor units.new into.new result }
{
    let behind_local_declarations = local_declarations(alloc, units, tokens, cursor, &mut own)?;
    let (_, behind_keyword) = expect(
        tokens,
        behind_local_declarations,
        Class::Reserved(Reserved::Begin),
    )?;
    block_body(
        alloc,
        units,
        tokens,
        behind_keyword,
        StmtKind::Block {
            has_label: labelled,
            has_declare: true,
            has_end_name: false,
        },
        first.span,
        own,
        into,
    )
}

/// The statements of a block, and its end.
#[cycle(stmts)]
fn block_body(
    alloc: Global,
    units: &mut Units,
    tokens: &Tokens,
    cursor: Cursor,
    kind: StmtKind,
    span: Span,
    mut own: Children,
    into: &mut Children,
) -> Result<Cursor, Fault>
    requires at { cursor.at ≤ length (lexemes tokens.now) }
    ensures grows { Grows units.old units.new }
    ensures goes { IfOk result (λ next. Forth (lexemes tokens.now) cursor next) }
    ensures reads { (os ds : phrases.Children) → Holds units.old own os → Holds units.old into.old ds → Finds (parts.BlockBody kind span os ds) (lexemes tokens.now) cursor units.new into.new result }
{
    let behind_statements = statements(alloc, units, tokens, cursor, &mut own)?;
    let (_, behind_end) = expect(tokens, behind_statements, Class::Reserved(Reserved::End))?;
    end_of_statement(alloc, units, tokens, behind_end, kind, span, own, into)
}

/// An assignment or a call, behind its name.
fn behind_name(
    alloc: Global,
    units: &mut Units,
    tokens: &Tokens,
    cursor: Cursor,
    span: Span,
    mut own: Children,
    into: &mut Children,
) -> Result<Cursor, Fault>
    requires at { cursor.at ≤ length (lexemes tokens.now) }
    ensures grows { Grows units.old units.new }
    ensures goes { IfOk result (λ next. Forth (lexemes tokens.now) cursor next) }
    ensures reads { (os ds : phrases.Children) → Holds units.old own os → Holds units.old into.old ds → Finds (parts.BehindName span os ds) (lexemes tokens.now) cursor units.new into.new result }
{
    if let Some((_, behind_becomes)) = accept(tokens, cursor, Class::Mark(Mark::Becomes))? {
        let behind_value = expression(alloc, units, tokens, behind_becomes, &mut own)?;
        let (_, behind_end) = expect(tokens, behind_value, Class::Mark(Mark::Semicolon))?;
        add_statement(units, StmtKind::Assignment, span, own, into)?;
        return Ok(behind_end);
    }
    let (_, behind_end_2) = expect(tokens, cursor, Class::Mark(Mark::Semicolon))?;
    add_statement(units, StmtKind::Call, span, own, into)?;
    Ok(behind_end_2)
}

/// The end of an if of this kind.
fn end_if(
    alloc: Global,
    units: &mut Units,
    tokens: &Tokens,
    cursor: Cursor,
    kind: StmtKind,
    span: Span,
    own: Children,
    into: &mut Children,
) -> Result<Cursor, Fault>
    requires at { cursor.at ≤ length (lexemes tokens.now) }
    ensures grows { Grows units.old units.new }
    ensures goes { IfOk result (λ next. Forth (lexemes tokens.now) cursor next) }
    ensures reads { (os ds : phrases.Children) → Holds units.old own os → Holds units.old into.old ds → Finds (parts.EndIf kind span os ds) (lexemes tokens.now) cursor units.new into.new result }
{
    let (_, behind_end) = expect(tokens, cursor, Class::Reserved(Reserved::End))?;
    let (_, behind_keyword) = expect(tokens, behind_end, Class::Reserved(Reserved::If))?;
    let (_, behind_semicolon) = expect(tokens, behind_keyword, Class::Mark(Mark::Semicolon))?;
    add_statement(units, kind, span, own, into)?;
    Ok(behind_semicolon)
}

/// The end name, if any, and the semicolon of a loop or a block.
fn end_of_statement(
    alloc: Global,
    units: &mut Units,
    tokens: &Tokens,
    cursor: Cursor,
    kind: StmtKind,
    span: Span,
    mut own: Children,
    into: &mut Children,
) -> Result<Cursor, Fault>
    requires at { cursor.at ≤ length (lexemes tokens.now) }
    ensures grows { Grows units.old units.new }
    ensures goes { IfOk result (λ next. Forth (lexemes tokens.now) cursor next) }
    ensures reads { (os ds : phrases.Children) → Holds units.old own os → Holds units.old into.old ds → Finds (parts.EndOfStatement kind span os ds) (lexemes tokens.now) cursor units.new into.new result }
{
    if let Some((name, behind_name)) = accept(tokens, cursor, Class::Word)? {
        let (_, behind_end) = expect(tokens, behind_name, Class::Mark(Mark::Semicolon))?;
        add_end_name(alloc, units, tokens, name, &mut own)?;
        let kind = named_end(kind);
        add_statement(units, kind, span, own, into)?;
        return Ok(behind_end);
    }
    let (_, behind_end_2) = expect(tokens, cursor, Class::Mark(Mark::Semicolon))?;
    add_statement(units, kind, span, own, into)?;
    Ok(behind_end_2)
}

/// An exit, behind its word.
fn exit_statement(
    alloc: Global,
    units: &mut Units,
    tokens: &Tokens,
    cursor: Cursor,
    first: Token,
    into: &mut Children,
) -> Result<Cursor, Fault>
    requires at { cursor.at ≤ length (lexemes tokens.now) }
    ensures grows { Grows units.old units.new }
    ensures goes { IfOk result (λ next. Forth (lexemes tokens.now) cursor next) }
    ensures reads { (ds : phrases.Children) → Holds units.old into.old ds → Finds (parts.Exit (lexeme tokens.now.source first) ds) (lexemes tokens.now) cursor units.new into.new result }
{
    let mut own = Children::new(alloc);
    if let Some((name, next)) = accept(tokens, cursor, Class::Word)? {
        add_end_name(alloc, units, tokens, name, &mut own)?;
        if let Some((_, behind_keyword)) = accept(tokens, next, Class::Reserved(Reserved::When))? {
            let behind_value = expression(alloc, units, tokens, behind_keyword, &mut own)?;
            let (_, behind_end) = expect(tokens, behind_value, Class::Mark(Mark::Semicolon))?;
            let kind = StmtKind::Exit {
                has_loop_name: true,
                has_condition: true,
            };
            add_statement(units, kind, first.span, own, into)?;
            return Ok(behind_end);
        }
        let (_, behind_end_2) = expect(tokens, next, Class::Mark(Mark::Semicolon))?;
        let kind = StmtKind::Exit {
            has_loop_name: true,
            has_condition: false,
        };
        add_statement(units, kind, first.span, own, into)?;
        return Ok(behind_end_2);
    }
    if let Some((_, behind_keyword_2)) = accept(tokens, cursor, Class::Reserved(Reserved::When))? {
        let behind_value_2 = expression(alloc, units, tokens, behind_keyword_2, &mut own)?;
        let (_, behind_end_3) = expect(tokens, behind_value_2, Class::Mark(Mark::Semicolon))?;
        let kind = StmtKind::Exit {
            has_loop_name: false,
            has_condition: true,
        };
        add_statement(units, kind, first.span, own, into)?;
        return Ok(behind_end_3);
    }
    let (_, behind_end_4) = expect(tokens, cursor, Class::Mark(Mark::Semicolon))?;
    let kind = StmtKind::Exit {
        has_loop_name: false,
        has_condition: false,
    };
    add_statement(units, kind, first.span, own, into)?;
    Ok(behind_end_4)
}

/// A return, behind its word.
fn return_statement(
    alloc: Global,
    units: &mut Units,
    tokens: &Tokens,
    cursor: Cursor,
    first: Token,
    into: &mut Children,
) -> Result<Cursor, Fault>
    requires at { cursor.at ≤ length (lexemes tokens.now) }
    ensures grows { Grows units.old units.new }
    ensures goes { IfOk result (λ next. Forth (lexemes tokens.now) cursor next) }
    ensures reads { (ds : phrases.Children) → Holds units.old into.old ds → Finds (parts.Return (lexeme tokens.now.source first) ds) (lexemes tokens.now) cursor units.new into.new result }
{
    let mut own = Children::new(alloc);
    if let Some((_, behind_end)) = accept(tokens, cursor, Class::Mark(Mark::Semicolon))? {
        let kind = StmtKind::Return { has_value: false };
        add_statement(units, kind, first.span, own, into)?;
        return Ok(behind_end);
    }
    let behind_value = expression(alloc, units, tokens, cursor, &mut own)?;
    let (_, behind_end_2) = expect(tokens, behind_value, Class::Mark(Mark::Semicolon))?;
    let kind = StmtKind::Return { has_value: true };
    add_statement(units, kind, first.span, own, into)?;
    Ok(behind_end_2)
}

/// The declarations and the statements of a body, as far as its `end`.
pub fn body(
    alloc: Global,
    units: &mut Units,
    tokens: &Tokens,
    cursor: Cursor,
    into: &mut Children,
) -> Result<Cursor, Fault>
    requires at { cursor.at ≤ length (lexemes tokens.now) }
    ensures grows { Grows units.old units.new }
    ensures goes { IfOk result (λ next. Forth (lexemes tokens.now) cursor next) }
    ensures reads { (ds : phrases.Children) → Holds units.old into.old ds → Finds (parts.ProperBody ds) (lexemes tokens.now) cursor units.new into.new result }
{
    let behind_local_declarations = local_declarations(alloc, units, tokens, cursor, into)?;
    let (_, behind_keyword) = expect(
        tokens,
        behind_local_declarations,
        Class::Reserved(Reserved::Begin),
    )?;
    let behind_statements = statements(alloc, units, tokens, behind_keyword, into)?;
    let (_, behind_end) = expect(tokens, behind_statements, Class::Reserved(Reserved::End))?;
    Ok(behind_end)
}

/// A null statement, behind its word.
fn null_statement(
    alloc: Global,
    units: &mut Units,
    tokens: &Tokens,
    cursor: Cursor,
    first: Token,
    into: &mut Children,
) -> Result<Cursor, Fault>
    requires at { cursor.at ≤ length (lexemes tokens.now) }
    ensures grows { Grows units.old units.new }
    ensures goes { IfOk result (λ next. Forth (lexemes tokens.now) cursor next) }
    ensures reads { (ds : phrases.Children) → Holds units.old into.old ds → Finds (parts.Statement StatementForm.Null (lexeme tokens.now.source first) ds) (lexemes tokens.now) cursor units.new into.new result }
{
    let (_, behind_end) = expect(tokens, cursor, Class::Mark(Mark::Semicolon))?;
    add_statement(
        units,
        StmtKind::Null,
        first.span,
        Children::new(alloc),
        into,
    )?;
    Ok(behind_end)
}

/// A delay, behind its word.
fn delay_statement(
    alloc: Global,
    units: &mut Units,
    tokens: &Tokens,
    cursor: Cursor,
    first: Token,
    into: &mut Children,
) -> Result<Cursor, Fault>
    requires at { cursor.at ≤ length (lexemes tokens.now) }
    ensures grows { Grows units.old units.new }
    ensures goes { IfOk result (λ next. Forth (lexemes tokens.now) cursor next) }
    ensures reads { (ds : phrases.Children) → Holds units.old into.old ds → Finds (parts.Statement StatementForm.Delay (lexeme tokens.now.source first) ds) (lexemes tokens.now) cursor units.new into.new result }
{
    let (_, behind_keyword) = expect(tokens, cursor, Class::Reserved(Reserved::Until))?;
    let mut own = Children::new(alloc);
    let behind_value = expression(alloc, units, tokens, behind_keyword, &mut own)?;
    let (_, behind_end) = expect(tokens, behind_value, Class::Mark(Mark::Semicolon))?;
    add_statement(units, StmtKind::DelayUntil, first.span, own, into)?;
    Ok(behind_end)
}
