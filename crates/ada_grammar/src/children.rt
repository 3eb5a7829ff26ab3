ghost use Rattle.std.specs.Prelude.{◌≡◌, ◌+◌, [], ◌∷◌, ◌++◌, length, map, IfOk, OnErr};
ghost use Rattle.ada_grammar.specs.Built.{written};
ghost use Rattle.ada_grammar.specs.Lexemes.{lexeme};
ghost use Rattle.ada_grammar.specs.Phrases as phrases;
ghost use Rattle.ada_grammar.specs.Standing.{Appends, ExprRef, Grows, Holds, Stands, UnitRef, Widens, shared_children};
ghost use Rattle.ada_tree.specs.Tree.{IsOrdered};

use crate::nodes::{Form, add_named, text};
use ada_tree::{
    AspectKind, AspectNode, DeclKind, DeclNode, ExprKind, StmtKind, StmtNode, Token, Tokens, Unit,
    UnitKind, Units,
};
use spark_base::{AspectNo, DeclNo, ExprNo, Items, Name, NoMemory, Shared, Span, StmtNo};
use std::alloc::Global;

/// What was read of a node that is still open: the numbers of its children, of each type in the order of the source.
#[derive(Debug, Drop)]
pub struct Children {
    pub exprs: Items<ExprNo>,
    pub stmts: Items<StmtNo>,
    pub decls: Items<DeclNo>,
    pub aspects: Items<AspectNo>,
}

impl Children {
    /// No children.
    pub fn new(alloc: Global) -> Self
        ensures { (u : Units) → IsOrdered u → Holds u result phrases.none }
    {
        Children {
            exprs: Items::new(alloc),
            stmts: Items::new(alloc),
            decls: Items::new(alloc),
            aspects: Items::new(alloc),
        }
    }
}

/// The children of a declaration, as each of its names has them.
#[derive(Debug, Drop)]
struct SharedChildren {
    exprs: Shared<ExprNo>,
    stmts: Shared<StmtNo>,
    decls: Shared<DeclNo>,
    aspects: Shared<AspectNo>,
}

impl SharedChildren {
    /// These children, to be shared.
    fn new(own: Children) -> Result<Self, NoMemory>
        ensures { IfOk result (λ shared. shared_children shared ≡ own) }
    {
        Ok(SharedChildren {
            exprs: Shared::from_items(own.exprs)?,
            stmts: Shared::from_items(own.stmts)?,
            decls: Shared::from_items(own.decls)?,
            aspects: Shared::from_items(own.aspects)?,
        })
    }

    /// The same children for one name more.
    fn share(&self) -> Result<Self, NoMemory>
        ensures { IfOk result (λ shared. shared ≡ self.now) }
    {
        Ok(SharedChildren {
            exprs: self.exprs.clone()?,
            stmts: self.stmts.clone()?,
            decls: self.decls.clone()?,
            aspects: self.aspects.clone()?,
        })
    }
}

/// Adds an item at the end of a list, and answers its place. More items than 32-bit numbers can name are want of memory.
fn append<T: Drop>(list: &mut Items<T>, item: T) -> Result<u32, NoMemory>
    ensures appends { IfOk result (λ at. Appends T list.old list.new item at) }
    ensures err { OnErr result (list.new ≡ list.old) }
{
    if list.len() >= u32::MAX as usize {
        return Err(NoMemory);
    }
    let at = list.len() as u32;
    list.push(item)?;
    Ok(at)
}

/// Adds a statement over its own children, behind what was read before it.
fn push_statement(
    units: &mut Units,
    kind: StmtKind,
    span: Span,
    name: Option<Name>,
    own: Children,
    into: &mut Children,
) -> Result<(), NoMemory>
    ensures grows { Grows units.old units.new }
    ensures builds { IfOk result (λ _. (os ds : phrases.Children) → Holds units.old own os → Holds units.old into.old ds
        → Holds units.new into.new (phrases.with_stmt ds (phrases.node_tree (phrases.OfStmt kind) span (written name) os))) }
{
    let Children {
        exprs,
        stmts,
        decls,
        aspects,
    } = own;
    let node = StmtNode {
        span,
        kind,
        name,
        exprs,
        stmts,
        decls,
        aspects,
    };
    let at = append(&mut units.stmts, node)?;
    into.stmts.push(StmtNo(at))?;
    Ok(())
}

/// Adds a declaration over its own children, behind what was read before it.
fn push_declaration(
    units: &mut Units,
    kind: DeclKind,
    span: Span,
    name: Option<Name>,
    own: SharedChildren,
    into: &mut Children,
) -> Result<(), NoMemory>
    ensures grows { Grows units.old units.new }
    ensures builds { IfOk result (λ _. (os ds : phrases.Children) → Holds units.old (shared_children own) os → Holds units.old into.old ds
        → Holds units.new into.new (phrases.with_decl ds (phrases.node_tree (phrases.OfDecl kind) span (written name) os))) }
{
    let SharedChildren {
        exprs,
        stmts,
        decls,
        aspects,
    } = own;
    let node = DeclNode {
        span,
        kind,
        name,
        exprs,
        stmts,
        decls,
        aspects,
    };
    let at = append(&mut units.decls, node)?;
    into.decls.push(DeclNo(at))?;
    Ok(())
}

/// Adds an aspect over its own children, behind what was read before it.
fn push_aspect(
    units: &mut Units,
    kind: AspectKind,
    span: Span,
    name: Option<Name>,
    own: Children,
    into: &mut Children,
) -> Result<(), NoMemory>
    ensures grows { Grows units.old units.new }
    ensures builds { IfOk result (λ _. (os ds : phrases.Children) → Holds units.old own os → Holds units.old into.old ds
        → Holds units.new into.new (phrases.with_aspect ds (phrases.node_tree (phrases.OfAspect kind) span (written name) os))) }
{
    let Children {
        exprs,
        stmts,
        decls,
        aspects,
    } = own;
    let node = AspectNode {
        span,
        kind,
        name,
        exprs,
        stmts,
        decls,
        aspects,
    };
    let at = append(&mut units.aspects, node)?;
    into.aspects.push(AspectNo(at))?;
    Ok(())
}

/// Adds a statement without a name.
pub fn add_statement(
    units: &mut Units,
    kind: StmtKind,
    span: Span,
    own: Children,
    into: &mut Children,
) -> Result<(), NoMemory>
    ensures grows { Grows units.old units.new }
    ensures builds { IfOk result (λ _. (os ds : phrases.Children) → Holds units.old own os → Holds units.old into.old ds
        → Holds units.new into.new (phrases.statement kind span os ds)) }
{
    push_statement(units, kind, span, None, own, into)
}

/// Adds a declaration without a name.
pub fn add_declaration(
    units: &mut Units,
    kind: DeclKind,
    span: Span,
    own: Children,
    into: &mut Children,
) -> Result<(), NoMemory>
    ensures grows { Grows units.old units.new }
    ensures builds { IfOk result (λ _. (os ds : phrases.Children) → Holds units.old own os → Holds units.old into.old ds
        → Holds units.new into.new (phrases.unnamed kind span os ds)) }
{
    push_declaration(units, kind, span, None, SharedChildren::new(own)?, into)
}

/// Adds a declaration of the name that a token has, over children that other names may have too.
fn declare_shared(
    alloc: Global,
    units: &mut Units,
    tokens: &Tokens,
    kind: DeclKind,
    name: Token,
    own: SharedChildren,
    into: &mut Children,
) -> Result<(), NoMemory>
    ensures grows { Grows units.old units.new }
    ensures builds { IfOk result (λ _. (os ds : phrases.Children) → Holds units.old (shared_children own) os → Holds units.old into.old ds
        → Holds units.new into.new (phrases.declared kind (lexeme tokens.now.source name) os ds)) }
{
    let text = Name::new(alloc, text(tokens, name))?;
    push_declaration(units, kind, name.span, Some(text), own, into)
}

/// Adds a declaration of the name that a token has.
pub fn declare(
    alloc: Global,
    units: &mut Units,
    tokens: &Tokens,
    kind: DeclKind,
    name: Token,
    own: Children,
    into: &mut Children,
) -> Result<(), NoMemory>
    ensures grows { Grows units.old units.new }
    ensures builds { IfOk result (λ _. (os ds : phrases.Children) → Holds units.old own os → Holds units.old into.old ds
        → Holds units.new into.new (phrases.declared kind (lexeme tokens.now.source name) os ds)) }
{
    let own = SharedChildren::new(own)?;
    declare_shared(alloc, units, tokens, kind, name, own, into)
}

/// Adds a declaration of each of these names. Their nodes share the lists of their children.
pub fn declare_all(
    alloc: Global,
    units: &mut Units,
    tokens: &Tokens,
    kind: DeclKind,
    names: &Items<Token>,
    own: Children,
    into: &mut Children,
) -> Result<(), NoMemory>
    ensures grows { Grows units.old units.new }
    ensures builds { IfOk result (λ _. (os ds : phrases.Children) → Holds units.old own os → Holds units.old into.old ds
        → Holds units.new into.new (phrases.declared_all kind (map (lexeme tokens.now.source) names.now) os ds)) }
{
    let own = SharedChildren::new(own)?;
    for name in names.as_slice() {
        declare_shared(alloc, units, tokens, kind, *name, own.share()?, into)?;
    }
    Ok(())
}

/// Adds an aspect without a name.
pub fn add_aspect(
    units: &mut Units,
    kind: AspectKind,
    span: Span,
    own: Children,
    into: &mut Children,
) -> Result<(), NoMemory>
    ensures grows { Grows units.old units.new }
    ensures builds { IfOk result (λ _. (os ds : phrases.Children) → Holds units.old own os → Holds units.old into.old ds
        → Holds units.new into.new (phrases.aspect kind span os ds)) }
{
    push_aspect(units, kind, span, None, own, into)
}

/// Adds an aspect with the name that a token has.
pub fn add_named_aspect(
    alloc: Global,
    units: &mut Units,
    tokens: &Tokens,
    kind: AspectKind,
    name: Token,
    own: Children,
    into: &mut Children,
) -> Result<(), NoMemory>
    ensures grows { Grows units.old units.new }
    ensures builds { IfOk result (λ _. (os ds : phrases.Children) → Holds units.old own os → Holds units.old into.old ds
        → Holds units.new into.new (phrases.named_aspect kind (lexeme tokens.now.source name) os ds)) }
{
    let text = Name::new(alloc, text(tokens, name))?;
    push_aspect(units, kind, name.span, Some(text), own, into)
}

/// Adds a unit with the name that a token has.
pub fn add_unit(
    alloc: Global,
    units: &mut Units,
    tokens: &Tokens,
    kind: UnitKind,
    name: Token,
    own: Children,
) -> Result<(), NoMemory>
    ensures widens { Widens units.old units.new }
    ensures one { IfOk result (λ _. length units.new.units ≡ length units.old.units + 1) }
    ensures ordered { IfOk result (λ _. (os : phrases.Children) → Holds units.old own os → IsOrdered units.new) }
    ensures builds { IfOk result (λ _. (os : phrases.Children) → Holds units.old own os
        → Stands units.new (UnitRef (length units.old.units) ∷ []) (phrases.named_tree (phrases.OfUnit kind) (lexeme tokens.now.source name) os ∷ [])) }
{
    let text = Name::new(alloc, text(tokens, name))?;
    let Children {
        exprs,
        stmts,
        decls,
        aspects,
    } = own;
    let unit = Unit {
        span: name.span,
        kind,
        name: Some(text),
        exprs,
        stmts,
        decls,
        aspects,
    };
    append(&mut units.units, unit)?;
    Ok(())
}

/// Adds an expression that was built, behind what was read before it.
pub fn add_expr(number: ExprNo, into: &mut Children) -> Result<(), NoMemory>
    ensures { IfOk result (λ _. (u : Units) (ds : phrases.Children) (t : phrases.Tree) → Holds u into.old ds → Stands u (ExprRef number ∷ []) (t ∷ [])
        → Holds u into.new (phrases.with_expr ds t)) }
{
    into.exprs.push(number)?;
    Ok(())
}

/// Adds the name behind an `end`.
pub fn add_end_name(
    alloc: Global,
    units: &mut Units,
    tokens: &Tokens,
    name: Token,
    into: &mut Children,
) -> Result<(), NoMemory>
    ensures grows { Grows units.old units.new }
    ensures builds { IfOk result (λ _. (ds : phrases.Children) → Holds units.old into.old ds
        → Holds units.new into.new (phrases.with_expr ds (phrases.end_name (lexeme tokens.now.source name)))) }
{
    let node = add_named(
        alloc,
        &mut units.exprs,
        tokens,
        Form::Simple,
        ExprKind::EndName,
        name,
        name.span,
        Items::new(alloc),
    )?;
    add_expr(node.node, into)?;
    Ok(())
}
