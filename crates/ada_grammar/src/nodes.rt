ghost use Rattle.std.specs.Prelude.{◌≡◌, ◌<◌, [], ◌∷◌, length, IfOk, OnErr};
ghost use Rattle.ada_grammar.specs.Built.{Adds, AreBelow, Extends, phrase, tree_at, trees, trees_at};
ghost use Rattle.ada_grammar.specs.Lexemes.{lexeme, text_of};
ghost use Rattle.ada_grammar.specs.Phrases as phrases;

use ada_tree::{
    AddingOperator, ExprKind, ExprNode, Mark, MultiplyingOperator, RelationalOperator, Reserved,
    Token, TokenKind, Tokens,
};
use spark_base::{ExprNo, Items, Name, NoMemory, Span};
use std::alloc::Global;

/// What an expression may be taken for.
#[derive(Clone, Copy, Debug, PartialEq, Eq)]
pub enum Form {
    /// A word alone.
    Identifier,
    /// Words parted by points, two at least.
    Mark,
    /// `P'Range` without arguments.
    RangeAttribute,
    /// Another simple expression, or what is no expression.
    Simple,
    /// A relation, a membership or a chain of them.
    Relation,
}

/// A node that was built, and all that it was read from.
#[derive(Clone, Copy, Debug)]
pub struct Built {
    pub node: ExprNo,
    pub span: Span,
    pub form: Form,
}

/// From the beginning of the one to the end of the other.
pub fn join(a: Span, b: Span) -> Span
    ensures { result ≡ phrases.join a b }
{
    Span {
        file: a.file,
        from: a.from,
        to: b.to,
    }
}

/// Whether it is words parted by points.
pub fn is_mark(form: Form) -> bool
    ensures { result ≡ phrases.is_mark form }
{
    match form {
        Form::Identifier | Form::Mark => true,
        _ => false,
    }
}

/// Whether it is a word alone.
pub fn is_identifier(form: Form) -> bool
    ensures { result ≡ phrases.is_identifier form }
{
    match form {
        Form::Identifier => true,
        _ => false,
    }
}

/// Whether it is a Range attribute without arguments.
pub fn is_range(form: Form) -> bool
    ensures { result ≡ phrases.is_range form }
{
    match form {
        Form::RangeAttribute => true,
        _ => false,
    }
}

/// What a selection from this may be taken for.
pub fn selected_form(form: Form) -> Form
    ensures { result ≡ phrases.selected_form form }
{
    match form {
        Form::Identifier | Form::Mark => Form::Mark,
        _ => Form::Simple,
    }
}

/// The operator that a token is, if it is one that compares, and else `Equal`.
pub fn relational_of(kind: TokenKind) -> RelationalOperator
    ensures { result ≡ phrases.relational_of kind }
{
    match kind {
        TokenKind::Mark(Mark::NotEqual) => RelationalOperator::NotEqual,
        TokenKind::Mark(Mark::Less) => RelationalOperator::Less,
        TokenKind::Mark(Mark::AtMost) => RelationalOperator::AtMost,
        TokenKind::Mark(Mark::Greater) => RelationalOperator::Greater,
        TokenKind::Mark(Mark::AtLeast) => RelationalOperator::AtLeast,
        _ => RelationalOperator::Equal,
    }
}

/// `Minus` for the mark, and else `Plus`.
pub fn adding_of(kind: TokenKind) -> AddingOperator
    ensures { result ≡ phrases.adding_of kind }
{
    match kind {
        TokenKind::Mark(Mark::Minus) => AddingOperator::Minus,
        _ => AddingOperator::Plus,
    }
}

/// The operator of a product that a token is, if it is one, and else `Times`.
pub fn multiplying_of(kind: TokenKind) -> MultiplyingOperator
    ensures { result ≡ phrases.multiplying_of kind }
{
    match kind {
        TokenKind::Mark(Mark::Slash) => MultiplyingOperator::Divide,
        TokenKind::Reserved(Reserved::Mod) => MultiplyingOperator::Mod,
        TokenKind::Reserved(Reserved::Rem) => MultiplyingOperator::Rem,
        _ => MultiplyingOperator::Times,
    }
}

/// The value of a number, and of any other token 0.
pub fn number_of(kind: TokenKind) -> u128
    ensures { result ≡ phrases.number_of kind }
{
    match kind {
        TokenKind::Number(value) => value,
        _ => 0,
    }
}

/// How a token is written; of places that the source does not have, nothing.
pub fn text<'a>(tokens: &'a Tokens, token: Token) -> &'a [u8]
    ensures { result.now ≡ text_of tokens.now.source token }
{
    let source = tokens.source.as_slice();
    let from = token.from as usize;
    let to = token.to as usize;
    if from <= to && to <= source.len() {
        &source[from..to]
    } else {
        &[]
    }
}

/// Adds a node behind its children. More nodes than 32-bit numbers can name are want of memory.
fn add(exprs: &mut Items<ExprNode>, node: ExprNode) -> Result<ExprNo, NoMemory>
    requires below { AreBelow (length exprs.old) node.exprs }
    ensures extends { Extends exprs.old exprs.new }
    ensures adds { IfOk result (λ n. Adds exprs.old exprs.new node n) }
    ensures err { OnErr result (exprs.new ≡ exprs.old) }
{
    if exprs.len() >= u32::MAX as usize {
        return Err(NoMemory);
    }
    let number = ExprNo(exprs.len() as u32);
    exprs.push(node)?;
    Ok(number)
}

/// Adds a node without a name, which stands where all of it stands.
pub fn add_node(
    exprs: &mut Items<ExprNode>,
    form: Form,
    kind: ExprKind,
    span: Span,
    children: Items<ExprNo>,
) -> Result<Built, NoMemory>
    requires below { AreBelow (length (trees exprs.old)) children }
    ensures extends { Extends exprs.old exprs.new }
    ensures within { IfOk result (λ x. x.node.0 < length (trees exprs.new)) }
    ensures builds { IfOk result (λ x. phrase (trees exprs.new) x ≡ phrases.node form kind span (trees_at (trees exprs.old) children)) }
    ensures err { OnErr result (exprs.new ≡ exprs.old) }
{
    let node = add(
        exprs,
        ExprNode {
            span,
            kind,
            name: None,
            exprs: children,
        },
    )?;
    Ok(Built { node, span, form })
}

/// Adds a node with the name that a token has, of which all stands at this span.
pub fn add_named(
    alloc: Global,
    exprs: &mut Items<ExprNode>,
    tokens: &Tokens,
    form: Form,
    kind: ExprKind,
    token: Token,
    span: Span,
    children: Items<ExprNo>,
) -> Result<Built, NoMemory>
    requires below { AreBelow (length (trees exprs.old)) children }
    ensures extends { Extends exprs.old exprs.new }
    ensures within { IfOk result (λ x. x.node.0 < length (trees exprs.new)) }
    ensures builds { IfOk result (λ x. phrase (trees exprs.new) x ≡ phrases.named form kind (lexeme tokens.now.source token) span (trees_at (trees exprs.old) children)) }
    ensures err { OnErr result (exprs.new ≡ exprs.old) }
{
    let name = Name::new(alloc, text(tokens, token))?;
    let node = add(
        exprs,
        ExprNode {
            span: token.span,
            kind,
            name: Some(name),
            exprs: children,
        },
    )?;
    Ok(Built { node, span, form })
}

/// Adds a node without a name over one other.
pub fn add_one(
    alloc: Global,
    exprs: &mut Items<ExprNode>,
    form: Form,
    kind: ExprKind,
    span: Span,
    a: ExprNo,
) -> Result<Built, NoMemory>
    requires a { a.0 < length (trees exprs.old) }
    ensures extends { Extends exprs.old exprs.new }
    ensures within { IfOk result (λ x. x.node.0 < length (trees exprs.new)) }
    ensures builds { IfOk result (λ x. phrase (trees exprs.new) x ≡ phrases.node form kind span (tree_at (trees exprs.old) a ∷ [])) }
    ensures err { OnErr result (exprs.new ≡ exprs.old) }
{
    let children = vec![in alloc; a]?;
    add_node(exprs, form, kind, span, Items::from_vec(children))
}

/// Adds a node without a name over two others.
pub fn add_two(
    alloc: Global,
    exprs: &mut Items<ExprNode>,
    form: Form,
    kind: ExprKind,
    span: Span,
    a: ExprNo,
    b: ExprNo,
) -> Result<Built, NoMemory>
    requires a { a.0 < length (trees exprs.old) }
    requires b { b.0 < length (trees exprs.old) }
    ensures extends { Extends exprs.old exprs.new }
    ensures within { IfOk result (λ x. x.node.0 < length (trees exprs.new)) }
    ensures builds { IfOk result (λ x. phrase (trees exprs.new) x ≡ phrases.node form kind span (tree_at (trees exprs.old) a ∷ tree_at (trees exprs.old) b ∷ [])) }
    ensures err { OnErr result (exprs.new ≡ exprs.old) }
{
    let children = vec![in alloc; a, b]?;
    add_node(exprs, form, kind, span, Items::from_vec(children))
}

/// Adds a node without a name over three others.
pub fn add_three(
    alloc: Global,
    exprs: &mut Items<ExprNode>,
    form: Form,
    kind: ExprKind,
    span: Span,
    a: ExprNo,
    b: ExprNo,
    c: ExprNo,
) -> Result<Built, NoMemory>
    requires a { a.0 < length (trees exprs.old) }
    requires b { b.0 < length (trees exprs.old) }
    requires c { c.0 < length (trees exprs.old) }
    ensures extends { Extends exprs.old exprs.new }
    ensures within { IfOk result (λ x. x.node.0 < length (trees exprs.new)) }
    ensures builds { IfOk result (λ x. phrase (trees exprs.new) x ≡ phrases.node form kind span (tree_at (trees exprs.old) a ∷ tree_at (trees exprs.old) b ∷ tree_at (trees exprs.old) c ∷ [])) }
    ensures err { OnErr result (exprs.new ≡ exprs.old) }
{
    let children = vec![in alloc; a, b, c]?;
    add_node(exprs, form, kind, span, Items::from_vec(children))
}

/// One number.
pub fn one(alloc: Global, a: ExprNo) -> Result<Items<ExprNo>, NoMemory>
    ensures { IfOk result (λ all. all ≡ a ∷ []) }
{
    let all = vec![in alloc; a]?;
    Ok(Items::from_vec(all))
}

/// Two numbers.
pub fn two(alloc: Global, a: ExprNo, b: ExprNo) -> Result<Items<ExprNo>, NoMemory>
    ensures { IfOk result (λ all. all ≡ a ∷ b ∷ []) }
{
    let all = vec![in alloc; a, b]?;
    Ok(Items::from_vec(all))
}
