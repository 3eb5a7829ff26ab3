//! The forms of expressions: a node with its children by name.
ghost use Rattle.std.specs.Prelude.{◌≡◌, ◌<◌, All, map, Some};
ghost use Rattle.spark_base.specs.declared.numbers.ExprNo.{ExprNo as Number};
ghost use Rattle.spark_base.specs.declared.numbers.Pos.{Pos as Place};
ghost use Rattle.ada_forms.specs.declared.forms.ExprForm.TheVariants.{Absent as absent_form};
ghost use Rattle.ada_forms.specs.Forms as forms;
ghost use Rattle.ada_forms.specs.Forms.{AreBelow, Expr as Tree, expr_of, form_tree};

use ada_tree::{
    AddingOperator, ExprKind, ExprNode, LogicalOperator, MultiplyingOperator, RelationalOperator,
    Units,
};
use spark_base::{ExprNo, Name, Pos};

/// An operator between two operands.
#[derive(Clone, Copy, Debug)]
pub enum BinaryOperator {
    Logical(LogicalOperator),
    Relation(RelationalOperator),
    Sum(AddingOperator),
    Product(MultiplyingOperator),
    Power,
}

/// An operator before its operand.
#[derive(Clone, Copy, Debug)]
pub enum UnaryOperator {
    Sign(AddingOperator),
    Absolute,
    Not,
}

/// A node with its children by name. A list has what stands behind the first.
#[derive(Clone, Copy, Debug)]
pub enum ExprForm<'a> {
    Number(u128),
    Identifier(&'a Name),
    Selected {
        name: &'a Name,
        prefix: ExprNo,
    },
    Applied {
        prefix: ExprNo,
        arguments: &'a [ExprNo],
    },
    Attribute {
        name: &'a Name,
        prefix: ExprNo,
        arguments: &'a [ExprNo],
    },
    RangeAttribute {
        prefix: ExprNo,
        arguments: &'a [ExprNo],
    },
    Qualified {
        mark: ExprNo,
        value: ExprNo,
    },
    Argument {
        value: ExprNo,
    },
    NamedArgument {
        formal: ExprNo,
        value: ExprNo,
    },
    Parenthesized {
        inner: ExprNo,
    },
    Unary {
        operator: UnaryOperator,
        operand: ExprNo,
    },
    Binary {
        operator: BinaryOperator,
        place: Pos,
        left: ExprNo,
        right: ExprNo,
    },
    InRange {
        is_not: bool,
        value: ExprNo,
        low: ExprNo,
        high: ExprNo,
    },
    InMark {
        is_not: bool,
        value: ExprNo,
        mark: ExprNo,
    },
    /// Behind the first condition values and conditions in turn, and the last value.
    Conditional {
        condition: ExprNo,
        rest: &'a [ExprNo],
    },
    Positional {
        has_others: bool,
        first: ExprNo,
        rest: &'a [ExprNo],
    },
    /// Associations.
    Named {
        first: ExprNo,
        rest: &'a [ExprNo],
    },
    /// Choices, and last the value.
    Association {
        first: ExprNo,
        rest: &'a [ExprNo],
    },
    ValueChoice {
        value: ExprNo,
    },
    RangeChoice {
        low: ExprNo,
        high: ExprNo,
    },
    OthersChoice,
    Indication {
        mark: ExprNo,
    },
    Constrained {
        mark: ExprNo,
        low: ExprNo,
        high: ExprNo,
    },
    SubtypeRange {
        subtype: ExprNo,
    },
    BoundsRange {
        low: ExprNo,
        high: ExprNo,
    },
    AttributeRange {
        attribute: ExprNo,
    },
    EndName(&'a Name),
    /// A node of another shape, or none.
    Absent,
}

/// A form, and where its name stands, or else its first token.
#[derive(Clone, Copy, Debug)]
pub struct FormedExpr<'a> {
    pub at: Pos,
    pub form: ExprForm<'a>,
}

fn number<'a>(n: u128, e: ExprNo, children: &'a [ExprNo]) -> ExprForm<'a>
    requires children { All (λ (c : Number). c.0 < e.0) children.now }
    ensures tree { (tree : Number → Tree) (at : Place) → form_tree tree e at result ≡ forms.none e (forms.Number e at n) (map tree children.now) }
    ensures below { AreBelow e.0 result }
{
    match children {
        [] => ExprForm::Number(n),
        _ => ExprForm::Absent,
    }
}

fn others<'a>(e: ExprNo, children: &'a [ExprNo]) -> ExprForm<'a>
    requires children { All (λ (c : Number). c.0 < e.0) children.now }
    ensures tree { (tree : Number → Tree) (at : Place) → form_tree tree e at result ≡ forms.none e (forms.OthersChoice e at) (map tree children.now) }
    ensures below { AreBelow e.0 result }
{
    match children {
        [] => ExprForm::OthersChoice,
        _ => ExprForm::Absent,
    }
}

fn identifier<'a>(name: &'a Option<Name>, e: ExprNo, children: &'a [ExprNo]) -> ExprForm<'a>
    requires children { All (λ (c : Number). c.0 < e.0) children.now }
    ensures tree { (tree : Number → Tree) (at : Place) → form_tree tree e at result ≡ forms.named_none e (forms.Identifier e at) name.now (map tree children.now) }
    ensures below { AreBelow e.0 result }
{
    match name {
        None => ExprForm::Absent,
        Some(name) => match children {
            [] => ExprForm::Identifier(name),
            _ => ExprForm::Absent,
        },
    }
}

fn end_name<'a>(name: &'a Option<Name>, e: ExprNo, children: &'a [ExprNo]) -> ExprForm<'a>
    requires children { All (λ (c : Number). c.0 < e.0) children.now }
    ensures tree { (tree : Number → Tree) (at : Place) → form_tree tree e at result ≡ forms.named_none e (forms.EndName e at) name.now (map tree children.now) }
    ensures below { AreBelow e.0 result }
{
    match name {
        None => ExprForm::Absent,
        Some(name) => match children {
            [] => ExprForm::EndName(name),
            _ => ExprForm::Absent,
        },
    }
}

fn selected<'a>(name: &'a Option<Name>, e: ExprNo, children: &'a [ExprNo]) -> ExprForm<'a>
    requires children { All (λ (c : Number). c.0 < e.0) children.now }
    ensures tree { (tree : Number → Tree) (at : Place) → form_tree tree e at result ≡ forms.named_one e (forms.Selected e at) name.now (map tree children.now) }
    ensures below { AreBelow e.0 result }
{
    match name {
        None => ExprForm::Absent,
        Some(name) => match children {
            [prefix] => ExprForm::Selected {
                name,
                prefix: *prefix,
            },
            _ => ExprForm::Absent,
        },
    }
}

fn attribute<'a>(name: &'a Option<Name>, e: ExprNo, children: &'a [ExprNo]) -> ExprForm<'a>
    requires children { All (λ (c : Number). c.0 < e.0) children.now }
    ensures tree { (tree : Number → Tree) (at : Place) → form_tree tree e at result ≡ forms.named_some e (forms.Attribute e at) name.now (map tree children.now) }
    ensures below { AreBelow e.0 result }
{
    match name {
        None => ExprForm::Absent,
        Some(name) => match children {
            [prefix, arguments @ ..] => ExprForm::Attribute {
                name,
                prefix: *prefix,
                arguments,
            },
            _ => ExprForm::Absent,
        },
    }
}

fn applied<'a>(e: ExprNo, children: &'a [ExprNo]) -> ExprForm<'a>
    requires children { All (λ (c : Number). c.0 < e.0) children.now }
    ensures tree { (tree : Number → Tree) (at : Place) → form_tree tree e at result ≡ forms.some e (forms.Applied e at) (map tree children.now) }
    ensures below { AreBelow e.0 result }
{
    match children {
        [prefix, arguments @ ..] => ExprForm::Applied {
            prefix: *prefix,
            arguments,
        },
        _ => ExprForm::Absent,
    }
}

fn range_attribute<'a>(e: ExprNo, children: &'a [ExprNo]) -> ExprForm<'a>
    requires children { All (λ (c : Number). c.0 < e.0) children.now }
    ensures tree { (tree : Number → Tree) (at : Place) → form_tree tree e at result ≡ forms.some e (forms.RangeAttribute e at) (map tree children.now) }
    ensures below { AreBelow e.0 result }
{
    match children {
        [prefix, arguments @ ..] => ExprForm::RangeAttribute {
            prefix: *prefix,
            arguments,
        },
        _ => ExprForm::Absent,
    }
}

fn conditional<'a>(e: ExprNo, children: &'a [ExprNo]) -> ExprForm<'a>
    requires children { All (λ (c : Number). c.0 < e.0) children.now }
    ensures tree { (tree : Number → Tree) (at : Place) → form_tree tree e at result ≡ forms.some e (forms.Conditional e at) (map tree children.now) }
    ensures below { AreBelow e.0 result }
{
    match children {
        [condition, rest @ ..] => ExprForm::Conditional {
            condition: *condition,
            rest,
        },
        _ => ExprForm::Absent,
    }
}

fn positional<'a>(has_others: bool, e: ExprNo, children: &'a [ExprNo]) -> ExprForm<'a>
    requires children { All (λ (c : Number). c.0 < e.0) children.now }
    ensures tree { (tree : Number → Tree) (at : Place) → form_tree tree e at result ≡ forms.some e (forms.Positional e at has_others) (map tree children.now) }
    ensures below { AreBelow e.0 result }
{
    match children {
        [first, rest @ ..] => ExprForm::Positional {
            has_others,
            first: *first,
            rest,
        },
        _ => ExprForm::Absent,
    }
}

fn named<'a>(e: ExprNo, children: &'a [ExprNo]) -> ExprForm<'a>
    requires children { All (λ (c : Number). c.0 < e.0) children.now }
    ensures tree { (tree : Number → Tree) (at : Place) → form_tree tree e at result ≡ forms.some e (forms.Named e at) (map tree children.now) }
    ensures below { AreBelow e.0 result }
{
    match children {
        [first, rest @ ..] => ExprForm::Named {
            first: *first,
            rest,
        },
        _ => ExprForm::Absent,
    }
}

fn association<'a>(e: ExprNo, children: &'a [ExprNo]) -> ExprForm<'a>
    requires children { All (λ (c : Number). c.0 < e.0) children.now }
    ensures tree { (tree : Number → Tree) (at : Place) → form_tree tree e at result ≡ forms.some e (forms.Association e at) (map tree children.now) }
    ensures below { AreBelow e.0 result }
{
    match children {
        [first, rest @ ..] => ExprForm::Association {
            first: *first,
            rest,
        },
        _ => ExprForm::Absent,
    }
}

fn qualified<'a>(e: ExprNo, children: &'a [ExprNo]) -> ExprForm<'a>
    requires children { All (λ (c : Number). c.0 < e.0) children.now }
    ensures tree { (tree : Number → Tree) (at : Place) → form_tree tree e at result ≡ forms.two e (forms.Qualified e at) (map tree children.now) }
    ensures below { AreBelow e.0 result }
{
    match children {
        [mark, value] => ExprForm::Qualified {
            mark: *mark,
            value: *value,
        },
        _ => ExprForm::Absent,
    }
}

fn parenthesized<'a>(e: ExprNo, children: &'a [ExprNo]) -> ExprForm<'a>
    requires children { All (λ (c : Number). c.0 < e.0) children.now }
    ensures tree { (tree : Number → Tree) (at : Place) → form_tree tree e at result ≡ forms.one e (forms.Parenthesized e at) (map tree children.now) }
    ensures below { AreBelow e.0 result }
{
    match children {
        [inner] => ExprForm::Parenthesized { inner: *inner },
        _ => ExprForm::Absent,
    }
}

fn unary<'a>(operator: UnaryOperator, e: ExprNo, children: &'a [ExprNo]) -> ExprForm<'a>
    requires children { All (λ (c : Number). c.0 < e.0) children.now }
    ensures tree { (tree : Number → Tree) (at : Place) → form_tree tree e at result ≡ forms.one e (forms.Unary e at operator) (map tree children.now) }
    ensures below { AreBelow e.0 result }
{
    match children {
        [operand] => ExprForm::Unary {
            operator,
            operand: *operand,
        },
        _ => ExprForm::Absent,
    }
}

fn binary<'a>(
    operator: BinaryOperator,
    place: Pos,
    e: ExprNo,
    children: &'a [ExprNo],
) -> ExprForm<'a>
    requires children { All (λ (c : Number). c.0 < e.0) children.now }
    ensures tree { (tree : Number → Tree) (at : Place) → form_tree tree e at result ≡ forms.two e (forms.Binary e at operator place) (map tree children.now) }
    ensures below { AreBelow e.0 result }
{
    match children {
        [left, right] => ExprForm::Binary {
            operator,
            place,
            left: *left,
            right: *right,
        },
        _ => ExprForm::Absent,
    }
}

fn in_range<'a>(is_not: bool, e: ExprNo, children: &'a [ExprNo]) -> ExprForm<'a>
    requires children { All (λ (c : Number). c.0 < e.0) children.now }
    ensures tree { (tree : Number → Tree) (at : Place) → form_tree tree e at result ≡ forms.three e (forms.InRange e at is_not) (map tree children.now) }
    ensures below { AreBelow e.0 result }
{
    match children {
        [value, low, high] => ExprForm::InRange {
            is_not,
            value: *value,
            low: *low,
            high: *high,
        },
        _ => ExprForm::Absent,
    }
}

fn in_mark<'a>(is_not: bool, e: ExprNo, children: &'a [ExprNo]) -> ExprForm<'a>
    requires children { All (λ (c : Number). c.0 < e.0) children.now }
    ensures tree { (tree : Number → Tree) (at : Place) → form_tree tree e at result ≡ forms.two e (forms.InMark e at is_not) (map tree children.now) }
    ensures below { AreBelow e.0 result }
{
    match children {
        [value, mark] => ExprForm::InMark {
            is_not,
            value: *value,
            mark: *mark,
        },
        _ => ExprForm::Absent,
    }
}

fn value_choice<'a>(e: ExprNo, children: &'a [ExprNo]) -> ExprForm<'a>
    requires children { All (λ (c : Number). c.0 < e.0) children.now }
    ensures tree { (tree : Number → Tree) (at : Place) → form_tree tree e at result ≡ forms.one e (forms.ValueChoice e at) (map tree children.now) }
    ensures below { AreBelow e.0 result }
{
    match children {
        [value] => ExprForm::ValueChoice { value: *value },
        _ => ExprForm::Absent,
    }
}

fn range_choice<'a>(e: ExprNo, children: &'a [ExprNo]) -> ExprForm<'a>
    requires children { All (λ (c : Number). c.0 < e.0) children.now }
    ensures tree { (tree : Number → Tree) (at : Place) → form_tree tree e at result ≡ forms.two e (forms.RangeChoice e at) (map tree children.now) }
    ensures below { AreBelow e.0 result }
{
    match children {
        [low, high] => ExprForm::RangeChoice {
            low: *low,
            high: *high,
        },
        _ => ExprForm::Absent,
    }
}

fn subtype_range<'a>(e: ExprNo, children: &'a [ExprNo]) -> ExprForm<'a>
    requires children { All (λ (c : Number). c.0 < e.0) children.now }
    ensures tree { (tree : Number → Tree) (at : Place) → form_tree tree e at result ≡ forms.one e (forms.SubtypeRange e at) (map tree children.now) }
    ensures below { AreBelow e.0 result }
{
    match children {
        [subtype] => ExprForm::SubtypeRange { subtype: *subtype },
        _ => ExprForm::Absent,
    }
}

fn bounds_range<'a>(e: ExprNo, children: &'a [ExprNo]) -> ExprForm<'a>
    requires children { All (λ (c : Number). c.0 < e.0) children.now }
    ensures tree { (tree : Number → Tree) (at : Place) → form_tree tree e at result ≡ forms.two e (forms.BoundsRange e at) (map tree children.now) }
    ensures below { AreBelow e.0 result }
{
    match children {
        [low, high] => ExprForm::BoundsRange {
            low: *low,
            high: *high,
        },
        _ => ExprForm::Absent,
    }
}

fn attribute_range<'a>(e: ExprNo, children: &'a [ExprNo]) -> ExprForm<'a>
    requires children { All (λ (c : Number). c.0 < e.0) children.now }
    ensures tree { (tree : Number → Tree) (at : Place) → form_tree tree e at result ≡ forms.one e (forms.AttributeRange e at) (map tree children.now) }
    ensures below { AreBelow e.0 result }
{
    match children {
        [attribute] => ExprForm::AttributeRange {
            attribute: *attribute,
        },
        _ => ExprForm::Absent,
    }
}

fn argument<'a>(e: ExprNo, children: &'a [ExprNo]) -> ExprForm<'a>
    requires children { All (λ (c : Number). c.0 < e.0) children.now }
    ensures tree { (tree : Number → Tree) (at : Place) → form_tree tree e at result ≡ forms.one_or_two e (forms.Argument e at) (forms.NamedArgument e at) (map tree children.now) }
    ensures below { AreBelow e.0 result }
{
    match children {
        [value] => ExprForm::Argument { value: *value },
        [formal, value] => ExprForm::NamedArgument {
            formal: *formal,
            value: *value,
        },
        _ => ExprForm::Absent,
    }
}

fn indication<'a>(e: ExprNo, children: &'a [ExprNo]) -> ExprForm<'a>
    requires children { All (λ (c : Number). c.0 < e.0) children.now }
    ensures tree { (tree : Number → Tree) (at : Place) → form_tree tree e at result ≡ forms.one_or_three e (forms.Indication e at) (forms.Constrained e at) (map tree children.now) }
    ensures below { AreBelow e.0 result }
{
    match children {
        [mark] => ExprForm::Indication { mark: *mark },
        [mark, low, high] => ExprForm::Constrained {
            mark: *mark,
            low: *low,
            high: *high,
        },
        _ => ExprForm::Absent,
    }
}

fn form_of_kind<'a>(
    kind: ExprKind,
    name: &'a Option<Name>,
    e: ExprNo,
    children: &'a [ExprNo],
) -> ExprForm<'a>
    requires children { All (λ (c : Number). c.0 < e.0) children.now }
    ensures tree { (tree : Number → Tree) (at : Place) → form_tree tree e at result ≡ forms.kind_tree e at name.now kind (map tree children.now) }
    ensures below { AreBelow e.0 result }
{
    match kind {
        ExprKind::Logical { operator, place } => binary(
            BinaryOperator::Logical(operator),
            place,
            e,
            children,
        ),
        ExprKind::Relation { operator, place } => binary(
            BinaryOperator::Relation(operator),
            place,
            e,
            children,
        ),
        ExprKind::RangeMembership { is_not } => in_range(is_not, e, children),
        ExprKind::MarkMembership { is_not } => in_mark(is_not, e, children),
        ExprKind::Sign { operator } => unary(UnaryOperator::Sign(operator), e, children),
        ExprKind::Sum { operator, place } => binary(
            BinaryOperator::Sum(operator),
            place,
            e,
            children,
        ),
        ExprKind::Product { operator, place } => binary(
            BinaryOperator::Product(operator),
            place,
            e,
            children,
        ),
        ExprKind::Power { place } => binary(BinaryOperator::Power, place, e, children),
        ExprKind::Absolute => unary(UnaryOperator::Absolute, e, children),
        ExprKind::Not => unary(UnaryOperator::Not, e, children),
        ExprKind::Number(n) => number(n, e, children),
        ExprKind::Parenthesized => parenthesized(e, children),
        ExprKind::Conditional => conditional(e, children),
        ExprKind::PositionalAggregate { has_others } => positional(has_others, e, children),
        ExprKind::NamedAggregate => named(e, children),
        ExprKind::Association => association(e, children),
        ExprKind::Identifier => identifier(name, e, children),
        ExprKind::Selected => selected(name, e, children),
        ExprKind::Applied => applied(e, children),
        ExprKind::Attribute { .. } => attribute(name, e, children),
        ExprKind::RangeAttribute { .. } => range_attribute(e, children),
        ExprKind::Qualified => qualified(e, children),
        ExprKind::Argument { .. } => argument(e, children),
        ExprKind::SubtypeIndication { .. } => indication(e, children),
        ExprKind::SubtypeRange => subtype_range(e, children),
        ExprKind::BoundsRange => bounds_range(e, children),
        ExprKind::AttributeRange => attribute_range(e, children),
        ExprKind::ValueChoice => value_choice(e, children),
        ExprKind::RangeChoice => range_choice(e, children),
        ExprKind::OthersChoice => others(e, children),
        ExprKind::EndName => end_name(name, e, children),
    }
}

/// Whether children have smaller numbers than their node.
fn are_below(e: ExprNo, children: &[ExprNo]) -> bool
    ensures { result ≡ forms.are_below e children.now }
{
    children.iter().all(|c| c.0 < e.0)
}

fn absent<'a>() -> FormedExpr<'a>
    ensures { result.form ≡ absent_form }
{
    FormedExpr {
        at: Pos { line: 1, col: 1 },
        form: ExprForm::Absent,
    }
}

fn form_of_node<'a>(e: ExprNo, node: &'a ExprNode) -> FormedExpr<'a>
    ensures tree { (tree : Number → Tree) → form_tree tree e result.at result.form ≡ forms.node_tree tree e (forms.sound e (Some node.now)) }
    ensures below { AreBelow e.0 result.form }
{
    let children = node.exprs.as_slice();
    if are_below(e, children) {
        FormedExpr {
            at: node.span.from,
            form: form_of_kind(node.kind, &node.name, e, children),
        }
    } else {
        absent()
    }
}

/// The form of an expression: absent where there is no node, and where a child has no smaller number than the node.
#[tactic(auto, using(crate::proofs::Trees::expr_unfolds))]
pub fn expr_form<'a>(units: &'a Units, e: ExprNo) -> FormedExpr<'a>
    ensures tree { expr_of units.now.exprs e ≡ form_tree (expr_of units.now.exprs) e result.at result.form }
    ensures below { AreBelow e.0 result.form }
{
    match units.exprs.get(e.0 as usize) {
        None => absent(),
        Some(node) => form_of_node(e, node),
    }
}
