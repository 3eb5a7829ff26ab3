use spark_base::{ExprNo, Items, Name, Pos, Span};

/// An expression, or what stands in one place with expressions: a range, a choice, an argument, the name of what ends or
/// of the loop that is left. The item of an aspect is the node of its name, and so is a mark, which is a name of words
/// and points alone. Its children are expressions, in the order of the source.
#[derive(Debug, Drop)]
pub struct ExprNode {
    /// Where the name stands, if the node has one: of `P.N` and `P'N` the `N` alone, since the prefix is a node of its own.
    /// Else all that the node was read from.
    pub span: Span,
    pub kind: ExprKind,
    /// What the node uses: of several parted by points the last.
    pub name: Option<Name>,
    pub exprs: Items<ExprNo>,
}

/// An operator between truth values, or between modular numbers bit by bit.
#[derive(Clone, Copy, Debug)]
pub enum LogicalOperator {
    And,
    Or,
    Xor,
    AndThen,
    OrElse,
}

/// An operator that compares.
#[derive(Clone, Copy, Debug)]
pub enum RelationalOperator {
    Equal,
    NotEqual,
    Less,
    AtMost,
    Greater,
    AtLeast,
}

/// A plus or a minus, before a term or between two.
#[derive(Clone, Copy, Debug)]
pub enum AddingOperator {
    Plus,
    Minus,
}

/// An operator of a product.
#[derive(Clone, Copy, Debug)]
pub enum MultiplyingOperator {
    Times,
    Divide,
    Mod,
    Rem,
}

/// What an expression is. A chain of operators groups from the left: in `A - B - C`
/// the left operand is `A - B`. A `place` is the operator's.
#[derive(Clone, Copy, Debug)]
pub enum ExprKind {
    /// `A and B` and the like: the left operand and the right.
    Logical {
        operator: LogicalOperator,
        place: Pos,
    },
    /// `A < B` and the like: the left operand and the right.
    Relation {
        operator: RelationalOperator,
        place: Pos,
    },
    /// `A not in L .. H`: the value, the low bound and the high bound.
    RangeMembership {
        is_not: bool,
    },
    /// `A not in M`: the value and the mark.
    MarkMembership {
        is_not: bool,
    },
    /// `- A` or `+ A` before the first term of a sum: the term.
    Sign {
        operator: AddingOperator,
    },
    /// `A + B` or `A - B`: the left operand and the right.
    Sum {
        operator: AddingOperator,
        place: Pos,
    },
    /// `A * B` and the like: the left operand and the right.
    Product {
        operator: MultiplyingOperator,
        place: Pos,
    },
    /// `A ** B`: the base and the exponent.
    Power {
        place: Pos,
    },
    /// `abs A`: the operand.
    Absolute,
    /// `not A`: the operand.
    Not,
    /// A number, by its value. No children.
    Number(u128),
    /// `(A)`: what stands in the parentheses, an expression or a conditional one.
    Parenthesized,
    /// `if C then A elsif C then A else A`, within its parentheses: each condition and its value, and the last value.
    Conditional,
    /// `(A, B, others => E)`: the values, two at least, and that of `others`.
    PositionalAggregate {
        has_others: bool,
    },
    /// `(C => A, C | C => B)`: the associations.
    NamedAggregate,
    /// `C | C => A` in an aggregate: the choices and the value.
    Association,
    /// `N` that begins a name. No children.
    Identifier,
    /// `P.N`: the prefix.
    Selected,
    /// `P (A, A)`: the prefix and the arguments.
    Applied,
    /// `P'N (A, A)`: the prefix, and the arguments.
    Attribute {
        has_arguments: bool,
    },
    /// `P'Range (A, A)`, without a name: the prefix, and the arguments.
    RangeAttribute {
        has_arguments: bool,
    },
    /// `P'(A)`: the prefix, and an aggregate or an expression within its parentheses.
    Qualified,
    /// `N => A` or `A` among arguments: the name of the formal, and the value.
    Argument {
        has_formal: bool,
    },
    /// `M range L .. H`: the mark, and the low bound and the high bound.
    SubtypeIndication {
        has_range: bool,
    },
    /// A discrete range that is a subtype: its indication.
    SubtypeRange,
    /// A discrete range `L .. H`: the low bound and the high bound.
    BoundsRange,
    /// A discrete range `P'Range`: the attribute.
    AttributeRange,
    /// A choice that is an expression: this.
    ValueChoice,
    /// A choice `L .. H`: the low bound and the high bound.
    RangeChoice,
    /// The choice `others`. No children.
    OthersChoice,
    /// The name behind an `end`, or that of the loop behind an `exit`. No children.
    EndName,
}
