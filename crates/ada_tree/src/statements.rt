use spark_base::{AspectNo, DeclNo, ExprNo, Items, Name, Span, StmtNo};

/// A statement or a part of one. Each of the lists has the children of its type, in the order of the source.
#[derive(Debug, Drop)]
pub struct StmtNode {
    /// Its first token; of a loop or a block the first behind the label.
    pub span: Span,
    pub kind: StmtKind,
    /// None: a label is a declaration, and an end name or the loop that an exit names is an expression.
    pub name: Option<Name>,
    pub exprs: Items<ExprNo>,
    pub stmts: Items<StmtNo>,
    pub decls: Items<DeclNo>,
    pub aspects: Items<AspectNo>,
}

/// What a statement is.
#[derive(Clone, Copy, Debug)]
pub enum StmtKind {
    /// Statements one behind the other, one at least. Statements: those.
    Sequence,
    /// `null;`
    Null,
    /// `N := E;` Expressions: the target and the value.
    Assignment,
    /// `N;` Expressions: the name of what is called, with its arguments.
    Call,
    /// `if E then S elsif E then S else S end if;`
    ///
    /// Expressions: the conditions. Statements: a sequence for each, and that of `else`.
    If {
        has_else: bool,
    },
    /// `case E is A end case;` Expressions: the selector. Statements: the alternatives.
    Case,
    /// `when C | C => S` of a case. Expressions: the choices. Statements: one sequence.
    Alternative,
    /// `L : loop S end loop L;`
    ///
    /// Declarations: the label's name. Expressions: the end name. Statements: one sequence.
    Loop {
        has_label: bool,
        has_end_name: bool,
    },
    /// `L : while E loop S end loop L;`
    ///
    /// Declarations: the label's name. Expressions: the condition, and the end name. Statements: one sequence.
    While {
        has_label: bool,
        has_end_name: bool,
    },
    /// `L : for N in R loop S end loop L;`
    ///
    /// Declarations: the label's name, and the loop's parameter. Expressions: the end name. Statements: one sequence.
    For {
        has_label: bool,
        has_end_name: bool,
    },
    /// `L : declare D begin S end L;`
    ///
    /// Declarations: the label's name, and the local ones. Expressions: the end name. Statements: one sequence.
    Block {
        has_label: bool,
        has_declare: bool,
        has_end_name: bool,
    },
    /// `exit L when E;` Expressions: the name of the loop, and the condition.
    Exit {
        has_loop_name: bool,
        has_condition: bool,
    },
    /// `return E;` Expressions: the value.
    Return {
        has_value: bool,
    },
    /// `delay until E;` Expressions: the time.
    DelayUntil,
}
