use spark_base::{AspectNo, DeclNo, ExprNo, Name, Shared, Span, StmtNo};

/// A declaration or a part of one. Each of the lists has the children of its type, in the order of the source; the names
/// of one declaration share them.
#[derive(Debug, Drop)]
pub struct DeclNode {
    /// Where the name stands, or else the first token.
    pub span: Span,
    pub kind: DeclKind,
    /// What the node declares. Each declared name has a node of its own.
    pub name: Option<Name>,
    pub exprs: Shared<ExprNo>,
    pub stmts: Shared<StmtNo>,
    pub decls: Shared<DeclNo>,
    pub aspects: Shared<AspectNo>,
}

/// The head of a subprogram. Its formals are the first declarations of the node that has it.
#[derive(Clone, Copy, Debug)]
pub enum Head {
    /// `procedure N (F)`
    Procedure { has_formals: bool },
    /// `function N (F) return M`
    ///
    /// The mark is the first expression of the node that has it.
    Function { has_formals: bool },
}

/// What a declaration is. Aspects are there where their list is not empty.
#[derive(Clone, Copy, Debug)]
pub enum DeclKind {
    /// `with U, U;` of a context, without a name. Expressions: the unit names.
    With,
    /// `use U, U;` or `use type U, U;` of a context, without a name. Expressions: the unit names.
    ContextUse {
        is_type: bool,
    },
    /// `use U, U;` or `use type U, U;` among declarations, without a name. Expressions: the unit names.
    Use {
        is_type: bool,
    },
    /// `private D`, without a name. Declarations: those of the part.
    PrivatePart,
    /// `type N is (L, L);` Declarations: the literals.
    EnumerationType,
    /// `N` in the list of an enumeration type.
    EnumerationLiteral,
    /// `type N is range E .. E;` Expressions: the low bound and the high bound.
    RangeType,
    /// `type N is mod E;` Expressions: the modulus.
    ModularType,
    /// `type N is array (R) of M;` Expressions: the discrete range and the mark.
    ArrayType,
    /// `type N is null record;`
    NullRecordType,
    /// `type N is private;`
    PrivateType,
    /// `type N is record C end record;` Declarations: the components.
    RecordType,
    /// `N : T := E;` of a record or a protected unit. Expressions: the subtype indication, and the preset.
    Component {
        has_preset: bool,
    },
    /// `subtype N is T;` Expressions: the subtype indication.
    Subtype,
    /// `N : constant T := E;` Expressions: the subtype indication, and the initial value.
    Object {
        is_constant: bool,
        has_initial_value: bool,
    },
    /// `N : constant := E;` Expressions: the value.
    NamedNumber,
    /// `N : in out M`. Expressions: the mark.
    Formal {
        is_in: bool,
        is_out: bool,
    },
    /// A head, then `is null` or nothing.
    ///
    /// Declarations: the formals. Expressions: the mark of the result.
    SubprogramDeclaration {
        head: Head,
        is_null: bool,
    },
    /// A head, then `is (E);`
    ///
    /// Declarations: the formals. Expressions: the mark of the result, and the value.
    ExpressionFunction {
        head: Head,
    },
    /// A head, then `is D begin S end N;`
    ///
    /// Declarations: the formals, and the local ones. Statements: one sequence. Expressions: the mark of the result, and
    /// the end name.
    SubprogramBody {
        head: Head,
        has_end_name: bool,
    },
    /// `task type N is D end N;` Expressions: the end name.
    Task {
        is_type: bool,
        has_definition: bool,
        has_end_name: bool,
    },
    /// `task body N is D begin S end N;`
    ///
    /// Declarations: the local ones. Statements: one sequence. Expressions: the end name.
    TaskBody {
        has_end_name: bool,
    },
    /// `protected type N is D private D end N;`
    ///
    /// Declarations: the operations, and the private part as one node. Expressions: the end name.
    Protected {
        is_type: bool,
        has_private_part: bool,
        has_end_name: bool,
    },
    /// A head in a protected unit. Declarations: the formals. Expressions: the mark of the result.
    ProtectedSubprogram {
        head: Head,
    },
    /// `entry N (F);` Declarations: the formals.
    Entry {
        has_formals: bool,
    },
    /// `protected body N is D end N;`
    ///
    /// Declarations: the bodies of the operations. Expressions: the end name.
    ProtectedBody {
        has_end_name: bool,
    },
    /// `entry N (F) when E is D begin S end N;`
    ///
    /// Declarations: the formals, and the local ones. Statements: one sequence. Expressions: the barrier, and the end name.
    EntryBody {
        has_formals: bool,
        has_end_name: bool,
    },
    /// `N in reverse R` of a `for` loop. Expressions: the discrete range.
    LoopParameter {
        is_reverse: bool,
    },
    /// `L` of a loop or a block.
    StatementName,
    /// `N` or `(N with ..)` in an Abstract_State. Options are skipped.
    State {
        has_options: bool,
    },
}
