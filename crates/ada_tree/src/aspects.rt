use spark_base::{AspectNo, DeclNo, ExprNo, Items, Name, Span, StmtNo};

/// An aspect or a part of its definition. Each of the lists has the children of its type, in the order of the source.
#[derive(Debug, Drop)]
pub struct AspectNode {
    /// Where the name stands, or else the first token.
    pub span: Span,
    pub kind: AspectKind,
    /// The name of an aspect.
    pub name: Option<Name>,
    pub exprs: Items<ExprNo>,
    pub stmts: Items<StmtNo>,
    pub decls: Items<DeclNo>,
    pub aspects: Items<AspectNo>,
}

/// The mode of items in a Global.
#[derive(Clone, Copy, Debug)]
pub enum GlobalMode {
    Input,
    Output,
    InOut,
    ProofIn,
}

/// What an aspect or a part of one is.
#[derive(Clone, Copy, Debug)]
pub enum AspectKind {
    /// `Global => ..`. Aspects: one `Null`, one `Items` or the modes.
    Global,
    /// `Refined_Global => ..`. Aspects: one `Null`, one `Items` or the modes.
    RefinedGlobal,
    /// `Depends => ..`. Aspects: one `Null` or the dependencies.
    Depends,
    /// `Refined_Depends => ..`. Aspects: one `Null` or the dependencies.
    RefinedDepends,
    /// `Abstract_State => ..`. Declarations: the states, none for `null`.
    AbstractState,
    /// `Refined_State => ..`. Aspects: the refinements.
    RefinedState,
    /// `Initializes => ..`. Aspects: one `Null` or what is initialized.
    Initializes,
    /// `Part_Of => N`. Expressions: the name.
    PartOf,
    /// `Atomic` or `Atomic => True`.
    Atomic { has_definition: bool },
    /// An aspect that the analysis does not use, and whose definition is skipped.
    Skipped { has_definition: bool },
    /// An aspect of another name, whose definition is skipped.
    Unknown { has_definition: bool },
    /// `null` in place of items or of a whole definition.
    Null,
    /// `N` or `(N, N)`. Expressions: the items.
    Items,
    /// `Input => N` and the like in a Global. Aspects: one `Null` or one `Items`.
    Mode { mode: GlobalMode },
    /// `N =>+ N` in a Depends. Aspects: one `Null` or `Items` for the outputs, and one for the inputs.
    Dependency { has_plus: bool },
    /// `N => N` in a Refined_State. Expressions: the state. Aspects: one `Null` or `Items` for its constituents.
    Refinement,
    /// `N` or `N => N` in an Initializes. Expressions: the item. Aspects: one `Null` or `Items` for its inputs.
    Initialized { has_inputs: bool },
}
