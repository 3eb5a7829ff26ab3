ghost use Rattle.std.specs.Prelude.{◌≡◌, []};
ghost use Rattle.ada_tree.specs.Tree.{IsOrdered};

use crate::{AspectNode, DeclNode, ExprNode, StmtNode};
use spark_base::{AspectNo, DeclNo, ExprNo, Items, Name, Span, StmtNo};
use std::alloc::Global;

/// The trees of all sources. A node is named by its place, from 0, in the list of its type.
///
/// Children stand before their node: within one list a child's number is below its node's own. The nodes of a list of
/// names, as of `A, B : T := E`, share the lists of their children.
#[derive(Debug, Drop)]
pub struct Units {
    /// In the order of the files, and of each file's source.
    pub units: Items<Unit>,
    pub decls: Items<DeclNode>,
    pub stmts: Items<StmtNode>,
    pub exprs: Items<ExprNode>,
    pub aspects: Items<AspectNode>,
}

impl Units {
    /// No trees.
    pub fn new(alloc: Global) -> Self
        ensures ordered { IsOrdered result }
        ensures empty { result ≡ record { units = []; decls = []; stmts = []; exprs = []; aspects = [] } }
    {
        Units {
            units: Items::new(alloc),
            decls: Items::new(alloc),
            stmts: Items::new(alloc),
            exprs: Items::new(alloc),
            aspects: Items::new(alloc),
        }
    }
}

/// A unit of a file. Each of the lists has the children of its type, in the order of the source.
#[derive(Debug, Drop)]
pub struct Unit {
    /// Where the name stands, or else the first token.
    pub span: Span,
    pub kind: UnitKind,
    pub name: Option<Name>,
    pub exprs: Items<ExprNo>,
    pub stmts: Items<StmtNo>,
    pub decls: Items<DeclNo>,
    pub aspects: Items<AspectNo>,
}

/// What a unit is. Before other declarations it has those of its context; aspects are there where their list is not empty.
#[derive(Clone, Copy, Debug)]
pub enum UnitKind {
    /// `package N with A is D private D end N;`
    ///
    /// Declarations: the context, the visible ones, and the private part as one node. Expressions: the end name.
    Spec {
        has_private_part: bool,
        has_end_name: bool,
    },
    /// `package body N with A is D begin S end N;`
    ///
    /// Declarations: the context, and the body's. Statements: one sequence. Expressions: the end name.
    PackageBody {
        has_statements: bool,
        has_end_name: bool,
    },
    /// `procedure N with A is D begin S end N;`
    ///
    /// Declarations: the context, and the procedure's. Statements: one sequence. Expressions: the end name.
    Main {
        has_end_name: bool,
    },
}
