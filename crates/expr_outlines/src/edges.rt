//! Where expressions begin, and the words that end names.
ghost use Rattle.std.specs.Prelude.{◌≡◌, None};
ghost use Rattle.ada_forms.specs.Forms.{expr_of};
ghost use Rattle.expr_outlines.specs.Outlines as spec;

use ada_forms::{ExprForm, expr_form};
use ada_tree::Units;
use name_findings::Mention;
use spark_base::{ExprNo, Pos};

/// Where the first token of an expression stands, and the word that ends it, where it is a name: aside from what stands in
/// parentheses.
#[derive(Clone, Copy, Debug)]
pub struct Edges {
    pub begins: Pos,
    pub ending: Option<Mention>,
}

/// Those of no expression.
pub fn no_edges() -> Edges
    ensures { result ≡ spec.edges_in None }
{
    Edges {
        begins: Pos { line: 1, col: 1 },
        ending: None,
    }
}

/// Those of an expression, by those of the part with which it begins, if it begins with one.
pub fn edges_over(units: &Units, e: ExprNo, beginning: Edges) -> Edges
    requires beginning { beginning ≡ spec.edges_in (spec.beginning (expr_of units.now.exprs e)) }
    ensures { result ≡ spec.edges (expr_of units.now.exprs e) }
{
    let formed = expr_form(units, e);
    let word = Mention {
        at: formed.at,
        expr: e,
    };
    match formed.form {
        ExprForm::Identifier(_) => Edges {
            begins: formed.at,
            ending: Some(word),
        },
        ExprForm::Selected { .. } | ExprForm::Attribute { .. } => Edges {
            begins: beginning.begins,
            ending: Some(word),
        },
        ExprForm::Applied { .. }
        | ExprForm::Qualified { .. }
        | ExprForm::Argument { .. }
        | ExprForm::NamedArgument { .. } => beginning,
        ExprForm::RangeAttribute { .. }
        | ExprForm::Binary { .. }
        | ExprForm::InRange { .. }
        | ExprForm::InMark { .. }
        | ExprForm::Association { .. }
        | ExprForm::ValueChoice { .. }
        | ExprForm::RangeChoice { .. }
        | ExprForm::Indication { .. }
        | ExprForm::Constrained { .. }
        | ExprForm::SubtypeRange { .. }
        | ExprForm::BoundsRange { .. }
        | ExprForm::AttributeRange { .. } => Edges {
            begins: beginning.begins,
            ending: None,
        },
        ExprForm::Absent => no_edges(),
        _ => Edges {
            begins: formed.at,
            ending: None,
        },
    }
}
