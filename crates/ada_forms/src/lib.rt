//! The forms of expressions and declarations: numbered nodes, read as trees of their own.
#![tactic(auto)]

mod attributes;
mod declarations;
mod forms;

pub use attributes::{Property, property_of};
pub use declarations::{DeclForm, FormedDecl, decl_form};
pub use forms::{BinaryOperator, ExprForm, FormedExpr, UnaryOperator, expr_form};
