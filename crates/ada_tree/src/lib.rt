//! The tokens of an Ada source, and the trees that a parser makes of them.
#![tactic(auto)]

mod aspects;
mod declarations;
mod expressions;
mod forms;
mod identifiers;
mod laws;
mod marks;
mod statements;
mod token;
mod units;
mod words;

pub use aspects::{AspectKind, AspectNode, GlobalMode};
pub use declarations::{DeclKind, DeclNode, Head};
pub use expressions::{
    AddingOperator, ExprKind, ExprNode, LogicalOperator, MultiplyingOperator, RelationalOperator,
};
pub use forms::{
    CompoundForm, DeclarationForm, Definition, FileForm, Listing, LocalForm, Naming, OperationForm,
    Region, StatementForm, compound_form, declaration_form, declared_end, file_form, local_form,
    named_end, operation_form, statement_form, unit_end,
};
pub use identifiers::{AspectName, WordRole, aspect_name, mode_of, role_of};
pub use laws::spelled_words;
pub use marks::{double_mark, single_mark};
pub use statements::{StmtKind, StmtNode};
pub use token::{Mark, Token, TokenKind, Tokens};
pub use units::{Unit, UnitKind, Units};
pub use words::{RESERVED_WORDS, Reserved, is_written, reserved_of, spelled};
