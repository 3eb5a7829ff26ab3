ghost use Rattle.std.specs.Prelude.{◌≡◌};
ghost use Rattle.ada_tree.specs.Forms as forms;

use crate::{DeclKind, Reserved, StmtKind, TokenKind, UnitKind};

/// What the definition of an aspect is.
#[derive(Clone, Copy, Debug)]
pub enum Definition {
    /// Of Global and Refined_Global.
    Global,
    /// Of Depends and Refined_Depends.
    Depends,
    /// Of Abstract_State.
    States,
    RefinedState,
    Initializes,
    PartOf,
}

/// What stands in the parentheses of a definition, parted by commas.
#[derive(Clone, Copy, Debug)]
pub enum Listing {
    Dependencies,
    Refinements,
    Initializations,
}

/// What names before a colon declare.
#[derive(Clone, Copy, Debug)]
pub enum Naming {
    Objects,
    Components,
    Formals,
}

/// A declaration that may stand in each body, by its first token.
#[derive(Clone, Copy, Debug)]
pub enum LocalForm {
    Type,
    Subtype,
    Object,
    Use,
    Pragma,
}

/// A declaration of a package, by its first token.
#[derive(Clone, Copy, Debug)]
pub enum DeclarationForm {
    Procedure,
    Function,
    Task,
    Protected,
    Local,
}

/// An operation of a protected unit, by its first token.
#[derive(Clone, Copy, Debug)]
pub enum OperationForm {
    Procedure,
    Function,
    Entry,
    Pragma,
    Component,
}

/// A statement, by its first token.
#[derive(Clone, Copy, Debug)]
pub enum StatementForm {
    Null,
    Pragma,
    /// An identifier.
    Named,
    If,
    Case,
    While,
    For,
    Loop,
    Declare,
    Begin,
    Exit,
    Return,
    Delay,
}

/// A statement that may have a name, by the token behind the colon.
#[derive(Clone, Copy, Debug)]
pub enum CompoundForm {
    While,
    For,
    Loop,
    Declare,
    Begin,
}

/// What stands in a file, by its first token.
#[derive(Clone, Copy, Debug)]
pub enum FileForm {
    Pragma,
    With,
    Use,
    Package,
    Procedure,
}

/// Where a subprogram stands.
#[derive(Clone, Copy, Debug)]
pub enum Region {
    /// In the declaration of a package.
    Spec,
    /// In the body of a package.
    Body,
    /// In the declaration of a protected unit.
    Protected,
    /// In the body of a protected unit.
    ProtectedBody,
}

/// The form of a statement that begins with this token; any other token than those is taken for an identifier.
pub fn statement_form(kind: TokenKind) -> StatementForm
    ensures { result ≡ forms.statement_form kind }
{
    match kind {
        TokenKind::Reserved(Reserved::Null) => StatementForm::Null,
        TokenKind::Reserved(Reserved::Pragma) => StatementForm::Pragma,
        TokenKind::Reserved(Reserved::If) => StatementForm::If,
        TokenKind::Reserved(Reserved::Case) => StatementForm::Case,
        TokenKind::Reserved(Reserved::While) => StatementForm::While,
        TokenKind::Reserved(Reserved::For) => StatementForm::For,
        TokenKind::Reserved(Reserved::Loop) => StatementForm::Loop,
        TokenKind::Reserved(Reserved::Declare) => StatementForm::Declare,
        TokenKind::Reserved(Reserved::Begin) => StatementForm::Begin,
        TokenKind::Reserved(Reserved::Exit) => StatementForm::Exit,
        TokenKind::Reserved(Reserved::Return) => StatementForm::Return,
        TokenKind::Reserved(Reserved::Delay) => StatementForm::Delay,
        _ => StatementForm::Named,
    }
}

/// The form of a statement whose name stands before this token; any other token than those is taken for `begin`.
pub fn compound_form(kind: TokenKind) -> CompoundForm
    ensures { result ≡ forms.compound_form kind }
{
    match kind {
        TokenKind::Reserved(Reserved::While) => CompoundForm::While,
        TokenKind::Reserved(Reserved::For) => CompoundForm::For,
        TokenKind::Reserved(Reserved::Loop) => CompoundForm::Loop,
        TokenKind::Reserved(Reserved::Declare) => CompoundForm::Declare,
        _ => CompoundForm::Begin,
    }
}

/// The form of a local declaration that begins with this token; any other token than those is taken for an identifier.
pub fn local_form(kind: TokenKind) -> LocalForm
    ensures { result ≡ forms.local_form kind }
{
    match kind {
        TokenKind::Reserved(Reserved::Type) => LocalForm::Type,
        TokenKind::Reserved(Reserved::Subtype) => LocalForm::Subtype,
        TokenKind::Reserved(Reserved::Use) => LocalForm::Use,
        TokenKind::Reserved(Reserved::Pragma) => LocalForm::Pragma,
        _ => LocalForm::Object,
    }
}

/// The form of a declaration of a package that begins with this token.
pub fn declaration_form(kind: TokenKind) -> DeclarationForm
    ensures { result ≡ forms.declaration_form kind }
{
    match kind {
        TokenKind::Reserved(Reserved::Procedure) => DeclarationForm::Procedure,
        TokenKind::Reserved(Reserved::Function) => DeclarationForm::Function,
        TokenKind::Reserved(Reserved::Task) => DeclarationForm::Task,
        TokenKind::Reserved(Reserved::Protected) => DeclarationForm::Protected,
        _ => DeclarationForm::Local,
    }
}

/// The form of an operation, a component or a pragma of a protected unit that begins with this token; any other token
/// than those is taken for an identifier.
pub fn operation_form(kind: TokenKind) -> OperationForm
    ensures { result ≡ forms.operation_form kind }
{
    match kind {
        TokenKind::Reserved(Reserved::Procedure) => OperationForm::Procedure,
        TokenKind::Reserved(Reserved::Function) => OperationForm::Function,
        TokenKind::Reserved(Reserved::Entry) => OperationForm::Entry,
        TokenKind::Reserved(Reserved::Pragma) => OperationForm::Pragma,
        _ => OperationForm::Component,
    }
}

/// The form of what stands in a file and begins with this token; any other token than those is taken for `procedure`.
pub fn file_form(kind: TokenKind) -> FileForm
    ensures { result ≡ forms.file_form kind }
{
    match kind {
        TokenKind::Reserved(Reserved::Pragma) => FileForm::Pragma,
        TokenKind::Reserved(Reserved::With) => FileForm::With,
        TokenKind::Reserved(Reserved::Use) => FileForm::Use,
        TokenKind::Reserved(Reserved::Package) => FileForm::Package,
        _ => FileForm::Procedure,
    }
}

/// The kind of a loop or a block that has an end name.
pub fn named_end(kind: StmtKind) -> StmtKind
    ensures { result ≡ forms.named_end kind }
{
    match kind {
        StmtKind::Loop { has_label, .. } => StmtKind::Loop {
            has_label,
            has_end_name: true,
        },
        StmtKind::While { has_label, .. } => StmtKind::While {
            has_label,
            has_end_name: true,
        },
        StmtKind::For { has_label, .. } => StmtKind::For {
            has_label,
            has_end_name: true,
        },
        StmtKind::Block {
            has_label,
            has_declare,
            ..
        } => StmtKind::Block {
            has_label,
            has_declare,
            has_end_name: true,
        },
        _ => kind,
    }
}

/// The kind of a body, a task or a protected unit that has an end name.
pub fn declared_end(kind: DeclKind) -> DeclKind
    ensures { result ≡ forms.declared_end kind }
{
    match kind {
        DeclKind::SubprogramBody { head, .. } => DeclKind::SubprogramBody {
            head,
            has_end_name: true,
        },
        DeclKind::Task {
            is_type,
            has_definition,
            ..
        } => DeclKind::Task {
            is_type,
            has_definition,
            has_end_name: true,
        },
        DeclKind::TaskBody { .. } => DeclKind::TaskBody { has_end_name: true },
        DeclKind::Protected {
            is_type,
            has_private_part,
            ..
        } => DeclKind::Protected {
            is_type,
            has_private_part,
            has_end_name: true,
        },
        DeclKind::ProtectedBody { .. } => DeclKind::ProtectedBody { has_end_name: true },
        DeclKind::EntryBody { has_formals, .. } => DeclKind::EntryBody {
            has_formals,
            has_end_name: true,
        },
        _ => kind,
    }
}

/// The kind of a unit that has an end name.
pub fn unit_end(kind: UnitKind) -> UnitKind
    ensures { result ≡ forms.unit_end kind }
{
    match kind {
        UnitKind::Spec {
            has_private_part,
            ..
        } => UnitKind::Spec {
            has_private_part,
            has_end_name: true,
        },
        UnitKind::PackageBody { has_statements, .. } => UnitKind::PackageBody {
            has_statements,
            has_end_name: true,
        },
        UnitKind::Main { .. } => UnitKind::Main { has_end_name: true },
    }
}
