use spark_base::{Bytes, Items, Span};

/// A reserved word or mark of the first path.
#[derive(Clone, Copy, Debug, PartialEq, Eq)]
pub enum Sign {
    Package,
    Is,
    Procedure,
    With,
    Null,
    End,
    Body,
    Begin,
    Open,
    Close,
    Comma,
    Colon,
    Semicolon,
    Becomes,
    Arrow,
    Plus,
    Minus,
    If,
    Then,
    Else,
    Equal,
    NotEqual,
    Less,
    AtMost,
    Greater,
    AtLeast,
}

/// A word, as it is written, and its place.
#[derive(Debug, Drop)]
pub struct Word {
    pub written: Bytes,
    pub span: Span,
}

/// A token, as far as the grammar tells it from others.
#[derive(Debug, Drop)]
pub enum Symbol {
    Sign(Sign),
    Word(Word),
    /// A number of digits alone, at most 2,147,483,647.
    Number(u32),
    Other,
}

/// `NAME : MARK := VALUE;`, of a value of at most 2,147,483,647.
#[derive(Debug, Drop)]
pub struct Variable {
    pub name: Word,
    pub mark: Word,
    pub value: u32,
}

/// An operand: a name, or a number of at most 2,147,483,647.
#[derive(Debug, Drop)]
pub enum Primary {
    Name(Word),
    Number(u32),
}

/// An operator of a sum.
#[derive(Clone, Copy, Debug, PartialEq, Eq)]
pub enum Adding {
    Plus,
    Minus,
}

/// An operator, and what it adds or takes away.
#[derive(Debug, Drop)]
pub struct Term {
    pub operator: Adding,
    pub operand: Primary,
}

/// An operand, and the terms that follow it.
#[derive(Debug, Drop)]
pub struct Sum {
    pub first: Primary,
    pub more: Items<Term>,
}

/// How the two sides of a test are compared.
#[derive(Clone, Copy, Debug, PartialEq, Eq)]
pub enum Relation {
    Equal,
    NotEqual,
    Less,
    AtMost,
    Greater,
    AtLeast,
}

/// The two sides of a test, and how they are compared.
#[derive(Debug, Drop)]
pub struct Test {
    pub left: Sum,
    pub relation: Relation,
    pub right: Sum,
}

/// A line of a list of statements: a simple statement, or the head, the middle or the end of an if.
#[derive(Debug, Drop)]
pub enum Line {
    /// `null;`
    Null,
    /// `TARGET := VALUE;`
    Assign { target: Word, value: Sum },
    /// `if TEST then`
    If(Test),
    /// `else`
    Else,
    /// `end if;`
    EndIf,
}

/// The items of an entry: one name, or names in parentheses.
#[derive(Debug, Drop)]
pub enum Names {
    Bare(Word),
    /// Names in parentheses.
    Listed { first: Word, more: Items<Word> },
}

/// `MODE => NAMES`
#[derive(Debug, Drop)]
pub struct Entry {
    pub mode: Word,
    pub names: Names,
}

/// The definition of a Global.
#[derive(Debug, Drop)]
pub enum GlobalForm {
    Null,
    Entries { first: Entry, more: Items<Entry> },
}

/// `procedure NAME with Global => ..;`
#[derive(Debug, Drop)]
pub struct ProcedureSpec {
    pub name: Word,
    pub aspect: Word,
    pub global: GlobalForm,
}

/// The package spec.
#[derive(Debug, Drop)]
pub struct Spec {
    pub package: Word,
    pub variables: Items<Variable>,
    pub procedure: ProcedureSpec,
    pub end: Option<Word>,
}

/// `procedure NAME is begin .. end NAME;`
#[derive(Debug, Drop)]
pub struct ProcedureBody {
    pub name: Word,
    pub lines: Items<Line>,
    pub end: Option<Word>,
}

/// The package body.
#[derive(Debug, Drop)]
pub struct PackageBody {
    pub package: Word,
    pub procedure: ProcedureBody,
    pub end: Option<Word>,
}

/// A whole source.
#[derive(Debug, Drop)]
pub struct Source {
    pub spec: Spec,
    pub body: PackageBody,
}
