//! What names denote.
use name_keys::KeyMap;
use seen_types::ExprType;
use spark_base::{DeclNo, TypeNo};

/// What is known of the value of a constant, a named number or a literal.
#[derive(Clone, Copy, Debug)]
pub enum Value {
    Known(i128),
    NotStatic,
    /// A part of what it stands for was refused.
    Unsure,
}

/// How what has a value can be written.
#[derive(Clone, Copy, Debug)]
pub enum Role {
    Variable,
    /// A component of a protected unit: not in its functions.
    Component,
    Fixed,
    /// A protected object as a whole: not at all, but it has operations.
    ProtectedObject,
}

#[derive(Clone, Copy, Debug)]
pub enum Subprogram {
    Procedure,
    Function,
    Entry,
}

/// What a name denotes.
#[derive(Clone, Copy, Debug)]
pub enum What {
    /// A package, by its number.
    Package(usize),
    /// A type or a subtype; none where its definition was refused.
    Mark(Option<TypeNo>),
    /// An object, a formal, a component of a protected unit, a literal or a named number.
    Object {
        role: Role,
        of: Option<ExprType>,
        value: Value,
    },
    /// A subprogram, an operation, an entry or the main, by its number.
    Subprogram(usize),
    /// `Clock` of Ada.Real_Time.
    Clock,
    /// A function of Ada.Real_Time that makes so many nanoseconds of each unit.
    Product(i128),
    /// A state, a task, a loop or a block.
    Other,
}

/// A declaration, or what is predefined: its region's number, and what its name denotes.
#[derive(Clone, Copy, Debug)]
pub struct Shown {
    pub decl: Option<DeclNo>,
    pub region: usize,
    pub what: What,
}

/// A formal: whether it is `out` or `in out`, and its type if its mark has one.
#[derive(Clone, Copy, Debug)]
pub struct FormalSeen {
    pub is_written: bool,
    pub of: Option<TypeNo>,
}

/// A subprogram, an operation or an entry, as its declaration tells it.
#[derive(Debug, Drop)]
pub struct Callable {
    pub form: Subprogram,
    /// By the numbers of their names, in their order.
    pub formals: KeyMap<FormalSeen>,
    pub result: Option<TypeNo>,
}
