//! What types and subtypes are.
use name_keys::KeyMap;
use spark_base::{DeclNo, TypeNo};
use static_meanings::Range;

/// A component of a record: its declaration, and its type.
#[derive(Clone, Copy, Debug)]
pub struct FieldSeen {
    pub decl: DeclNo,
    pub of: TypeNo,
}

/// What a type is.
#[derive(Debug, Drop)]
pub enum Shape {
    Enumeration(Range),
    /// Signed or modular.
    Integers(Range),
    /// `Time` of Ada.Real_Time.
    Moment,
    /// `Time_Span` of Ada.Real_Time.
    Duration,
    Array { index: TypeNo, of: TypeNo },
    /// A record: its components by the numbers of their names.
    Fields(KeyMap<FieldSeen>),
    /// A private type of the package of this number.
    Private(usize),
    /// A protected type or object of the unit of this number.
    Protected(usize),
    Task,
}

/// A type or a subtype: its first type, and what it is.
#[derive(Debug, Drop)]
pub struct Seen {
    pub first: TypeNo,
    pub shape: Shape,
}

/// The type of an expression.
#[derive(Clone, Copy, Debug)]
pub enum ExprType {
    /// Whole numbers that fit each integer type.
    AnyInteger,
    Of(TypeNo),
}
