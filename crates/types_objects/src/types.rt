//! The table of types.
ghost use Rattle.std.specs.Prelude.{◌≡◌, ◌<◌, ◌↔◌, length, IsTrue, slice_get, Some};
ghost use Rattle.static_meanings.specs.Pairs.{told};

use spark_base::{DeclNo, ExprNo, Items, Name, TypeNo};
use static_meanings::Pairs;

/// A component of a record.
#[derive(Debug, Drop)]
pub struct FieldDef {
    pub name: Name,
    pub of: TypeNo,
    pub preset: Option<ExprNo>,
}

/// What a type is. A subtype of a discrete type that has a range of its own is `Signed`, whatever its first type is.
#[derive(Debug, Drop)]
pub enum TypeForm {
    Enumeration(Items<Name>),
    Signed { low: i128, high: i128 },
    Modular(u128),
    Array { index: TypeNo, of: TypeNo },
    Fields(Items<FieldDef>),
    Moment,
    Duration,
    Protected(DeclNo),
    Task(DeclNo),
}

#[derive(Debug, Drop)]
pub struct TypeDef {
    pub name: Name,
    /// What made it; a predefined type has none.
    pub decl: Option<DeclNo>,
    pub form: TypeForm,
    /// How many leaves it has, at most 4,294,967,295.
    pub leaves: u32,
}

/// The types so far. What a type is made of stands before it.
#[derive(Debug, Drop)]
pub struct Types {
    pub list: Items<TypeDef>,
    /// Of each type its first type.
    pub first: Items<TypeNo>,
    /// By declaration: the type that it made, or whose subtype it is.
    pub numbers: Pairs<TypeNo>,
}

impl Types {
    /// The type that a declaration made, or whose subtype it is.
    pub fn of_decl(&self, d: DeclNo) -> Option<TypeNo>
        ensures { result ≡ told self.now.numbers d.0 }
    {
        self.numbers.find(d.0)
    }
}

/// Whether values of one type can be assigned to the other: whether their first types are the same.
pub fn assignable(types: &Types, to: TypeNo, from: TypeNo) -> bool
    requires target { to.0 < length types.now.first }
    requires source { from.0 < length types.now.first }
    ensures { IsTrue result ↔ (slice_get types.now.first to.0 ≡ slice_get types.now.first from.0) }
{
    types.first.at(to.0 as usize).0 == types.first.at(from.0 as usize).0
}
