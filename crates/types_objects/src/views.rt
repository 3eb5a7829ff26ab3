//! How types are seen at a place, and what fits what there.
ghost use Rattle.std.specs.Prelude.{◌≡◌};
ghost use Rattle.types_objects.specs.Views as spec;

use crate::firsts::first_of;
use crate::ranges::is_integer;
use crate::types::Types;
use spark_base::{DeclNo, TypeNo};
use static_meanings::Pairs;

/// What a place sees of private parts: those of its own package.
#[derive(Debug, Drop)]
pub struct Sight {
    /// Of each declaration in a private part or a body the package's declaration.
    pub homes: Pairs<DeclNo>,
    /// The declaration of the package that the place is in, if it is in one.
    pub inside: Option<DeclNo>,
}

/// The type of a value: a whole number that fits each integer type, or one of the table.
#[derive(Clone, Copy, Debug, PartialEq, Eq)]
pub enum ValueType {
    AnyInteger,
    Of(TypeNo),
}

/// The declaration that made the first type of a type; a predefined one has none.
fn made_from(types: &Types, t: TypeNo) -> Option<DeclNo>
    ensures { result ≡ spec.made_from types.now t }
{
    types.list.get(first_of(types, t).0 as usize)?.decl
}

fn home_of(homes: &Pairs<DeclNo>, d: Option<DeclNo>) -> Option<DeclNo>
    ensures { result ≡ spec.home_of homes.now d }
{
    homes.find(d?.0)
}

fn is_open(inside: Option<DeclNo>, home: Option<DeclNo>) -> bool
    ensures { result ≡ spec.is_open inside home }
{
    match home {
        None => true,
        Some(home) => match inside {
            None => false,
            Some(package) => package.0 == home.0,
        },
    }
}

/// Whether the full type is seen: of a type whose declaration stands in the private part of another package all that is seen is
/// that it is private, and so of its subtypes.
pub fn is_full(sight: &Sight, types: &Types, t: TypeNo) -> bool
    ensures { result ≡ spec.is_full sight.now types.now t }
{
    is_open(sight.inside, home_of(&sight.homes, made_from(types, t)))
}

/// Whether a type is seen to be one of whole numbers.
fn counts_here(sight: &Sight, types: &Types, t: TypeNo) -> bool
    ensures { result ≡ spec.counts_here sight.now types.now t }
{
    is_integer(types, t) && is_full(sight, types, t)
}

/// Whether a value of the one type can stand where one of the other is wanted: whether their first types are the same. A
/// number of any integer type fits each type that is seen to be one of whole numbers.
pub fn fits(sight: &Sight, types: &Types, to: ValueType, of: ValueType) -> bool
    ensures { result ≡ spec.fits sight.now types.now to of }
{
    match to {
        ValueType::AnyInteger => match of {
            ValueType::AnyInteger => true,
            ValueType::Of(t) => counts_here(sight, types, t),
        },
        ValueType::Of(t) => match of {
            ValueType::AnyInteger => counts_here(sight, types, t),
            ValueType::Of(u) => first_of(types, t).0 == first_of(types, u).0,
        },
    }
}
