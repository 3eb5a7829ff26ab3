//! The table of types, and what a type is at a place.
ghost use Rattle.std.specs.Prelude.{◌≡◌, [], ◌∷◌, ◌++◌, slice_get, OnOk, OnErr};
ghost use Rattle.std.specs.Option.{option_copied};
ghost use Rattle.seen_types.specs.Types as spec;
ghost use Rattle.seen_types.specs.Types.{sight};

use crate::seen::{Seen, Shape};
use spark_base::{NoMemory, TypeNo};
use static_meanings::{Pairs, Range};
use std::alloc::Global;
use std::marker::Model;

/// The number of Boolean.
pub const BOOLEAN: TypeNo = TypeNo(0);

/// The number of Integer.
pub const INTEGER: TypeNo = TypeNo(1);

/// The number of `Time` of Ada.Real_Time.
pub const MOMENT: TypeNo = TypeNo(4);

/// The number of `Time_Span` of Ada.Real_Time.
pub const DURATION: TypeNo = TypeNo(5);

/// Types and subtypes by their numbers, and the full types of private ones. Numbers 0 to 5 are to be Boolean, Integer,
/// Natural, Positive, Time and Time_Span.
///
/// A question about a type is asked from a place: `home` is the number of the package whose private part is seen there, if
/// one is. Each takes constant time. A number that has no type is of no kind, and stands for itself.
#[derive(Debug, Drop)]
pub struct TypeTable {
    seen: Vec<Seen>,
    completions: Pairs<TypeNo>,
}

impl Model for TypeTable {
    ghost use Rattle.seen_types.specs.Types.{Types};

    ghost Value = { Types };

    ghost view = { λ t. record { seen = t.seen.items; completions = t.completions } };
}

/// Whether the number is this one.
pub fn is_number(home: Option<usize>, number: usize) -> bool
    ensures { result ≡ spec.is_number home number }
{
    match home {
        None => false,
        Some(home) => home == number,
    }
}

impl TypeTable {
    /// No types.
    pub fn new(alloc: Global) -> Self
        ensures seen { result.seen ≡ [] }
        ensures completions { result.completions ≡ [] }
    {
        TypeTable {
            seen: Vec::new(alloc),
            completions: Pairs::new(alloc),
        }
    }

    /// Adds a type with the next number; for want of memory the table stays as it was.
    pub fn add(&mut self, seen: Seen) -> Result<(), NoMemory>
        ensures ok { OnOk result (self.new.seen ≡ self.old.seen ++ seen ∷ []) }
        ensures err { OnErr result (self.new.seen ≡ self.old.seen) }
        ensures completions { self.new.completions ≡ self.old.completions }
    {
        self.seen.push(seen)?;
        Ok(())
    }

    /// From here on a private type has this full type; for want of memory the table stays as it was.
    pub fn complete(&mut self, private: TypeNo, full: TypeNo) -> Result<(), NoMemory>
        ensures seen { self.new.seen ≡ self.old.seen }
        ensures ok { OnOk result (self.new.completions ≡ self.old.completions ++ (private.0, full) ∷ []) }
        ensures err { OnErr result (self.new.completions ≡ self.old.completions) }
    {
        self.completions.push(private.0, full)
    }

    fn at(&self, t: TypeNo) -> Option<&Seen>
        ensures { option_copied result ≡ slice_get self.now.seen t.0 }
    {
        self.seen.get(t.0 as usize)
    }

    /// The first type; a full type has that of its private one.
    pub fn first(&self, t: TypeNo) -> TypeNo
        ensures { result ≡ spec.first self.now t }
    {
        match self.at(t) {
            None => t,
            Some(seen) => seen.first,
        }
    }

    /// The full type of a private one, or else this.
    pub(crate) fn full_or(&self, first: TypeNo, t: TypeNo) -> TypeNo
        ensures { result ≡ spec.full_or self.now first t }
    {
        match self.completions.find(first.0) {
            None => t,
            Some(full) => full,
        }
    }

    /// In its own package, a private type that is completed is seen as its full type.
    pub fn view(&self, home: Option<usize>, t: TypeNo) -> TypeNo
        ensures { result ≡ spec.view (sight self.now home) t }
    {
        match self.at(t) {
            None => t,
            Some(seen) => match &seen.shape {
                Shape::Private(package) => {
                    if is_number(home, *package) {
                        self.full_or(seen.first, t)
                    } else {
                        t
                    }
                }
                _ => t,
            },
        }
    }

    /// What a type is, as it is seen.
    #[tactic(auto, unfolding(crate::specs::Types::shape))]
    pub fn shape(&self, home: Option<usize>, t: TypeNo) -> Option<&Shape>
        ensures { option_copied result ≡ spec.shape (sight self.now home) t }
    {
        match self.at(self.view(home, t)) {
            None => None,
            Some(seen) => Some(&seen.shape),
        }
    }

    pub fn is_integers(&self, home: Option<usize>, t: TypeNo) -> bool
        ensures { result ≡ spec.is_integers (spec.shape (sight self.now home) t) }
    {
        match self.shape(home, t) {
            Some(Shape::Integers(_)) => true,
            _ => false,
        }
    }

    pub fn is_modular(&self, home: Option<usize>, t: TypeNo) -> bool
        ensures { result ≡ spec.is_modular (spec.shape (sight self.now home) t) }
    {
        match self.shape(home, t) {
            Some(Shape::Integers(range)) => range.modular.is_some(),
            _ => false,
        }
    }

    /// Integers and enumerations.
    pub fn is_discrete(&self, home: Option<usize>, t: TypeNo) -> bool
        ensures { result ≡ spec.is_discrete (spec.shape (sight self.now home) t) }
    {
        match self.shape(home, t) {
            Some(Shape::Integers(_) | Shape::Enumeration(_)) => true,
            _ => false,
        }
    }

    /// Discrete types, moments and durations.
    pub fn is_scalar(&self, home: Option<usize>, t: TypeNo) -> bool
        ensures { result ≡ spec.is_scalar (spec.shape (sight self.now home) t) }
    {
        match self.shape(home, t) {
            Some(Shape::Integers(_) | Shape::Enumeration(_) | Shape::Moment | Shape::Duration) =>
                true,
            _ => false,
        }
    }

    pub fn is_array(&self, home: Option<usize>, t: TypeNo) -> bool
        ensures { result ≡ spec.is_array (spec.shape (sight self.now home) t) }
    {
        match self.shape(home, t) {
            Some(Shape::Array { .. }) => true,
            _ => false,
        }
    }

    pub fn is_private(&self, home: Option<usize>, t: TypeNo) -> bool
        ensures { result ≡ spec.is_private (spec.shape (sight self.now home) t) }
    {
        match self.shape(home, t) {
            Some(Shape::Private(_)) => true,
            _ => false,
        }
    }

    /// Protected types and task types: no one is given a value of them.
    pub fn is_limited(&self, home: Option<usize>, t: TypeNo) -> bool
        ensures { result ≡ spec.is_limited (spec.shape (sight self.now home) t) }
    {
        match self.shape(home, t) {
            Some(Shape::Protected(_) | Shape::Task) => true,
            _ => false,
        }
    }

    /// Records and arrays: what an aggregate can be.
    pub fn is_composite(&self, home: Option<usize>, t: TypeNo) -> bool
        ensures { result ≡ spec.is_composite (spec.shape (sight self.now home) t) }
    {
        match self.shape(home, t) {
            Some(Shape::Fields(_) | Shape::Array { .. }) => true,
            _ => false,
        }
    }

    /// The range of a discrete type.
    pub fn bounds(&self, home: Option<usize>, t: TypeNo) -> Option<Range>
        ensures { result ≡ spec.bounds (sight self.now home) t }
    {
        match self.shape(home, t) {
            Some(Shape::Integers(range) | Shape::Enumeration(range)) => Some(*range),
            _ => None,
        }
    }

    /// The range of a discrete type, and of an array that of its index.
    #[tactic(auto, unfolding(crate::specs::Types::range_of))]
    pub fn range_of(&self, home: Option<usize>, t: TypeNo) -> Option<Range>
        ensures { result ≡ spec.range_of (sight self.now home) t }
    {
        match self.shape(home, t) {
            Some(Shape::Array { index, .. }) => self.bounds(home, *index),
            _ => self.bounds(home, t),
        }
    }
}
