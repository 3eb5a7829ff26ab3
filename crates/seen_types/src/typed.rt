//! The types of expressions.
ghost use Rattle.std.specs.Prelude.{◌≡◌};
ghost use Rattle.std.specs.Option.{option_copied};
ghost use Rattle.seen_types.specs.Types as spec;
ghost use Rattle.seen_types.specs.Types.{sight};

use crate::seen::{ExprType, Shape};
use crate::table::TypeTable;
use spark_base::TypeNo;

impl TypeTable {
    /// What the type of an expression is; any integer is of no shape.
    pub fn shape_of(&self, home: Option<usize>, a: ExprType) -> Option<&Shape>
        ensures { option_copied result ≡ spec.shape_of (sight self.now home) a }
    {
        match a {
            ExprType::AnyInteger => None,
            ExprType::Of(t) => self.shape(home, t),
        }
    }

    pub fn is_integral(&self, home: Option<usize>, a: ExprType) -> bool
        ensures { result ≡ spec.is_integral (sight self.now home) a }
    {
        match a {
            ExprType::AnyInteger => true,
            ExprType::Of(t) => self.is_integers(home, t),
        }
    }

    /// Any integer and discrete types.
    pub fn is_countable(&self, home: Option<usize>, a: ExprType) -> bool
        ensures { result ≡ spec.is_countable (sight self.now home) a }
    {
        match a {
            ExprType::AnyInteger => true,
            ExprType::Of(t) => self.is_discrete(home, t),
        }
    }

    /// Any integer and scalar types.
    pub fn is_comparable(&self, home: Option<usize>, a: ExprType) -> bool
        ensures { result ≡ spec.is_comparable (sight self.now home) a }
    {
        match a {
            ExprType::AnyInteger => true,
            ExprType::Of(t) => self.is_scalar(home, t),
        }
    }

    /// Whether two have one first type.
    pub fn is_same(&self, a: TypeNo, b: TypeNo) -> bool
        ensures { result ≡ spec.is_same self.now a b }
    {
        self.first(a).0 == self.first(b).0
    }

    /// Whether values of one stand where the other is expected.
    #[tactic(auto, unfolding(crate::specs::Types::fits))]
    pub fn fits(&self, home: Option<usize>, a: ExprType, b: ExprType) -> bool
        ensures { result ≡ spec.fits (sight self.now home) a b }
    {
        match (a, b) {
            (ExprType::AnyInteger, _) => self.is_integral(home, b),
            (_, ExprType::AnyInteger) => self.is_integral(home, a),
            (ExprType::Of(a), ExprType::Of(b)) => self.is_same(a, b),
        }
    }

    /// Whether it comes from this predefined type.
    pub fn is_of(&self, home: Option<usize>, t: TypeNo, a: ExprType) -> bool
        ensures { result ≡ spec.is_of (sight self.now home) t a }
    {
        match a {
            ExprType::AnyInteger => false,
            ExprType::Of(a) => self.is_same(a, t),
        }
    }

    /// The first type, and where its full type is seen that one.
    pub fn widest(&self, home: Option<usize>, t: TypeNo) -> TypeNo
        ensures { result ≡ spec.widest (sight self.now home) t }
    {
        let first = self.first(t);
        if self.is_private(home, t) {
            first
        } else {
            self.full_or(first, first)
        }
    }

    /// The type of what an operator makes of values of this one.
    pub fn root(&self, home: Option<usize>, a: ExprType) -> ExprType
        ensures { result ≡ spec.root (sight self.now home) a }
    {
        match a {
            ExprType::AnyInteger => ExprType::AnyInteger,
            ExprType::Of(t) => ExprType::Of(self.widest(home, t)),
        }
    }

    /// Whether two types are known, and values of one do not stand where the other is expected.
    pub fn misfits(&self, home: Option<usize>, a: Option<ExprType>, b: Option<ExprType>) -> bool
        ensures { result ≡ spec.misfits (sight self.now home) a b }
    {
        match (a, b) {
            (Some(a), Some(b)) => !self.fits(home, a, b),
            _ => false,
        }
    }

    /// Whether two types are known, and a value of the first cannot be given to the second: it does not fit, or no one can
    /// be given a value of it.
    pub fn is_unfit(&self, home: Option<usize>, a: Option<ExprType>, b: Option<ExprType>) -> bool
        ensures { result ≡ spec.is_unfit (sight self.now home) a b }
    {
        match (a, b) {
            (Some(a), Some(b)) => !self.fits(home, a, b) || self.is_limited_of(home, b),
            _ => false,
        }
    }

    /// Whether it is a protected type or a task type.
    pub fn is_limited_of(&self, home: Option<usize>, a: ExprType) -> bool
        ensures { result ≡ spec.is_limited (spec.shape_of (sight self.now home) a) }
    {
        match a {
            ExprType::AnyInteger => false,
            ExprType::Of(t) => self.is_limited(home, t),
        }
    }

    /// Whether it is a modular type.
    pub fn is_modular_of(&self, home: Option<usize>, a: ExprType) -> bool
        ensures { result ≡ spec.is_modular (spec.shape_of (sight self.now home) a) }
    {
        match a {
            ExprType::AnyInteger => false,
            ExprType::Of(t) => self.is_modular(home, t),
        }
    }
}
