//! The types that operators take, and those of what they make.
ghost use Rattle.std.specs.Prelude.{◌≡◌};
ghost use Rattle.seen_types.specs.Operators as spec;
ghost use Rattle.seen_types.specs.Types.{shape_of, sight};

use crate::seen::{ExprType, Shape};
use crate::table::{BOOLEAN, DURATION, INTEGER, MOMENT, TypeTable};
use ada_forms::{BinaryOperator, UnaryOperator};
use ada_tree::{AddingOperator, LogicalOperator, RelationalOperator};

fn only_if(holds: bool, t: ExprType) -> Option<ExprType>
    ensures { result ≡ spec.only_if holds t }
{
    if holds { Some(t) } else { None }
}

fn or_else(a: Option<ExprType>, b: Option<ExprType>) -> Option<ExprType>
    ensures { result ≡ spec.or_else a b }
{
    match a {
        None => b,
        Some(_) => a,
    }
}

impl TypeTable {
    /// The type of what two make: any integer gives way to a type.
    fn common(&self, home: Option<usize>, a: ExprType, b: ExprType) -> ExprType
        ensures { result ≡ spec.common (sight self.now home) a b }
    {
        match a {
            ExprType::AnyInteger => self.root(home, b),
            ExprType::Of(_) => self.root(home, a),
        }
    }

    /// The type of a sum or a difference of moments and durations.
    fn time_sum(
        &self,
        home: Option<usize>,
        operator: AddingOperator,
        a: ExprType,
        b: ExprType,
    ) -> Option<ExprType>
        ensures { result ≡ spec.time_sum operator (shape_of (sight self.now home) a) (shape_of (sight self.now home) b) }
    {
        match (operator, self.shape_of(home, a), self.shape_of(home, b)) {
            (_, Some(Shape::Moment), Some(Shape::Duration)) => Some(ExprType::Of(MOMENT)),
            (AddingOperator::Plus, Some(Shape::Duration), Some(Shape::Moment)) => {
                Some(ExprType::Of(MOMENT))
            }
            (AddingOperator::Minus, Some(Shape::Moment), Some(Shape::Moment)) => {
                Some(ExprType::Of(DURATION))
            }
            (_, Some(Shape::Duration), Some(Shape::Duration)) => Some(ExprType::Of(DURATION)),
            _ => None,
        }
    }

    fn arithmetic(&self, home: Option<usize>, a: ExprType, b: ExprType) -> Option<ExprType>
        ensures { result ≡ spec.arithmetic (sight self.now home) a b }
    {
        let holds = self.is_integral(home, a) && self.is_integral(home, b) && self.fits(home, a, b);
        only_if(holds, self.common(home, a, b))
    }

    fn is_exponent(&self, home: Option<usize>, a: ExprType) -> bool
        ensures { result ≡ spec.is_exponent (sight self.now home) a }
    {
        match a {
            ExprType::AnyInteger => true,
            ExprType::Of(t) => self.is_same(t, INTEGER),
        }
    }

    fn are_boolean(&self, home: Option<usize>, a: ExprType, b: ExprType) -> bool
        ensures { result ≡ spec.are_boolean (sight self.now home) a b }
    {
        self.is_of(home, BOOLEAN, a) && self.is_of(home, BOOLEAN, b)
    }

    /// The type of an operator bit by bit, where one side has a modular type that the other fits.
    fn bitwise(&self, home: Option<usize>, a: ExprType, b: ExprType) -> Option<ExprType>
        ensures { result ≡ spec.bitwise (sight self.now home) a b }
    {
        let holds = (self.is_modular_of(home, a) || self.is_modular_of(home, b))
            && self.fits(home, a, b);
        only_if(holds, self.common(home, a, b))
    }

    fn logical_type(
        &self,
        home: Option<usize>,
        operator: LogicalOperator,
        a: ExprType,
        b: ExprType,
    ) -> Option<ExprType>
        ensures { result ≡ spec.logical_type (sight self.now home) operator a b }
    {
        let boolean = only_if(self.are_boolean(home, a, b), ExprType::Of(BOOLEAN));
        match operator {
            LogicalOperator::AndThen | LogicalOperator::OrElse => boolean,
            _ => or_else(boolean, self.bitwise(home, a, b)),
        }
    }

    fn are_equatable(&self, home: Option<usize>, a: ExprType, b: ExprType) -> bool
        ensures { result ≡ spec.are_equatable (sight self.now home) a b }
    {
        !self.is_limited_of(home, a) && self.fits(home, a, b)
    }

    fn are_ordered(&self, home: Option<usize>, a: ExprType, b: ExprType) -> bool
        ensures { result ≡ spec.are_ordered (sight self.now home) a b }
    {
        self.fits(home, a, b) && self.is_comparable(home, a) && self.is_comparable(home, b)
    }

    fn relation_type(
        &self,
        home: Option<usize>,
        operator: RelationalOperator,
        a: ExprType,
        b: ExprType,
    ) -> Option<ExprType>
        ensures { result ≡ spec.relation_type (sight self.now home) operator a b }
    {
        let holds = match operator {
            RelationalOperator::Equal | RelationalOperator::NotEqual => {
                self.are_equatable(home, a, b)
            }
            _ => self.are_ordered(home, a, b),
        };
        only_if(holds, ExprType::Of(BOOLEAN))
    }

    /// The type of `A op B`; none where the operator does not take these types.
    #[tactic(auto, unfolding(crate::specs::Operators::binary_type))]
    fn binary_type(
        &self,
        home: Option<usize>,
        operator: BinaryOperator,
        a: ExprType,
        b: ExprType,
    ) -> Option<ExprType>
        ensures { result ≡ spec.binary_type (sight self.now home) operator a b }
    {
        match operator {
            BinaryOperator::Logical(operator) => self.logical_type(home, operator, a, b),
            BinaryOperator::Relation(operator) => self.relation_type(home, operator, a, b),
            BinaryOperator::Sum(operator) => {
                or_else(
                    self.time_sum(home, operator, a, b),
                    self.arithmetic(home, a, b),
                )
            }
            BinaryOperator::Product(_) => self.arithmetic(home, a, b),
            BinaryOperator::Power => {
                let holds = self.is_integral(home, a) && self.is_exponent(home, b);
                only_if(holds, self.root(home, a))
            }
        }
    }

    fn is_negatable(&self, home: Option<usize>, a: ExprType) -> bool
        ensures { result ≡ spec.is_negatable (sight self.now home) a }
    {
        self.is_of(home, BOOLEAN, a) || self.is_modular_of(home, a)
    }

    /// The type of `op A`; none where the operator does not take this type.
    #[tactic(auto, unfolding(crate::specs::Operators::unary_type))]
    fn unary_type(
        &self,
        home: Option<usize>,
        operator: UnaryOperator,
        a: ExprType,
    ) -> Option<ExprType>
        ensures { result ≡ spec.unary_type (sight self.now home) operator a }
    {
        let holds = match operator {
            UnaryOperator::Not => self.is_negatable(home, a),
            _ => self.is_integral(home, a),
        };
        only_if(holds, self.root(home, a))
    }

    fn are_comparable(
        &self,
        home: Option<usize>,
        a: ExprType,
        low: ExprType,
        high: ExprType,
    ) -> bool
        ensures { result ≡ spec.are_comparable (sight self.now home) a low high }
    {
        self.is_comparable(home, a)
            && self.is_comparable(home, low)
            && self.is_comparable(home, high)
    }

    fn all_fit(&self, home: Option<usize>, a: ExprType, low: ExprType, high: ExprType) -> bool
        ensures { result ≡ spec.all_fit (sight self.now home) a low high }
    {
        self.fits(home, a, low) && self.fits(home, a, high) && self.fits(home, low, high)
    }

    /// The type of `A in L .. H`; none where these types do not go together.
    #[tactic(auto, unfolding(crate::specs::Operators::in_range_type))]
    fn in_range_type(
        &self,
        home: Option<usize>,
        a: ExprType,
        low: ExprType,
        high: ExprType,
    ) -> Option<ExprType>
        ensures { result ≡ spec.in_range_type (sight self.now home) a low high }
    {
        let holds = self.all_fit(home, a, low, high) && self.are_comparable(home, a, low, high);
        only_if(holds, ExprType::Of(BOOLEAN))
    }

    /// The type of `A op B`: none where an operand has none, or the operator does not take their types.
    pub fn binary_of(
        &self,
        home: Option<usize>,
        operator: BinaryOperator,
        a: Option<ExprType>,
        b: Option<ExprType>,
    ) -> Option<ExprType>
        ensures { result ≡ spec.binary_of (sight self.now home) operator a b }
    {
        match (a, b) {
            (Some(a), Some(b)) => self.binary_type(home, operator, a, b),
            _ => None,
        }
    }

    /// The type of `op A`: none where the operand has none, or the operator does not take its type.
    pub fn unary_of(
        &self,
        home: Option<usize>,
        operator: UnaryOperator,
        a: Option<ExprType>,
    ) -> Option<ExprType>
        ensures { result ≡ spec.unary_of (sight self.now home) operator a }
    {
        match a {
            Some(a) => self.unary_type(home, operator, a),
            None => None,
        }
    }

    /// The type of `A in L .. H`: none where a part has none, or their types do not go together.
    pub fn in_range_of(
        &self,
        home: Option<usize>,
        a: Option<ExprType>,
        low: Option<ExprType>,
        high: Option<ExprType>,
    ) -> Option<ExprType>
        ensures { result ≡ spec.in_range_of (sight self.now home) a low high }
    {
        match (a, low, high) {
            (Some(a), Some(low), Some(high)) => self.in_range_type(home, a, low, high),
            _ => None,
        }
    }

    /// The type of `A in M`: none where a part has none, or the value does not fit the mark.
    pub fn in_mark_of(
        &self,
        home: Option<usize>,
        a: Option<ExprType>,
        b: Option<ExprType>,
    ) -> Option<ExprType>
        ensures { result ≡ spec.in_mark_of (sight self.now home) a b }
    {
        match (a, b) {
            (Some(a), Some(b)) => only_if(self.fits(home, a, b), ExprType::Of(BOOLEAN)),
            _ => None,
        }
    }
}
