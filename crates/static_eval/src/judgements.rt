//! What is said of an expression by its form, over what is said of its parts.
ghost use Rattle.std.specs.Prelude.{◌≡◌};
ghost use Rattle.static_eval.specs.Judgements as says;

use ada_forms::{BinaryOperator, Property, UnaryOperator};
use ada_tree::RelationalOperator;
use spark_base::Pos;
use static_meanings::{Meaning, Range, Sense, booleans, integers};
use static_numbers::{
    Computed, Computing, Preceding, adding, compute, compute_alone, divides, length, logical,
    multiplying, relate, scaled, sign, truth, within,
};

/// Why a static part has no value.
#[derive(Clone, Copy, Debug)]
pub enum Failure {
    /// Its value lies outside 128 bits.
    Outside,
    /// A static divisor is zero.
    Divided,
}

#[derive(Clone, Copy, Debug)]
pub struct Fault {
    pub failure: Failure,
    pub place: Pos,
}

/// What is said of an expression.
#[derive(Clone, Copy, Debug)]
pub struct Judgement {
    /// Where its first token stands.
    pub begins: Pos,
    /// Where its name stands, if it has one, or else its first token.
    pub at: Pos,
    pub sense: Sense,
    /// Of a name, the range of the type that it names, or of the type of what it names.
    pub range: Option<Range>,
    /// The range of its type, if it has a discrete one. Literals and named numbers have none.
    pub of: Option<Range>,
    /// Whether its form is static.
    pub is_static: bool,
    pub value: Option<i128>,
    /// The first of its static parts that has no value by Y01 or Y03.
    pub fault: Option<Fault>,
}

fn earlier(a: Option<Fault>, b: Option<Fault>) -> Option<Fault>
    ensures { result ≡ says.earlier a b }
{
    match a {
        Some(a) => Some(a),
        None => b,
    }
}

fn first_fault(parts: &[Judgement]) -> Option<Fault>
    ensures { result ≡ says.first_fault parts.now }
{
    for part in parts {
        if let Some(fault) = part.fault {
            return Some(fault);
        }
    }
    None
}

/// The first range, if there is one, else the second.
pub fn either(a: Option<Range>, b: Option<Range>) -> Option<Range>
    ensures { result ≡ says.either a b }
{
    match a {
        Some(a) => Some(a),
        None => b,
    }
}

fn all_static(parts: &[Judgement]) -> bool
    ensures { result ≡ says.all_static parts.now }
{
    for part in parts {
        if !part.is_static {
            return false;
        }
    }
    true
}

fn modular_of(range: Option<Range>) -> Option<u64>
    ensures { result ≡ says.modular_of range }
{
    match range {
        None => None,
        Some(range) => range.modular,
    }
}

/// What is said of what is not static.
pub fn plain(begins: Pos, at: Pos, fault: Option<Fault>) -> Judgement
    ensures { result ≡ says.plain begins at fault }
{
    Judgement {
        begins,
        at,
        sense: Sense::Value,
        range: None,
        of: None,
        is_static: false,
        value: None,
        fault,
    }
}

/// What is said of no node.
pub fn nothing_said() -> Judgement
    ensures { result ≡ says.nothing_said }
{
    let nowhere = Pos { line: 1, col: 1 };
    plain(nowhere, nowhere, None)
}

/// What is said of what is not static, by its parts.
#[tactic(auto, unfolding(crate::specs::Judgements::unstatic))]
pub fn unstatic(at: Pos, parts: &[Judgement]) -> Judgement
    ensures { result ≡ says.unstatic at parts.now }
{
    plain(at, at, first_fault(parts))
}

fn number_of(computed: Computed) -> Option<i128>
    ensures { result ≡ says.number_of computed }
{
    match computed {
        Computed::Number(n) => Some(n),
        _ => None,
    }
}

fn outside_at(computed: Computed, place: Pos) -> Option<Fault>
    ensures { result ≡ says.outside_at computed place }
{
    match computed {
        Computed::Outside => Some(Fault {
            failure: Failure::Outside,
            place,
        }),
        _ => None,
    }
}

fn is_zero(value: Option<i128>) -> bool
    ensures { result ≡ says.is_zero value }
{
    match value {
        Some(n) => n == 0,
        None => false,
    }
}

fn literal_of(base: Judgement, n: u128) -> Judgement
    ensures { result ≡ says.literal_of base n }
{
    if n <= 0x7fff_ffff_ffff_ffff_ffff_ffff_ffff_ffff {
        Judgement {
            is_static: true,
            value: Some(n as i128),
            ..base
        }
    } else {
        Judgement {
            is_static: true,
            fault: outside_at(Computed::Outside, base.at),
            ..base
        }
    }
}

/// A number.
#[tactic(auto, unfolding(crate::specs::Judgements::literal))]
pub fn literal(at: Pos, n: u128) -> Judgement
    ensures { result ≡ says.literal at n }
{
    literal_of(plain(at, at, None), n)
}

fn pass(base: Judgement, a: Judgement) -> Judgement
    ensures { result ≡ says.pass base a }
{
    Judgement {
        of: a.of,
        is_static: a.is_static,
        value: a.value,
        ..base
    }
}

/// An expression in parentheses, or an argument.
#[tactic(auto, unfolding(crate::specs::Judgements::passed))]
pub fn passed(at: Pos, a: Judgement) -> Judgement
    ensures { result ≡ says.passed at a }
{
    pass(plain(at, at, a.fault), a)
}

/// An argument behind the name of its formal.
#[tactic(auto, unfolding(crate::specs::Judgements::named_argument))]
pub fn named_argument(at: Pos, formal: Judgement, a: Judgement) -> Judgement
    ensures { result ≡ says.named_argument at formal a }
{
    pass(plain(at, at, earlier(formal.fault, a.fault)), a)
}

fn both(how: Computing, a: Option<i128>, b: Option<i128>, modular: Option<u64>) -> Computed
    ensures { result ≡ says.both how a b modular }
{
    match a {
        None => Computed::Nothing,
        Some(a) => match b {
            None => Computed::Nothing,
            Some(b) => compute(how, a, b, modular),
        },
    }
}

/// A static zero on the right of a division is refused whatever stands on the left.
fn fault_between(how: Computing, place: Pos, right: Judgement, computed: Computed) -> Option<Fault>
    ensures { result ≡ says.fault_between how place right computed }
{
    if divides(how) && right.is_static && is_zero(right.value) {
        Some(Fault {
            failure: Failure::Divided,
            place,
        })
    } else {
        outside_at(computed, place)
    }
}

fn between(how: Computing, at: Pos, place: Pos, a: Judgement, b: Judgement) -> Judgement
    ensures { result ≡ says.between how at place a b }
{
    let of = either(a.of, b.of);
    let computed = both(how, a.value, b.value, modular_of(of));
    Judgement {
        of,
        is_static: a.is_static && b.is_static,
        value: number_of(computed),
        fault: earlier(
            a.fault,
            earlier(fault_between(how, place, b, computed), b.fault),
        ),
        ..plain(at, at, None)
    }
}

fn related(operator: RelationalOperator, a: Option<i128>, b: Option<i128>) -> Computed
    ensures { result ≡ says.related operator a b }
{
    match a {
        None => Computed::Nothing,
        Some(a) => match b {
            None => Computed::Nothing,
            Some(b) => truth(relate(operator, a, b)),
        },
    }
}

/// A truth value.
fn tested(at: Pos, fault: Option<Fault>, is_static: bool, computed: Computed) -> Judgement
    ensures { result ≡ says.tested at fault is_static computed }
{
    Judgement {
        of: Some(booleans()),
        is_static,
        value: number_of(computed),
        ..plain(at, at, fault)
    }
}

fn relation(operator: RelationalOperator, at: Pos, a: Judgement, b: Judgement) -> Judgement
    ensures { result ≡ says.relation operator at a b }
{
    tested(
        at,
        earlier(a.fault, b.fault),
        a.is_static && b.is_static,
        related(operator, a.value, b.value),
    )
}

/// An operator at a place between two parts.
#[tactic(auto, unfolding(crate::specs::Judgements::binary))]
pub fn binary(
    operator: BinaryOperator,
    at: Pos,
    place: Pos,
    a: Judgement,
    b: Judgement,
) -> Judgement
    ensures { result ≡ says.binary operator at place a b }
{
    match operator {
        BinaryOperator::Logical(operator) => between(logical(operator), at, place, a, b),
        BinaryOperator::Relation(operator) => relation(operator, at, a, b),
        BinaryOperator::Sum(operator) => between(adding(operator), at, place, a, b),
        BinaryOperator::Product(operator) => between(multiplying(operator), at, place, a, b),
        BinaryOperator::Power => between(Computing::Power, at, place, a, b),
    }
}

fn alone(how: Preceding, a: Option<i128>, modular: Option<u64>) -> Computed
    ensures { result ≡ says.alone how a modular }
{
    match a {
        None => Computed::Nothing,
        Some(a) => compute_alone(how, a, modular),
    }
}

fn preceding(operator: UnaryOperator) -> Preceding
    ensures { result ≡ says.preceding operator }
{
    match operator {
        UnaryOperator::Sign(operator) => sign(operator),
        UnaryOperator::Absolute => Preceding::Absolute,
        UnaryOperator::Not => Preceding::Not,
    }
}

/// An operator before its part.
#[tactic(auto, unfolding(crate::specs::Judgements::unary))]
pub fn unary(operator: UnaryOperator, at: Pos, a: Judgement) -> Judgement
    ensures { result ≡ says.unary operator at a }
{
    let computed = alone(preceding(operator), a.value, modular_of(a.of));
    Judgement {
        of: a.of,
        is_static: a.is_static,
        value: number_of(computed),
        fault: earlier(outside_at(computed, at), a.fault),
        ..plain(at, at, None)
    }
}

fn in_bounds(low: Option<i128>, high: Option<i128>, n: Option<i128>) -> Computed
    ensures { result ≡ says.in_bounds low high n }
{
    match n {
        None => Computed::Nothing,
        Some(n) => match low {
            None => Computed::Nothing,
            Some(low) => match high {
                None => Computed::Nothing,
                Some(high) => truth(low <= n && n <= high),
            },
        },
    }
}

fn turned(computed: Computed, is_not: bool) -> Computed
    ensures { result ≡ says.turned computed is_not }
{
    match computed {
        Computed::Number(n) => truth((n != 0) != is_not),
        _ => Computed::Nothing,
    }
}

/// A membership in a range.
#[tactic(auto, unfolding(crate::specs::Judgements::in_range))]
pub fn in_range(at: Pos, is_not: bool, a: Judgement, low: Judgement, high: Judgement) -> Judgement
    ensures { result ≡ says.in_range at is_not a low high }
{
    tested(
        at,
        earlier(a.fault, earlier(low.fault, high.fault)),
        a.is_static && low.is_static && high.is_static,
        turned(in_bounds(low.value, high.value, a.value), is_not),
    )
}

fn within_range(range: Option<Range>, n: Option<i128>) -> Computed
    ensures { result ≡ says.within_range range n }
{
    match range {
        None => Computed::Nothing,
        Some(range) => in_bounds(Some(range.low), Some(range.high), n),
    }
}

/// A membership in a subtype.
#[tactic(auto, unfolding(crate::specs::Judgements::in_mark))]
pub fn in_mark(at: Pos, is_not: bool, a: Judgement, mark: Judgement) -> Judgement
    ensures { result ≡ says.in_mark at is_not a mark }
{
    tested(
        at,
        earlier(a.fault, mark.fault),
        a.is_static && mark.range.is_some(),
        turned(within_range(mark.range, a.value), is_not),
    )
}

/// The value of the first branch whose condition is true.
fn chosen(parts: &[Judgement]) -> Option<i128>
    ensures { result ≡ says.chosen parts.now }
{
    let mut rest = parts;
    loop {
        match rest {
            [] => return None,
            [last] => return last.value,
            [condition, value, others @ ..] => match condition.value {
                None => return None,
                Some(n) => {
                    if n != 0 {
                        return value.value;
                    }
                    rest = others;
                }
            },
        }
    }
}

/// The type of the first branch that has one.
fn branch_type(parts: &[Judgement]) -> Option<Range>
    ensures { result ≡ says.branch_type parts.now }
{
    let mut rest = parts;
    loop {
        match rest {
            [] => return None,
            [last] => return last.of,
            [_, value, others @ ..] => {
                if let Some(range) = value.of {
                    return Some(range);
                }
                rest = others;
            }
        }
    }
}

/// A conditional expression, by its conditions and values in turn.
#[tactic(auto, unfolding(crate::specs::Judgements::conditional))]
pub fn conditional(at: Pos, parts: &[Judgement]) -> Judgement
    ensures { result ≡ says.conditional at parts.now }
{
    Judgement {
        of: branch_type(parts),
        is_static: all_static(parts),
        value: chosen(parts),
        ..unstatic(at, parts)
    }
}

fn meant(base: Judgement, meaning: Meaning) -> Judgement
    ensures { result ≡ says.meant base meaning }
{
    Judgement {
        sense: meaning.sense,
        range: meaning.range,
        of: meaning.range,
        is_static: meaning.is_static,
        value: meaning.value,
        ..base
    }
}

/// A name of one word.
#[tactic(auto, unfolding(crate::specs::Judgements::identifier))]
pub fn identifier(at: Pos, meaning: Meaning) -> Judgement
    ensures { result ≡ says.identifier at meaning }
{
    meant(plain(at, at, None), meaning)
}

/// A name behind a prefix and a point.
#[tactic(auto, unfolding(crate::specs::Judgements::selected))]
pub fn selected(at: Pos, meaning: Meaning, prefix: Judgement) -> Judgement
    ensures { result ≡ says.selected at meaning prefix }
{
    meant(plain(prefix.begins, at, prefix.fault), meaning)
}

fn converted(range: Option<Range>, n: Option<i128>) -> Option<i128>
    ensures { result ≡ says.converted range n }
{
    match n {
        None => None,
        Some(n) => match range {
            None => Some(n),
            Some(range) => number_of(within(range.low, range.high, n)),
        },
    }
}

fn conversion(base: Judgement, mark: Judgement, a: Judgement) -> Judgement
    ensures { result ≡ says.conversion base mark a }
{
    Judgement {
        range: mark.range,
        of: mark.range,
        is_static: a.is_static,
        value: converted(mark.range, a.value),
        ..base
    }
}

fn times(factor: i128, n: Option<i128>) -> Computed
    ensures { result ≡ says.times factor n }
{
    match n {
        None => Computed::Nothing,
        Some(n) => scaled(factor, n),
    }
}

fn computed_duration(base: Judgement, place: Pos, a: Judgement, computed: Computed) -> Judgement
    ensures { result ≡ says.computed_duration base place a computed }
{
    Judgement {
        is_static: a.is_static,
        value: number_of(computed),
        fault: earlier(outside_at(computed, place), base.fault),
        ..base
    }
}

fn result_of(base: Judgement, meaning: Meaning) -> Judgement
    ensures { result ≡ says.result_of base meaning }
{
    Judgement {
        range: meaning.range,
        of: meaning.range,
        ..base
    }
}

/// A conversion, a product of time, an index or a call, by its prefix and its arguments. The meaning is that of the
/// result of an index or a call.
#[tactic(auto, unfolding(crate::specs::Judgements::applied))]
pub fn applied(at: Pos, meaning: Meaning, parts: &[Judgement]) -> Judgement
    ensures { result ≡ says.applied at meaning parts.now }
{
    let base = unstatic(at, parts);
    match parts {
        [prefix, a] => match prefix.sense {
            Sense::Mark => conversion(base, *prefix, *a),
            Sense::Scale(factor) => computed_duration(base, prefix.at, *a, times(factor, a.value)),
            Sense::Value => result_of(base, meaning),
        },
        _ => result_of(base, meaning),
    }
}

/// A qualified expression.
#[tactic(auto, unfolding(crate::specs::Judgements::qualified))]
pub fn qualified(at: Pos, mark: Judgement, a: Judgement) -> Judgement
    ensures { result ≡ says.qualified at mark a }
{
    conversion(plain(at, at, earlier(mark.fault, a.fault)), mark, a)
}

fn bound(base: Judgement, range: Range, n: i128) -> Judgement
    ensures { result ≡ says.bound base range n }
{
    Judgement {
        of: Some(range),
        is_static: true,
        value: Some(n),
        ..base
    }
}

fn count(base: Judgement, computed: Computed) -> Judgement
    ensures { result ≡ says.count base computed }
{
    Judgement {
        of: Some(integers()),
        is_static: true,
        value: number_of(computed),
        fault: earlier(base.fault, outside_at(computed, base.at)),
        ..base
    }
}

fn of_range(base: Judgement, what: Property, range: Option<Range>) -> Judgement
    ensures { result ≡ says.of_range base what range }
{
    match range {
        None => base,
        Some(range) => match what {
            Property::First => bound(base, range, range.low),
            Property::Last => bound(base, range, range.high),
            Property::Length => count(base, length(range.low, range.high)),
            _ => base,
        },
    }
}

fn first_bound(range: Range, computed: Computed) -> Computed
    ensures { result ≡ says.first_bound range computed }
{
    match computed {
        Computed::Number(n) => within(range.least, range.greatest, n),
        _ => Computed::Nothing,
    }
}

/// The value before or behind one of the first type.
fn stepped(how: Computing, range: Option<Range>, n: Option<i128>) -> Computed
    ensures { result ≡ says.stepped how range n }
{
    match range {
        None => Computed::Nothing,
        Some(range) => first_bound(range, both(how, n, Some(1), range.modular)),
    }
}

fn at_position(range: Option<Range>, n: Option<i128>) -> Computed
    ensures { result ≡ says.at_position range n }
{
    match range {
        None => Computed::Nothing,
        Some(range) => match n {
            None => Computed::Nothing,
            Some(n) => within(range.least, range.greatest, n),
        },
    }
}

fn with_value(base: Judgement, of: Option<Range>, is_static: bool, value: Option<i128>) -> Judgement
    ensures { result ≡ says.with_value base of is_static value }
{
    Judgement {
        of,
        is_static,
        value,
        ..base
    }
}

fn of_one(base: Judgement, what: Property, prefix: Judgement, a: Judgement) -> Judgement
    ensures { result ≡ says.of_one base what prefix a }
{
    let of = prefix.range;
    match what {
        Property::Succ => with_value(
            base,
            of,
            a.is_static,
            number_of(stepped(Computing::Add, of, a.value)),
        ),
        Property::Pred => with_value(
            base,
            of,
            a.is_static,
            number_of(stepped(Computing::Subtract, of, a.value)),
        ),
        Property::Pos => with_value(base, Some(integers()), a.is_static, a.value),
        Property::Val => with_value(base, of, a.is_static, number_of(at_position(of, a.value))),
        _ => base,
    }
}

fn least(a: Option<i128>, b: Option<i128>) -> Option<i128>
    ensures { result ≡ says.least a b }
{
    match a {
        None => None,
        Some(a) => match b {
            None => None,
            Some(b) => { if b < a { Some(b) } else { Some(a) } }
        },
    }
}

fn greatest(a: Option<i128>, b: Option<i128>) -> Option<i128>
    ensures { result ≡ says.greatest a b }
{
    match a {
        None => None,
        Some(a) => match b {
            None => None,
            Some(b) => { if b < a { Some(a) } else { Some(b) } }
        },
    }
}

fn of_two(
    base: Judgement,
    what: Property,
    prefix: Judgement,
    a: Judgement,
    b: Judgement,
) -> Judgement
    ensures { result ≡ says.of_two base what prefix a b }
{
    let is_static = a.is_static && b.is_static;
    match what {
        Property::Min => with_value(base, prefix.range, is_static, least(a.value, b.value)),
        Property::Max => with_value(base, prefix.range, is_static, greatest(a.value, b.value)),
        _ => base,
    }
}

fn begins_with(at: Pos, parts: &[Judgement]) -> Pos
    ensures { result ≡ says.begins_with at parts.now }
{
    match parts {
        [] => at,
        [first, ..] => first.begins,
    }
}

/// An attribute, by its prefix and its arguments.
#[tactic(auto, unfolding(crate::specs::Judgements::attribute))]
pub fn attribute(at: Pos, what: Property, parts: &[Judgement]) -> Judgement
    ensures { result ≡ says.attribute at what parts.now }
{
    let base = plain(begins_with(at, parts), at, first_fault(parts));
    match parts {
        [prefix] => of_range(base, what, prefix.range),
        [prefix, a] => of_one(base, what, *prefix, *a),
        [prefix, a, b] => of_two(base, what, *prefix, *a, *b),
        _ => base,
    }
}
