//! What names mean, as far as static values go.
ghost use Rattle.std.specs.Prelude.{◌≡◌};
ghost use Rattle.static_meanings.specs.Meanings as known;

use ada_tree::is_written;
use spark_base::TypeNo;

/// The bounds of a discrete subtype and of its first type.
#[derive(Clone, Copy, Debug)]
pub struct Range {
    pub subtype: TypeNo,
    pub first: TypeNo,
    pub low: i128,
    pub high: i128,
    /// The least value of the first type, and its greatest.
    pub least: i128,
    pub greatest: i128,
    /// The greatest value of a modular type.
    pub modular: Option<u64>,
}

/// What an expression stands for.
#[derive(Clone, Copy, Debug)]
pub enum Sense {
    Value,
    /// A type or a subtype.
    Mark,
    /// A function that makes so many nanoseconds of each unit.
    Scale(i128),
}

/// What a name means.
#[derive(Clone, Copy, Debug)]
pub struct Meaning {
    pub sense: Sense,
    /// The range of the type that it names, or of the type of what it names.
    pub range: Option<Range>,
    pub is_static: bool,
    pub value: Option<i128>,
}

/// The range of Boolean.
pub fn booleans() -> Range
    ensures { result ≡ known.booleans }
{
    Range {
        subtype: TypeNo(0),
        first: TypeNo(0),
        low: 0,
        high: 1,
        least: 0,
        greatest: 1,
        modular: None,
    }
}

fn integers_from(number: u32, low: i128) -> Range
    ensures { result ≡ known.integers_from number low }
{
    Range {
        subtype: TypeNo(number),
        first: TypeNo(1),
        low,
        high: 2147483647,
        least: -2147483648,
        greatest: 2147483647,
        modular: None,
    }
}

/// The range of Integer.
pub fn integers() -> Range
    ensures { result ≡ known.integers }
{
    integers_from(1, -2147483648)
}

/// The meaning of the name of a type or a subtype.
pub fn mark(range: Option<Range>) -> Meaning
    ensures { result ≡ known.mark range }
{
    Meaning {
        sense: Sense::Mark,
        range,
        is_static: false,
        value: None,
    }
}

/// The meaning of the name of an object, which is static if it has a value.
pub fn object(range: Option<Range>, value: Option<i128>) -> Meaning
    ensures { result ≡ known.object range value }
{
    Meaning {
        sense: Sense::Value,
        range,
        is_static: value.is_some(),
        value,
    }
}

fn scale(n: i128) -> Meaning
    ensures { result ≡ known.scale n }
{
    Meaning {
        sense: Sense::Scale(n),
        range: None,
        is_static: false,
        value: None,
    }
}

/// The meaning of a name of which nothing is known.
pub fn unknown() -> Meaning
    ensures { result ≡ known.unknown }
{
    object(None, None)
}

#[tactic(auto, unfolding(crate::specs::Meanings::of_real_time))]
fn of_real_time(text: &[u8]) -> Meaning
    ensures { result ≡ known.of_real_time text.now }
{
    if is_written(text, b"time") {
        mark(None)
    } else if is_written(text, b"time_span") {
        mark(None)
    } else if is_written(text, b"time_span_zero") {
        object(None, Some(0))
    } else if is_written(text, b"nanoseconds") {
        scale(1)
    } else if is_written(text, b"microseconds") {
        scale(1_000)
    } else if is_written(text, b"milliseconds") {
        scale(1_000_000)
    } else if is_written(text, b"seconds") {
        scale(1_000_000_000)
    } else if is_written(text, b"minutes") {
        scale(60_000_000_000)
    } else {
        unknown()
    }
}

/// What a predefined name means, in whatever case.
#[tactic(auto, unfolding(crate::specs::Meanings::predefined))]
pub fn predefined(text: &[u8]) -> Meaning
    ensures { result ≡ known.predefined text.now }
{
    if is_written(text, b"integer") {
        mark(Some(integers()))
    } else if is_written(text, b"natural") {
        mark(Some(integers_from(2, 0)))
    } else if is_written(text, b"positive") {
        mark(Some(integers_from(3, 1)))
    } else if is_written(text, b"boolean") {
        mark(Some(booleans()))
    } else if is_written(text, b"false") {
        object(Some(booleans()), Some(0))
    } else if is_written(text, b"true") {
        object(Some(booleans()), Some(1))
    } else {
        of_real_time(text)
    }
}
