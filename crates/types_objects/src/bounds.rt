//! The bounds and moduli of types.
ghost use Rattle.std.specs.Prelude.{◌≡◌, IfOk};
ghost use Rattle.static_eval.specs.Known.{said};
ghost use Rattle.types_objects.specs.Bounds as bounds;

use ada_tree::Units;
use spark_base::{ExprNo, NoMemory, Pos};
use spark_messages::Code;
use static_eval::{Judgement, Known, Verdict, judge, verdict_of};
use static_meanings::Range;
use std::alloc::Global;

/// What bounds or a modulus make, or the first refusal of them.
#[derive(Clone, Copy, Debug)]
pub enum Formed {
    Bounds { low: i128, high: i128 },
    Modulus(u128),
    Refused { code: Code, place: Pos },
}

fn disallowed(place: Pos) -> Formed
    ensures { result ≡ bounds.disallowed place }
{
    Formed::Refused {
        code: Code::Y05,
        place,
    }
}

fn ordered(low: i128, high: i128, place: Pos) -> Formed
    ensures { result ≡ bounds.ordered low high place }
{
    if high < low {
        disallowed(place)
    } else {
        Formed::Bounds { low, high }
    }
}

/// `range L .. H`: the bounds of a type.
fn of_bounds(low: Judgement, high: Judgement) -> Formed
    ensures { result ≡ bounds.of_bounds low high }
{
    match verdict_of(low) {
        Verdict::Refused { code, place } => Formed::Refused { code, place },
        Verdict::Value(l) => match verdict_of(high) {
            Verdict::Refused { code, place } => Formed::Refused { code, place },
            Verdict::Value(h) => ordered(l, h, low.begins),
        },
    }
}

fn of_number(m: i128, place: Pos) -> Formed
    ensures { result ≡ bounds.of_number m place }
{
    if m < 2 || m > 18446744073709551616 {
        disallowed(place)
    } else {
        Formed::Modulus(m.unsigned_abs())
    }
}

/// `mod M`
fn of_modulus(m: Judgement) -> Formed
    ensures { result ≡ bounds.of_modulus m }
{
    match verdict_of(m) {
        Verdict::Refused { code, place } => Formed::Refused { code, place },
        Verdict::Value(n) => of_number(n, m.begins),
    }
}

/// Whether a bound lies in the subtype that is named, if that has a range.
fn is_inside(range: Option<Range>, n: i128) -> bool
    ensures { result ≡ bounds.is_inside range n }
{
    match range {
        None => true,
        Some(range) => range.low <= n && n <= range.high,
    }
}

/// The high bound of a subtype, whose low one is allowed.
fn of_high(range: Option<Range>, low: i128, high: Judgement) -> Formed
    ensures { result ≡ bounds.of_high range low high }
{
    match verdict_of(high) {
        Verdict::Refused { code, place } => Formed::Refused { code, place },
        Verdict::Value(h) => {
            if is_inside(range, h) {
                Formed::Bounds { low, high: h }
            } else {
                disallowed(high.begins)
            }
        }
    }
}

/// `M range L .. H`, where M has this range: each bound lies in it, also where the subtype is empty.
fn of_subtype(range: Option<Range>, low: Judgement, high: Judgement) -> Formed
    ensures { result ≡ bounds.of_subtype range low high }
{
    match verdict_of(low) {
        Verdict::Refused { code, place } => Formed::Refused { code, place },
        Verdict::Value(l) => {
            if is_inside(range, l) {
                of_high(range, l, high)
            } else {
                disallowed(low.begins)
            }
        }
    }
}

/// The bounds of `type N is range L .. H`, or their first refusal.
pub fn range_type(
    alloc: Global,
    units: &Units,
    known: &Known,
    low: ExprNo,
    high: ExprNo,
) -> Result<Formed, NoMemory>
    ensures { IfOk result (λ f. f ≡ bounds.of_bounds (said units.now known.now low) (said units.now known.now high)) }
{
    let low = judge(alloc, units, known, low)?;
    let high = judge(alloc, units, known, high)?;
    Ok(of_bounds(low, high))
}

/// The modulus of `type N is mod M`, or its refusal.
pub fn modular_type(
    alloc: Global,
    units: &Units,
    known: &Known,
    modulus: ExprNo,
) -> Result<Formed, NoMemory>
    ensures { IfOk result (λ f. f ≡ bounds.of_modulus (said units.now known.now modulus)) }
{
    let modulus = judge(alloc, units, known, modulus)?;
    Ok(of_modulus(modulus))
}

/// The bounds of `M range L .. H`, or their first refusal.
pub fn subtype_bounds(
    alloc: Global,
    units: &Units,
    known: &Known,
    of: Option<Range>,
    low: ExprNo,
    high: ExprNo,
) -> Result<Formed, NoMemory>
    ensures { IfOk result (λ f. f ≡ bounds.of_subtype of (said units.now known.now low) (said units.now known.now high)) }
{
    let low = judge(alloc, units, known, low)?;
    let high = judge(alloc, units, known, high)?;
    Ok(of_subtype(of, low, high))
}
