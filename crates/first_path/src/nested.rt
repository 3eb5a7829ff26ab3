ghost use Rattle.std.specs.Prelude.{◌≡◌, ◌∷◌, ◌&&◌, [], List, IfOk, IsTrue, false, length, nat_lt};
ghost use Rattle.first_path.specs.Nested.{AreNested};
ghost use Rattle.first_path.specs.Nesting.{nests};
ghost use Rattle.first_path.specs.declared.nested.Side.TheVariants as side;
ghost use Rattle.first_path.specs.declared.source.Line.{Line};
ghost use Rattle.first_path.specs.declared.source.Line.TheVariants as line;

use crate::source::Line;
use spark_base::NoMemory;
use std::alloc::Global;
use std::collections::VecDeque;

/// The most ifs that are open at once.
const MOST_OPEN: usize = 128;

/// The side of an if that is being read.
#[derive(Clone, Copy)]
enum Side {
    Then,
    Else,
}

/// What is open: the sides of the ifs, from the innermost, and whether the list that is being read has a statement.
#[derive(Drop)]
struct Nesting {
    sides: VecDeque<Side>,
    has_statement: bool,
}

/// Opens an if. False says that too many are open.
fn open_if(nesting: &mut Nesting) -> Result<bool, NoMemory>
    ensures { IfOk result (λ b. (ls : List Line)
        → (nat_lt (length nesting.old.sides.items) 128 && nests (side.Then ∷ nesting.old.sides.items) false ls)
        ≡ (b && nests nesting.new.sides.items nesting.new.has_statement ls)) }
{
    if nesting.sides.len() >= MOST_OPEN {
        return Ok(false);
    }
    nesting.sides.push_front(Side::Then)?;
    nesting.has_statement = false;
    Ok(true)
}

/// Goes on to the else. False says that none may stand here.
fn turn(nesting: &mut Nesting) -> Result<bool, NoMemory>
    ensures { IfOk result (λ b. (ls : List Line) → nests nesting.old.sides.items nesting.old.has_statement (line.Else ∷ ls)
        ≡ (b && nests nesting.new.sides.items nesting.new.has_statement ls)) }
{
    match nesting.sides.pop_front() {
        Some(Side::Then) if nesting.has_statement => {
            nesting.sides.push_front(Side::Else)?;
            nesting.has_statement = false;
            Ok(true)
        }
        _ => Ok(false),
    }
}

/// Ends an if. False says that none may end here.
fn close(nesting: &mut Nesting) -> bool
    ensures { (ls : List Line) → nests nesting.old.sides.items nesting.old.has_statement (line.EndIf ∷ ls)
        ≡ (result && nests nesting.new.sides.items nesting.new.has_statement ls) }
{
    nesting.sides.pop_front().is_some() && nesting.has_statement
}

/// Reads a line. False says that it may not stand here.
fn step(nesting: &mut Nesting, line: &Line) -> Result<bool, NoMemory>
    ensures { IfOk result (λ b. (ls : List Line) → nests nesting.old.sides.items nesting.old.has_statement (line.now ∷ ls)
        ≡ (b && nests nesting.new.sides.items nesting.new.has_statement ls)) }
{
    match line {
        Line::Null | Line::Assign { .. } => {
            nesting.has_statement = true;
            Ok(true)
        }
        Line::If(_) => open_if(nesting),
        Line::Else => turn(nesting),
        Line::EndIf => Ok(close(nesting)),
    }
}

/// Whether the test of nesting holds of these lines.
fn nests(alloc: Global, lines: &[Line]) -> Result<bool, NoMemory>
    ensures { IfOk result (λ b. b ≡ nests [] false lines.now) }
{
    let mut nesting = Nesting {
        sides: VecDeque::new(alloc),
        has_statement: false,
    };
    for line in lines {
        if !step(&mut nesting, line)? {
            return Ok(false);
        }
    }
    Ok(nesting.sides.is_empty() && nesting.has_statement)
}

/// Whether these are the lines of a list of statements, in which at most 128 ifs are open at once.
#[tactic(auto, using(crate::proofs::Nesting::nested, crate::proofs::Nesting::denied_nested))]
pub fn is_nested(alloc: Global, lines: &[Line]) -> Result<bool, NoMemory>
    ensures yes { IfOk result (λ b. IsTrue b → AreNested lines.now) }
    ensures no { IfOk result (λ b. b ≡ false → AreNested lines.now → ⊥) }
{
    nests(alloc, lines)
}
