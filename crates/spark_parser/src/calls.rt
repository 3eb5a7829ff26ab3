ghost use Rattle.std.specs.Prelude.{IfOk};
ghost use Rattle.ada_tree.specs.Tree.{IsOrdered};
ghost use Rattle.spark_parser.specs.Files.{Adds, TellsFile};
ghost use Rattle.spark_parser.specs.Parsed.{IsAnswer};

use crate::files::file;
use ada_grammar::{Cursor, Nesting, phase_fault, syntax_fault};
use ada_tree::{Tokens, Units};
use spark_base::{Items, NoMemory};
use spark_messages::{Message, PhaseFault};
use std::alloc::Global;

/// Why the files have no trees.
#[derive(Debug, Drop)]
pub enum ParseFault {
    /// The first refusal of each file that is refused, in the order of the files; there is one at least.
    Refused(Items<Message>),
    /// Memory was refused.
    NoMemory,
}

impl From<NoMemory> for ParseFault {
    ghost use Rattle.std.specs.Prelude.{◌≡◌};
    ghost use Rattle.spark_parser.specs.declared.calls.ParseFault.TheVariants as refusals;

    ghost from_gives = { λ _ fault. fault ≡ refusals.NoMemory };

    fn from(_: NoMemory) -> Self {
        ParseFault::NoMemory
    }
}

/// Reads a file and adds its units, or tells why there are none. Nodes of a file that is refused may stay.
fn parse_file(alloc: Global, units: &mut Units, tokens: &Tokens) -> Result<(), PhaseFault>
    requires { IsOrdered units.old }
    ensures { TellsFile tokens.now units.old units.new result }
{
    let start = Cursor {
        at: 0,
        nesting: Nesting::new(0, 0),
    };
    match file(alloc, units, tokens, start) {
        Ok(next) => {
            if next.at < tokens.list.len() {
                Err(syntax_fault(alloc, tokens, next.at))
            } else {
                Ok(())
            }
        }
        Err(fault) => Err(phase_fault(alloc, tokens, fault)),
    }
}

/// Adds a file's units, or its refusal. Behind a refusal no trees are wanted any more, so all are given up.
fn add_file(
    alloc: Global,
    units: &mut Units,
    refusals: &mut Items<Message>,
    tokens: &Tokens,
) -> Result<(), NoMemory>
    requires { IsOrdered units.old }
    ensures { IfOk result (λ _. Adds tokens.now units.old units.new refusals.old refusals.new) }
{
    match parse_file(alloc, units, tokens) {
        Ok(()) => Ok(()),
        Err(PhaseFault::Refused(message)) => {
            *units = Units::new(alloc);
            refusals.push(message)?;
            Ok(())
        }
        Err(PhaseFault::NoMemory) => Err(NoMemory),
    }
}

/// The trees of all files, or the refusals of those that have none: of each the first, in the order of the files. All
/// files are read, also behind one that is refused. S01 and U01 stand at the first token that no file goes on with, or at
/// the end of a file that is only the front of one; X02 at the first token that opens one more than 128 parentheses, 128
/// compound statements or 16 loops, or is one more than 1,024 operators in an expression.
pub fn parse(alloc: Global, all: &[Tokens]) -> Result<Units, ParseFault>
    ensures { IsAnswer all.now result }
{
    let mut units = Units::new(alloc);
    let mut refusals = Items::new(alloc);
    for tokens in all {
        add_file(alloc, &mut units, &mut refusals, tokens)?;
    }
    if refusals.is_empty() {
        Ok(units)
    } else {
        Err(ParseFault::Refused(refusals))
    }
}
