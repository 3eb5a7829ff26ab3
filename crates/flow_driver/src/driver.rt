ghost use Rattle.std.specs.Prelude.{◌≡◌, [], ◌∷◌, length, ◌⊎◌, ◌≤◌, ◌++◌, ◌↔◌, true, false, IsTrue, IfOk, map, string_bytes, codes};
ghost use Rattle.source_io.specs.Counts.{Rose, Grew};
ghost use Rattle.flow_driver.specs.Report.{IsReport};
ghost use Rattle.flow_driver.specs.Run.{has_errors, verdict};
ghost use Rattle.flow_driver.specs.Ending.{Prints, IsStatus, CountsReadFault, CountsWriteFault, AsksNames};

use crate::{ReadFault, Report, read_all, report_of};
use source_io::{Files, PrintFault, Sink, print_into};
use spark_base::{Bytes, Items, NoMemory};
use spark_messages::{Message, text_of};
use std::alloc::Global;

/// How a run ended.
#[derive(Clone, Copy, Debug, PartialEq, Eq)]
pub enum Ending {
    /// The whole text was printed. The status is 0, 1 or 2.
    Printed { status: u8 },
    /// The file of the name at this place, from 0, could not be read.
    CannotRead { at: usize },
    /// A front part of the text was printed.
    WriteFailed,
    /// Want of memory, with a front part of the text or nothing.
    NoMemory,
}

/// Whether a message counts as an error.
fn has_errors(list: &[Message]) -> bool
    ensures { result ≡ has_errors list.now }
{
    list.iter().any(|message| message.kind.is_grave())
}

/// The status of a report.
fn verdict(report: &Report) -> u8
    ensures value { result ≡ verdict report.now }
    ensures range { result ≤ 2 }
{
    if report.refused {
        2
    } else if has_errors(report.messages.as_slice()) {
        1
    } else {
        0
    }
}

/// The only one of some sources.
fn only_one(sources: Items<Bytes>) -> Bytes
    requires { length sources ≡ 1 }
    ensures { sources ≡ result ∷ [] }
{
    let mut list = sources.into_vec();
    match list.pop() {
        Some(source) => source,
        None => unreachable!(),
    }
}

/// The report of some sources, of which there is one as yet.
#[tactic(auto, unfolding(crate::specs::Report::IsReport))]
fn report_of_all(alloc: Global, sources: Items<Bytes>) -> Result<Report, NoMemory>
    requires { length sources ≡ 1 }
    ensures { IfOk result (IsReport sources) }
{
    report_of(alloc, only_one(sources))
}

/// Reads the file of this one name, analyses it and prints.
pub fn run<F: Files, K: Sink>(alloc: Global, names: &[String], files: &mut F, out: &mut K) -> Ending
    requires { length names.now ≡ 1 }
    ensures out { Prints F.told F.gaps K.held (map string_bytes names.now) files.old out.old out.new result }
    ensures status { IsStatus result }
    ensures read { CountsReadFault (F.faults files.old) (F.faults files.new) result }
    ensures write { CountsWriteFault (K.faults out.old) (K.faults out.new) result }
    ensures asks { AsksNames (map string_bytes names.now) (F.asked files.old) (F.asked files.new) result }
{
    let sources = match read_all(alloc, names, files) {
        Ok(sources) => sources,
        Err(ReadFault::Failed { at }) => return Ending::CannotRead { at },
        Err(ReadFault::NoMemory) => return Ending::NoMemory,
    };
    let Ok(report) = report_of_all(alloc, sources) else {
        return Ending::NoMemory;
    };
    let Ok(text) = text_of(alloc, names, report.messages.as_slice()) else {
        return Ending::NoMemory;
    };
    match print_into(out, text.as_slice()) {
        Ok(()) => Ending::Printed {
            status: verdict(&report),
        },
        Err(PrintFault::Failed { .. }) => Ending::WriteFailed,
        Err(PrintFault::NoMemory { .. }) => Ending::NoMemory,
    }
}
