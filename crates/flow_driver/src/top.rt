ghost use Rattle.std.specs.Prelude.{◌≡◌, ◌⊎◌, ◌≤◌, ◌↔◌, ℕ, true, false, map, string_bytes, codes};
ghost use Rattle.source_io.specs.Clean.{files_told, names_asked, bytes_held};
ghost use Rattle.source_io.specs.Counts.{Rose};
ghost use Rattle.flow_driver.specs.Run.{is_name, are_accepted, IsCountedBy, Analysis, IsPrinted, IsPartlyPrinted, GrewByPart, Complains, unread_line};
ghost use Rattle.spark_messages.specs.Text.{name_at};
ghost use Rattle.flow_driver.specs.Reading.{IsLastAsked};

use crate::{Ending, run};
use source_io::{CleanFiles, CleanSink, Files, Sink, Turnstile, print_into};
use std::alloc::Global;

/// Whether a word names a file.
fn is_name(word: &[u8]) -> bool
    ensures { result ≡ is_name word.now }
{
    match word {
        [] => true,
        [first, ..] => *first != b'-',
    }
}

/// Whether the words are accepted.
fn are_accepted(words: &[String]) -> bool
    ensures { result ≡ are_accepted (map string_bytes words.now) }
{
    match words {
        [word] => is_name(word.as_bytes()),
        _ => false,
    }
}

/// Puts a line, as far as it goes.
fn say<E: Sink>(err: &mut E, line: &[u8])
    ensures { Complains E.held E.faults E.wants line.now err.old err.new }
{
    let _ = print_into(err, line);
}

/// Names the file that could not be read, as far as it goes. It takes no memory.
fn say_unread<E: Sink>(err: &mut E, name: &[u8])
    ensures { Complains E.held E.faults E.wants (unread_line name.now) err.old err.new }
{
    if print_into(err, b"sparkflow: cannot read ").is_err() {
        return;
    }
    if print_into(err, name).is_err() {
        return;
    }
    let _ = print_into(err, b"\n");
}

/// Does what the words ask for, and answers the status of the program.
///
/// 0 stands for a report without an error, 1 for an error of the flow, 2 for refused sources, 3 for refused words, 4 for a
/// file that could not be read, 5 for a text that could not be printed whole, and 6 for want of memory.
pub fn run_words<F: Files, K: Sink, E: Sink, G: Turnstile>(
    alloc: Global,
    words: &[String],
    files: &mut F,
    out: &mut K,
    err: &mut E,
    _gate: &G,
) -> u8
    // Which status it is.
    ensures range { result ≤ 6 }
    ensures words { (result ≡ 3) ↔ (are_accepted (map string_bytes words.now) ≡ false) }
    ensures unread { IsCountedBy (result ≡ 4) (F.faults files.old) (F.faults files.new) }
    ensures unwritten { IsCountedBy (result ≡ 5) (K.faults out.old) (K.faults out.new) }

    // What `out` gained, and what status 0 says of runs.
    ensures printed { result ≤ 2 → (a : Analysis F.told F.gaps (map string_bytes words.now) files.old)
        × IsPrinted a result (K.held out.old) (K.held out.new) }
    ensures untouched { (result ≡ 3) ⊎ (result ≡ 4) → K.held out.new ≡ K.held out.old }
    ensures cut { result ≡ 5 → (a : Analysis F.told F.gaps (map string_bytes words.now) files.old)
        × IsPartlyPrinted a (K.held out.old) (K.held out.new) }
    ensures given_up { result ≡ 6 → (K.held out.new ≡ K.held out.old)
        ⊎ ((a : Analysis F.told F.gaps (map string_bytes words.now) files.old) × IsPartlyPrinted a (K.held out.old) (K.held out.new)) }

    // Which files were asked for.
    ensures asked { GrewByPart (F.asked files.old) (map string_bytes words.now) (F.asked files.new) }
    ensures none_asked { result ≡ 3 → F.asked files.new ≡ F.asked files.old }

    // What `err` gained.
    ensures silent { result ≤ 2 → E.held err.new ≡ E.held err.old }
    ensures words_line { result ≡ 3 → Complains E.held E.faults E.wants (codes "sparkflow: words refused\n") err.old err.new }
    ensures unread_line { result ≡ 4 → (at : ℕ) × IsLastAsked (F.asked files.old) (map string_bytes words.now) at (F.asked files.new)
        × Complains E.held E.faults E.wants (unread_line (name_at (map string_bytes words.now) at)) err.old err.new }
    ensures unwritten_line { result ≡ 5 → Complains E.held E.faults E.wants (codes "sparkflow: write failed\n") err.old err.new }
    ensures memory_line { result ≡ 6 → Complains E.held E.faults E.wants (codes "sparkflow: out of memory\n") err.old err.new }

    // Where nothing failed, it is done, or memory ran out.
    ensures complete { are_accepted (map string_bytes words.now) ≡ true → (Rose (F.faults files.old) (F.faults files.new) → ⊥)
        → (Rose (K.faults out.old) (K.faults out.new) → ⊥) → (result ≤ 2) ⊎ (result ≡ 6) }
{
    if !are_accepted(words) {
        say(err, b"sparkflow: words refused\n");
        return 3;
    }
    match run(alloc, words, files, out) {
        Ending::Printed { status } => status,
        Ending::CannotRead { at } => {
            say_unread(err, words[at].as_bytes());
            4
        }
        Ending::WriteFailed => {
            say(err, b"sparkflow: write failed\n");
            5
        }
        Ending::NoMemory => {
            say(err, b"sparkflow: out of memory\n");
            6
        }
    }
}

/// The same over objects that never fail: then the status is neither 4 nor 5, and the report is that of the files told.
pub fn run_clean<E: Sink, G: Turnstile>(
    alloc: Global,
    words: &[String],
    files: &mut CleanFiles,
    out: &mut CleanSink,
    err: &mut E,
    gate: &G,
) -> u8
    ensures range { (result ≤ 3) ⊎ (result ≡ 6) }
    ensures words { (result ≡ 3) ↔ (are_accepted (map string_bytes words.now) ≡ false) }
    ensures printed { result ≤ 2 → (a : Analysis files_told (λ _. true) (map string_bytes words.now) files.old)
        × IsPrinted a result (bytes_held out.old) (bytes_held out.new) }
    ensures untouched { result ≡ 3 → bytes_held out.new ≡ bytes_held out.old }
    ensures given_up { result ≡ 6 → (bytes_held out.new ≡ bytes_held out.old)
        ⊎ ((a : Analysis files_told (λ _. true) (map string_bytes words.now) files.old)
        × IsPartlyPrinted a (bytes_held out.old) (bytes_held out.new)) }
    ensures asked { GrewByPart (names_asked files.old) (map string_bytes words.now) (names_asked files.new) }
    ensures none_asked { result ≡ 3 → names_asked files.new ≡ names_asked files.old }
    ensures silent { result ≤ 2 → E.held err.new ≡ E.held err.old }
    ensures words_line { result ≡ 3 → Complains E.held E.faults E.wants (codes "sparkflow: words refused\n") err.old err.new }
    ensures memory_line { result ≡ 6 → Complains E.held E.faults E.wants (codes "sparkflow: out of memory\n") err.old err.new }
{
    run_words(alloc, words, files, out, err, gate)
}
