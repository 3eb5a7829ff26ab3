//! Laws of the definitions: functions that do nothing, whose contracts hold for every source.
ghost use Rattle.std.specs.Prelude.{◌≡◌, ℕ, ◌+◌, ◌<◌, ◌↔◌, List, length, take};
ghost use Rattle.core_form.specs.declared.program.Program.{Program};
ghost use Rattle.run_laws.specs.Laws.{HasCleanRuns};
ghost use Rattle.flow_driver.specs.Report.{HasReport, IsProgramOf};
ghost use Rattle.flow_driver.specs.Run.{verdict};
ghost use Rattle.flow_driver.specs.declared.report.Report.{Report};
ghost use Rattle.ada_lexer.specs.declared.lexing.TheConstants.{LIMIT};

/// A source that is too long has the report of its first bytes, one more than the most that a file may have.
pub fn cut_sources()
    ensures { (bytes : List ℕ) (r : Report) → LIMIT < length bytes → HasReport bytes r ↔ HasReport (take (LIMIT + 1) bytes) r }
{}

/// A source has one report at most.
pub fn one_report()
    ensures { (bytes : List ℕ) (r t : Report) → HasReport bytes r → HasReport bytes t → r ≡ t }
{}

/// Where the report of a source has no error, the runs of its program are clean, those of its environment task and the
/// calls that stand alone: no step reads a cell that is not assigned, and no body touches what its Global does not list.
pub fn clean_runs()
    ensures { (bytes : List ℕ) (r : Report) (p : Program) → HasReport bytes r → verdict r ≡ 0 → IsProgramOf bytes p → HasCleanRuns p }
{}
