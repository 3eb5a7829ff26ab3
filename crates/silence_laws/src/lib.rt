//! A law of the checks: where they find no error, runs are clean.
#![tactic(auto)]

ghost use Rattle.std.specs.Prelude.{List};
ghost use Rattle.core_form.specs.Calls.{HasNoCalls};
ghost use Rattle.core_form.specs.Fine.{IsWellFormed};
ghost use Rattle.core_form.specs.Proper.{IsProper};
ghost use Rattle.core_form.specs.declared.program.Program.{Program};
ghost use Rattle.elaboration_laws.specs.Covering.{AreEndings};
ghost use Rattle.initializes_check.specs.InitializesCheck.{reads_outside};
ghost use Rattle.run_laws.specs.Laws.{HasCleanRuns};
ghost use Rattle.silence_laws.specs.Silence.{AreFactsOf, FindsNoError, IsPlain};
ghost use Rattle.summary_rows.specs.declared.rows.Rows.{Rows};
ghost use Rattle.unset_moments.specs.Moments.{loose_before};
ghost use Rattle.unset_moments.specs.declared.endings.Ending.{Ending};
ghost use Rattle.used_modes.specs.UsedModes.{row_of};

/// Of a program as lowering makes it, well formed and proper, in which no body calls another, and which has no states, objects, clock and
/// refined contracts: where the checks find no error, over its rows and the sets of its moments, its runs are clean. Nothing is asked of
/// initial values.
pub fn silence_is_clean()
    ensures { (p : Program) (rows : Rows) (items : List Ending) → IsWellFormed p → IsProper p → HasNoCalls p
        → IsPlain p → AreFactsOf p (row_of rows) → AreEndings p items
        → FindsNoError p (row_of rows) (reads_outside p rows) (loose_before p items)
        → HasCleanRuns p }
{}
