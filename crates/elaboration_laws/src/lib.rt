//! A law of elaborations: the sets of what may be unassigned at each moment speak for runs.
#![tactic(auto)]

ghost use Rattle.std.specs.Prelude.{List};
ghost use Rattle.core_form.specs.declared.program.Program.{Program};
ghost use Rattle.core_form.specs.Proper.{IsProper};
ghost use Rattle.run_laws.specs.Unassigned.{AreElaborated, all, roots_of};
ghost use Rattle.unset_moments.specs.declared.endings.Ending.{Ending};
ghost use Rattle.elaboration_laws.specs.Covering.{AreEndings, HasPlainRoots, StartsAreAssigned};

/// Of a proper program, over what the flow of each item of its elaboration order says: where no elaboration, nor the main, reads by its
/// row a leaf that is in the set of its moment, none reads a leaf that those before it may have left unassigned in a run.
pub fn moments_cover()
    ensures { (p : Program) (items : List Ending) → IsProper p → HasPlainRoots p → AreEndings p items → StartsAreAssigned p items
        → AreElaborated p (roots_of p) all }
{}
