//! Laws of every list of events on the state of a program: functions that do nothing.
ghost use Rattle.std.specs.Prelude.{◌≡◌, ℕ, ◌↔◌, List};
ghost use Rattle.core_form.specs.declared.program.Program.{Program};
ghost use Rattle.summary_rows.specs.declared.layout.Layout.{Layout};
ghost use Rattle.summary_rows.specs.declared.rows.Rows.{Rows};
ghost use Rattle.summary_rows.specs.Facts.{Fact};
ghost use Rattle.summary_rows.specs.Layout.{told};
ghost use Rattle.claim_core.specs.Machine.{Claims, Event, opening};
ghost use Rattle.claim_core.specs.Guards.{Reaches, AllAccepted};
ghost use Rattle.claim_core.specs.Invariant.{Inv, IsAtRest};
ghost use Rattle.claim_core.specs.Counts.{AreBounded};
ghost use Rattle.claim_rows.specs.Placed.{words_of};
ghost use Rattle.row_equations.specs.Follow.{least_row};
ghost use Rattle.body_summaries.specs.Bodies.{IsLayoutFor};
ghost use Rattle.claim_state.specs.Solving.{solving};

/// After every list of events the invariant of claims holds.
pub fn inv_holds()
    ensures { (p : Program) (l : Layout) → IsLayoutFor p l → (n : ℕ) (events : List Event) (c : Claims)
        → Reaches (solving p l) n events (opening (solving p l)) c → Inv (solving p l) c }
{}

/// Where nothing is dirty, held or owed, rows of the words tell exactly the least solution of the program's equations.
pub fn rest_is_least()
    ensures { (p : Program) (rows : Rows) → IsLayoutFor p rows.layout → (n : ℕ) (events : List Event) (c : Claims)
        → Reaches (solving p rows.layout) n events (opening (solving p rows.layout)) c → IsAtRest c → c.words ≡ words_of rows.words
        → (f : Fact) → told rows f ↔ least_row p rows.layout f }
{}

/// The claims of a list of accepted events, with the bodies that are dirty and the debts that are left, are at most the bodies, the
/// drops, and the set bits of each row times its body's callers.
pub fn claims_bounded()
    ensures { (p : Program) (l : Layout) → IsLayoutFor p l → (n : ℕ) (events : List Event) (c : Claims)
        → AllAccepted (solving p l) n events (opening (solving p l)) c → AreBounded (solving p l) n events c }
{}
