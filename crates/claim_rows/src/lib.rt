//! The claim core over the rows of a layout: workers that are at rest have told the least solution of an equation on facts.
#![tactic(auto)]

ghost use Rattle.std.specs.Prelude.{◌≡◌, ℕ, ◌↔◌, Bool, List};
ghost use Rattle.least_solution.specs.Least.{least};
ghost use Rattle.least_solution.specs.Rules.{Rule, follows};
ghost use Rattle.summary_rows.specs.declared.rows.Rows.{Rows};
ghost use Rattle.summary_rows.specs.Facts.{Fact};
ghost use Rattle.summary_rows.specs.Layout.{IsLayout, facts, told};
ghost use Rattle.claim_core.specs.Guards.{Reaches};
ghost use Rattle.claim_core.specs.Invariant.{IsAtRest};
ghost use Rattle.claim_core.specs.Machine.{Claims, Event, opening};
ghost use Rattle.claim_rows.specs.Placed.{placed, AreOf, words_of};

/// Where workers share the words of a layout's rows, and after any list of events nothing is dirty, held or owed, rows of these words
/// tell exactly the least solution of the equation on facts.
pub fn rest_tells_least()
    ensures { (rows : Rows) → IsLayout rows.layout → (calls : ℕ → ℕ → Bool) (rules : List (Rule Fact)) → AreOf rows.layout calls rules
        → (n : ℕ) (events : List Event) (c : Claims)
        → Reaches (placed rows.layout calls (follows rules)) n events (opening (placed rows.layout calls (follows rules))) c
        → IsAtRest c → c.words ≡ words_of rows.words
        → (f : Fact) → told rows f ↔ least (facts rows.layout) (follows rules) f }
{}
