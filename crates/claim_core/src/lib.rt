//! The claim protocol as a machine over events: workers that share a table of rows reach the least solution, whatever the order of
//! their events.
//!
//! The lemmas are over any system (`proofs/`); these laws are over every system whose equation is a list of rules.
#![tactic(auto)]

ghost use Rattle.std.specs.Prelude.{◌≡◌, ◌⊎◌, ℕ, Bool, List, IsTrue};
ghost use Rattle.claim_core.specs.Bits.{Within, Bit, IsSetIn};
ghost use Rattle.claim_core.specs.System.{Ruled, IsRuled, system_of, Meets, Solves, IsWithinLeast, IsLeast};
ghost use Rattle.claim_core.specs.Machine.{Claims, Event, opening, resumed};
ghost use Rattle.claim_core.specs.Guards.{Guard, place, Accepts, Refuses, Reaches, AllAccepted};
ghost use Rattle.claim_core.specs.Invariant.{Inv, IsAtRest};
ghost use Rattle.claim_core.specs.Counts.{AreBounded};

/// After every list of events the invariant holds.
pub fn inv_holds()
    ensures { (r : Ruled) → IsRuled r → (n : ℕ) (events : List Event) (c : Claims)
        → Reaches (system_of r) n events (opening (system_of r)) c → Inv (system_of r) c }
{}

/// Where nothing is dirty, held or owed, the rows are the least solution.
pub fn rest_is_least()
    ensures { (r : Ruled) → IsRuled r → (n : ℕ) (events : List Event) (c : Claims)
        → Reaches (system_of r) n events (opening (system_of r)) c → IsAtRest c → IsLeast (system_of r) c.words }
{}

/// The claims of a list of accepted events, with the bodies that are dirty and the debts that are left, are at most the
/// bodies, the drops, and the set bits of each row times its body's callers.
pub fn claims_bounded()
    ensures { (r : Ruled) → IsRuled r → (n : ℕ) (events : List Event) (c : Claims)
        → AllAccepted (system_of r) n events (opening (system_of r)) c → AreBounded (system_of r) n events c }
{}

/// Rows within the least solution, each body of which is dirty or has its equation, are a state to go on from: the invariant holds
/// after every list of events from there on, and at rest the rows are the least solution.
pub fn resumes()
    ensures inv { (r : Ruled) → IsRuled r → (rows : ℕ → ℕ) (dirty : ℕ → Bool) → IsWithinLeast (system_of r) rows
        → ((b : ℕ) → IsTrue (dirty b) ⊎ Meets (system_of r) rows b) → (n : ℕ) (events : List Event) (c : Claims)
        → Reaches (system_of r) n events (resumed rows dirty) c → Inv (system_of r) c }
    ensures rest { (r : Ruled) → IsRuled r → (rows : ℕ → ℕ) (dirty : ℕ → Bool) → IsWithinLeast (system_of r) rows
        → ((b : ℕ) → IsTrue (dirty b) ⊎ Meets (system_of r) rows b) → (n : ℕ) (events : List Event) (c : Claims)
        → Reaches (system_of r) n events (resumed rows dirty) c → IsAtRest c → IsLeast (system_of r) c.words }
{}

/// The rows of the least solution, which is told by applications, are the rows in which each equation holds that are within all
/// such rows.
pub fn least_rows()
    ensures solves { (r : Ruled) → IsRuled r → (rows : ℕ → ℕ) → IsLeast (system_of r) rows → Solves (system_of r) rows }
    ensures first { (r : Ruled) → IsRuled r → (rows other : ℕ → ℕ) → IsLeast (system_of r) rows → Solves (system_of r) other
        → (x : Bit) → IsSetIn rows x → IsSetIn other x }
    ensures only { (r : Ruled) → IsRuled r → (rows other : ℕ → ℕ) → IsLeast (system_of r) rows → Solves (system_of r) other
        → ((x : Bit) → IsSetIn other x → IsSetIn rows x) → IsLeast (system_of r) other }
{}

/// An event that is refused is not accepted, and is refused by one guard.
pub fn one_answer()
    ensures accepted { (r : Ruled) (n : ℕ) (e : Event) (c : Claims) (g : Guard) → Refuses (system_of r) n g e c
        → Accepts (system_of r) n e c → ⊥ }
    ensures guard { (r : Ruled) (n : ℕ) (e : Event) (c : Claims) (g h : Guard) → Refuses (system_of r) n g e c
        → Refuses (system_of r) n h e c → place g ≡ place h }
{}
