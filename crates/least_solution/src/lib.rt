//! The least solution of an equation over facts: what as many applications as there are facts make of no facts. The theorems
//! that tell when facts are that solution, by a worklist or by several workers, in whatever order.
//!
//! The lemmas are over any equation (`proofs/`); these laws are over every equation that is given by a list of rules.
#![tactic(auto)]

ghost use Rattle.std.specs.Prelude.{◌≡◌, ℕ, ◌↔◌, ◌⊎◌, List, Bool, true, false, IsTrue};
ghost use Rattle.least_solution.specs.Least.{applied, least, Passes, IsReached, IsMet};
ghost use Rattle.least_solution.specs.Rules.{Rule, AreRules, follows};
ghost use Rattle.least_solution.specs.Worklist.{Worklist, Gains, Joins, Visits, opening};

/// A worklist reaches the least solution, whatever its order: where visits from the opening on leave no owner dirty, the facts
/// that are told are those of the least solution, and no others.
pub fn worklist_is_least()
    ensures { (all : List ℕ) (owner : ℕ → ℕ) (calls : ℕ → ℕ → Bool) (rules : List (Rule ℕ)) → AreRules all owner calls rules
        → (visits : List ℕ) (end : Worklist ℕ) → Visits owner (λ b c. IsTrue (calls b c)) (follows rules) visits opening end
        → ((b : ℕ) → end.dirty b ≡ false) → (f : ℕ) → (end.told f ≡ true) ↔ least all (follows rules) f }
{}

/// Facts that were reached, and over which every equation holds, are the least solution.
pub fn met_is_least()
    ensures { (all : List ℕ) (owner : ℕ → ℕ) (calls : ℕ → ℕ → Bool) (rules : List (Rule ℕ)) → AreRules all owner calls rules
        → (t : ℕ → Bool) → IsReached all (follows rules) t → ((b : ℕ) → IsMet owner (follows rules) t b)
        → (f : ℕ) → (t f ≡ true) ↔ least all (follows rules) f }
{}

/// Several workers, of whom each joins what follows from facts that it read at whatever moments: facts that were reached stay so.
pub fn reads_are_reached()
    ensures { (all : List ℕ) (owner : ℕ → ℕ) (calls : ℕ → ℕ → Bool) (rules : List (Rule ℕ)) → AreRules all owner calls rules
        → (t s read : ℕ → Bool) → ((f : ℕ) → read f ≡ true → t f ≡ true) → ((f : ℕ) → t f ≡ true → s f ≡ true)
        → ((f : ℕ) → s f ≡ true → (t f ≡ true) ⊎ follows rules (Passes read) f) → Gains t s
        → IsReached all (follows rules) t → IsReached all (follows rules) s }
{}

/// And where such a worker has read all facts of the callees that are told, and what follows is told, its equation holds.
pub fn releases_are_met()
    ensures { (all : List ℕ) (owner : ℕ → ℕ) (calls : ℕ → ℕ → Bool) (rules : List (Rule ℕ)) → AreRules all owner calls rules
        → (t read : ℕ → Bool) (b : ℕ) → ((g : ℕ) → IsTrue (calls b (owner g)) → t g ≡ true → read g ≡ true)
        → ((f : ℕ) → owner f ≡ b → follows rules (Passes read) f → t f ≡ true) → IsMet owner (follows rules) t b }
{}

/// Further applications make nothing more of the facts.
pub fn applied_is_least()
    ensures { (all : List ℕ) (owner : ℕ → ℕ) (calls : ℕ → ℕ → Bool) (rules : List (Rule ℕ)) → AreRules all owner calls rules
        → (n f : ℕ) → applied (follows rules) n f → least all (follows rules) f }
{}

/// The least solution meets the equation: what follows from it is in it.
pub fn least_is_closed()
    ensures { (all : List ℕ) (owner : ℕ → ℕ) (calls : ℕ → ℕ → Bool) (rules : List (Rule ℕ)) → AreRules all owner calls rules
        → (f : ℕ) → follows rules (least all (follows rules)) f → least all (follows rules) f }
{}

/// It is the least that does: any facts over which the equation holds have all of its facts.
pub fn least_is_least()
    ensures { (all : List ℕ) (rules : List (Rule ℕ)) (t : ℕ → Bool) → ((f : ℕ) → follows rules (Passes t) f → t f ≡ true)
        → (f : ℕ) → least all (follows rules) f → t f ≡ true }
{}
