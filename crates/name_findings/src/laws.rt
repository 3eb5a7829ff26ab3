//! Laws on what is found.
ghost use Rattle.std.specs.Prelude.{◌≡◌, List, ◌++◌, None};
ghost use Rattle.name_findings.specs.Findings.{Answers, Finding, Told, add_all};

/// What is found in one place and behind it in another is added one behind the other.
pub fn one_by_one()
    ensures { (t : Told) (xs : List Finding) (ys : List Finding) → add_all t (xs ++ ys) ≡ add_all (add_all t xs) ys }
{}

/// From where no fault is kept, the one that is kept of findings is among them, and none of them comes before it; where
/// none is kept there is none.
pub fn first_of_all()
    ensures { (fs : List Finding) (t : Told) → t.first ≡ None → Answers fs (add_all t fs).first }
{}
