//! Laws of the equations of bodies: functions that do nothing, whose contracts hold for every program and every layout of rows.
ghost use Rattle.std.specs.Prelude.{◌≡◌, ℕ, ◌<◌, List, length};
ghost use Rattle.core_form.specs.declared.program.Program.{Program};
ghost use Rattle.least_solution.specs.Least.{Among};
ghost use Rattle.summary_rows.specs.declared.layout.Layout.{Layout};
ghost use Rattle.summary_rows.specs.declared.rows.Rows.{Rows};
ghost use Rattle.summary_rows.specs.Facts.{Fact};
ghost use Rattle.summary_rows.specs.Layout.{Stands, outer_of, told};
ghost use Rattle.call_flow.specs.Calls.{IsCalled};
ghost use Rattle.flow_relations.specs.Equation.{code_of_body};
ghost use Rattle.row_equations.specs.Follow.{follows, least_row};

/// What follows by the equation of a body stands at some bit of its row.
pub fn facts_stand()
    ensures { (p : Program) (rows : Rows) (f : Fact) → follows p rows.layout (told rows) f
        → (f.owner < length rows.layout.outer) × ((n : ℕ) × Stands (outer_of rows.layout f.owner) f.part n) }
{}

/// It follows from facts of the bodies that it calls, and more of these make no less of it.
pub fn callees_suffice()
    ensures { (p : Program) (one other : Rows) → one.layout ≡ other.layout → (f : Fact)
        → ((g : Fact) → IsCalled g.owner (code_of_body p f.owner) → told one g → told other g)
        → follows p one.layout (told one) f → follows p other.layout (told other) f }
{}

/// It follows from finitely many.
pub fn few_suffice()
    ensures { (p : Program) (rows : Rows) (f : Fact) → follows p rows.layout (told rows) f
        → (few : List Fact) × (((g : Fact) → Among g few → told rows g) × follows p rows.layout (λ g. Among g few) f) }
{}

/// The least solution meets every equation: what follows from it is in it.
pub fn least_is_closed()
    ensures { (p : Program) (l : Layout) (f : Fact) → follows p l (least_row p l) f → least_row p l f }
{}

/// And it is the least that does: rows that meet every equation tell all of its facts.
pub fn least_is_least()
    ensures { (p : Program) (rows : Rows) → ((f : Fact) → follows p rows.layout (told rows) f → told rows f)
        → (f : Fact) → least_row p rows.layout f → told rows f }
{}
