//! The equations that are solved.
ghost use Rattle.std.specs.Prelude.{◌≡◌, ℕ, ◌↔◌, ◌<◌, length, IfOk};
ghost use Rattle.summary_rows.specs.Bits.{Bit};
ghost use Rattle.summary_rows.specs.Layout.{AreRows, Stands, outer_of, row_size, told};

use spark_base::{BodyNo, NoMemory};
use std::alloc::Global;
use summary_rows::{Rows, Words};

/// The equations of bodies: an object answers the row that a body has by its equation, over the rows that are there.
pub trait RowEquations {
    ghost use Rattle.std.specs.Prelude.{ℕ};
    ghost use Rattle.summary_rows.specs.declared.layout.Layout.{Layout};
    ghost use Rattle.summary_rows.specs.Facts.{Part, Fact};
    ghost use Rattle.row_solver.specs.Equations.{IsEquation};

    /// The layout of the rows.
    ghost layout: { Self → Layout };

    /// Whose rows the equation of a body looks at.
    ghost calls: { Self → ℕ → ℕ → Type 0 };

    /// Which facts follow from which. It need not be decidable.
    ghost follow: { Self → (Fact → Type 0) → Fact → Type 0 };

    /// Which objects can be asked.
    ghost is_fit: { Self → Type 0 };

    /// What is asked of the equations of such an object.
    ghost lawful: { (it : Self) → is_fit it → IsEquation (layout it) (calls it) (follow it) };

    /// The words of the row of a body by its equation: all bits of the facts that follow from those that are told, and no others.
    fn row_words(&self, alloc: Global, b: BodyNo, rows: &Rows) -> Result<Words, NoMemory>
        requires fit { is_fit self.now }
        requires layout { rows.now.layout ≡ layout self.now }
        requires rows { AreRows rows.now }
        requires in_range { b.0 < length (layout self.now).outer }
        ensures size { IfOk result (λ words. length words ≡ row_size (length (outer_of (layout self.now) b.0))) }
        ensures bits { IfOk result (λ words. (n : ℕ) → Bit words n
            ↔ ((x : Part) × (Stands (outer_of (layout self.now) b.0) x n × follow self.now (told rows.now) (record { owner = b.0; part = x })))) };
}
