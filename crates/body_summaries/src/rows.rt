ghost use Rattle.std.specs.Prelude.{◌≡◌, ℕ, ◌<◌, ◌↔◌, length, IfOk};
ghost use Rattle.core_form.specs.Fine.{IsWellFormed};
ghost use Rattle.summary_rows.specs.Bits.{Bit};
ghost use Rattle.summary_rows.specs.Facts.{Part};
ghost use Rattle.summary_rows.specs.Layout.{Stands, outer_of, row_size, told};
ghost use Rattle.flow_relations.specs.Summaries.{equation_over};
ghost use Rattle.row_flows.specs.Rows.{AreRowsOf};
ghost use Rattle.row_equations.specs.Packing.{holds};

use core_form::Program;
use row_equations::words_of_row;
use row_flows::row_over;
use spark_base::{BodyNo, NoMemory};
use std::alloc::Global;
use summary_rows::{Rows, Words};

/// The words of the row that a body has by its equation over some rows, in their layout: a bit is set exactly where a fact stands that the
/// row has. Want of memory is the only fault.
pub fn row_words(
    alloc: Global,
    program: &Program,
    body: BodyNo,
    rows: &Rows,
) -> Result<Words, NoMemory>
    requires fine { IsWellFormed program.now }
    requires in_range { body.0 < length program.now.bodies }
    requires rows { AreRowsOf program.now rows.now }
    ensures size { IfOk result (λ words. length words ≡ row_size (length (outer_of rows.now.layout body.0))) }
    ensures bits { IfOk result (λ words. (n : ℕ) → Bit words n ↔ ((x : Part) × (Stands (outer_of rows.now.layout body.0) x n
        × holds (equation_over program.now rows.now.layout (told rows.now) body.0) x))) }
{
    let row = row_over(alloc, program, body, rows)?;
    let outer = rows.layout.outer.at(body.0 as usize);
    let words = words_of_row(alloc, &row, outer.as_slice())?;
    Ok(words)
}
