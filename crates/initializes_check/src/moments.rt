ghost use Rattle.std.specs.Prelude.{◌≡◌, ℕ, ◌+◌, ◌<◌, ◌↔◌, All, IfOk, IfSome, IfNone, IsTrue, IsSomeAnd, Some, length, slice_get};
ghost use Rattle.core_form.specs.Fine.{IsWellFormed};
ghost use Rattle.flow_bits.specs.Sets.{Tells};
ghost use Rattle.initializes_check.specs.InitializesCheck.{IsItemOf, IsLastOf, IsLooseAfter, loose_by};

use crate::counts::no_leaves;
use core_form::Program;
use flow_bits::Row;
use spark_base::{BodyNo, NoMemory, PackageNo};
use std::alloc::Global;

// Whether a body belongs to a package.
fn is_of(program: &Program, body: BodyNo, package: PackageNo) -> bool
    ensures { IsTrue result ↔ IsSomeAnd (slice_get program.now.bodies body.0) (λ body. body.«package» ≡ Some «package») }
{
    match program.bodies.get(body.0 as usize) {
        Some(body) => body.package == Some(package),
        None => false,
    }
}

// The place in the order of the last item of a package.
fn last_of(program: &Program, package: PackageNo) -> Option<usize>
    ensures some { IfSome result (λ n. IsLastOf program.now «package».0 n) }
    ensures none { IfNone result ((n : ℕ) → IsItemOf program.now «package».0 n → ⊥) }
{
    let mut last = None;
    for (n, body) in program.order.as_slice().iter().enumerate() {
        if is_of(program, *body, package) {
            last = Some(n);
        }
    }
    last
}

// What may be unassigned after the items of a package.
pub fn loose_after(
    alloc: Global,
    program: &Program,
    moments: &[Row],
    package: PackageNo,
) -> Result<Row, NoMemory>
    requires fine { IsWellFormed program.now }
    requires moments { length moments.now ≡ length program.now.order + 1 }
    requires sizes { All (λ row. length row ≡ length program.now.leaves) moments.now }
    ensures size { IfOk result (λ row. length row ≡ length program.now.leaves) }
    ensures set { IfOk result (λ row. Tells row (IsLooseAfter program.now (loose_by moments.now) «package».0)) }
{
    let mut loose = no_leaves(alloc, program)?;
    let Some(n) = last_of(program, package) else {
        return Ok(loose);
    };
    loose.copy_from(&moments[n + 1]);
    Ok(loose)
}
