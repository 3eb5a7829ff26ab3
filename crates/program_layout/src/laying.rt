//! The layout of a program, or the message on the first body for which there is no room.
ghost use Rattle.std.specs.Prelude.{◌≡◌, ℕ, ◌<◌, length, slice_get, IfErr, IfOk, IsSomeAnd};
ghost use Rattle.core_form.specs.Fine.{IsWellFormed};
ghost use Rattle.program_layout.specs.Rows.{HasNoRoom, IsLayoutFault, IsLayoutOf, refusal_at};

use crate::bodies::bodies_of;
use core_form::Program;
use row_leaves::{Laid, layout_of};
use spark_base::{BodyNo, Bytes, NoMemory};
use spark_messages::message_texts::refusal_text;
use spark_messages::{Code, Kind, Message, PhaseFault};
use std::alloc::Global;
use summary_rows::Layout;

// The message X05 on a body.
fn refusal(alloc: Global, program: &Program, body: BodyNo) -> Result<Message, NoMemory>
    requires { body.0 < length program.now.bodies }
    ensures { IfOk result (λ m. IsSomeAnd (slice_get program.now.bodies body.0) (λ node. m ≡ refusal_at node)) }
{
    let node = program.bodies.at(body.0 as usize);
    Ok(Message {
        file: node.place.file,
        place: node.place.from,
        code: Code::X05,
        text: Bytes::from_slice(alloc, refusal_text(Code::X05).as_bytes())?,
        kind: Kind::Refused,
    })
}

/// The layout of the rows of a program's bodies: each row has the least set of leaves that the definition of rows allows. It is refused
/// (X05) at the first body, by number, where the row words up to it are more than 8,388,608, or its frame has more than 4,096 leaves:
/// those of its row, its locals and its spares. 2^32 bodies or more are want of memory.
///
/// The time is that of one look at the code of each body, a few steps for each leaf and body, and for each caller of a body the count
/// of the leaves of the contract that it sees, or of the library leaves of the row.
pub fn layout(alloc: Global, program: &Program) -> Result<Layout, PhaseFault>
    requires fine { IsWellFormed program.now }
    ensures layout { IfOk result (λ l. IsLayoutOf program.now l) }
    ensures room { IfOk result (λ l. (b : ℕ) → b < length program.now.bodies → HasNoRoom program.now l.outer b → ⊥) }
    ensures refused { IfErr result (λ fault. IsLayoutFault program.now fault) }
{
    if program.bodies.len() > u32::MAX as usize {
        return Err(PhaseFault::NoMemory);
    }
    let bodies = bodies_of(alloc, program)?;
    match layout_of(alloc, &bodies)? {
        Laid::Out(layout) => Ok(layout),
        Laid::TooLarge(body) => Err(PhaseFault::Refused(refusal(alloc, program, body)?)),
    }
}
