ghost use Rattle.std.specs.Prelude.{◌≡◌, IfOk, Err};
ghost use Rattle.ada_lexer.specs.Answer as answer;
ghost use Rattle.ada_lexer.specs.Answer.{Fails};

use spark_base::{Bytes, FileNo, NoMemory, Pos};
use spark_messages::message_texts::refusal_text;
use spark_messages::{Code, Kind, Message, PhaseFault};
use std::alloc::Global;

/// The first refusal in a source.
#[derive(Clone, Copy, Debug)]
pub struct Refusal {
    pub code: Code,
    pub place: Pos,
}

/// The message of a refusal.
fn message_of(alloc: Global, file: FileNo, refusal: Refusal) -> Result<Message, NoMemory>
    ensures { IfOk result (λ m. m ≡ answer.message_of file refusal) }
{
    let text = refusal_text(refusal.code);
    Ok(Message {
        file,
        place: refusal.place,
        code: refusal.code,
        text: Bytes::from_slice(alloc, text.as_bytes())?,
        kind: Kind::Refused,
    })
}

/// A refusal of a file, or want of memory for its message.
pub fn refused(alloc: Global, file: FileNo, refusal: Refusal) -> PhaseFault
    ensures { Fails file result (Err refusal) }
{
    match message_of(alloc, file, refusal) {
        Ok(message) => PhaseFault::Refused(message),
        Err(NoMemory) => PhaseFault::NoMemory,
    }
}
