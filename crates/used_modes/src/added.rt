ghost use Rattle.std.specs.Prelude.{◌≡◌, OnOk, ◌↔◌, IsTrue};
ghost use Rattle.std.specs.List.{Contains};
ghost use Rattle.used_modes.specs.Added as spec;
ghost use Rattle.used_modes.specs.Added.{Adds};

use core_form::Item;
use spark_base::{Bytes, Items, NoMemory, Span};
use spark_messages::{Code, Kind, Message};

/// An error at the beginning of a span.
pub fn error_at(span: Span, code: Code, text: Bytes) -> Message
    ensures { result ≡ spec.error_at span code text }
{
    Message {
        file: span.file,
        place: span.from,
        code,
        text,
        kind: Kind::Error,
    }
}

/// A warning at the beginning of a span.
pub fn warning_at(span: Span, code: Code, text: Bytes) -> Message
    ensures { result ≡ spec.warning_at span code text }
{
    Message {
        file: span.file,
        place: span.from,
        code,
        text,
        kind: Kind::Warning,
    }
}

/// Adds a message.
#[tactic(auto, using(crate::proofs::Adding::adds_one))]
pub fn note(list: &mut Items<Message>, message: Message) -> Result<(), NoMemory>
    ensures { OnOk result (Adds list.old list.new (λ m. m ≡ message)) }
{
    list.push(message)
}

fn has_item(list: &[Item], item: Item) -> bool
    ensures { IsTrue result ↔ Contains list.now item }
{
    for other in list {
        if *other == item {
            return true;
        }
    }
    false
}

/// Adds an item, unless it is there.
#[tactic(auto, using(crate::proofs::Adding::adds_one, crate::proofs::Adding::adds_there))]
pub fn note_new(list: &mut Items<Item>, item: Item) -> Result<(), NoMemory>
    ensures { OnOk result (Adds list.old list.new (λ i. i ≡ item)) }
{
    if has_item(list.as_slice(), item) {
        return Ok(());
    }
    list.push(item)
}
