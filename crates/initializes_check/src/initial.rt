ghost use Rattle.std.specs.Prelude.{◌≡◌, ◌<◌, All, OnOk, length};
ghost use Rattle.core_form.specs.Fine.{IsWellFormed};
ghost use Rattle.flow_bits.specs.Sets.{Has};
ghost use Rattle.used_modes.specs.Added.{Adds, SomeOf};
ghost use Rattle.initializes_check.specs.InitializesCheck.{IsNotInitialized};

use crate::counts::has_some;
use core_form::{InitialItem, Program};
use flow_bits::Row;
use spark_base::{Items, NoMemory};
use spark_messages::message_texts::unassigned_initial_text;
use spark_messages::{Code, Message};
use state_map::item_name;
use std::alloc::Global;
use used_modes::{error_at, note};

// Adds I01 on what an Initializes lists.
fn append_unassigned_item(
    alloc: Global,
    list: &mut Items<Message>,
    program: &Program,
    unset: &Row,
    listed: InitialItem,
) -> Result<(), NoMemory>
    requires fine { IsWellFormed program.now }
    requires size { length unset.now ≡ length program.now.leaves }
    requires listed { listed.item.0 < length program.now.items }
    ensures { OnOk result (Adds list.old list.new (IsNotInitialized program.now (Has unset.now) listed)) }
{
    let item = *program.items.at(listed.item.0 as usize);
    let lacks = has_some(alloc, program, item, unset)?;
    if !lacks {
        return Ok(());
    }
    let name = item_name(program, item, None);
    let text = unassigned_initial_text(alloc, name.as_slice())?;
    note(list, error_at(listed.place, Code::I01, text))
}

// Adds I01.
pub fn append_unassigned(
    alloc: Global,
    list: &mut Items<Message>,
    program: &Program,
    unset: &Row,
    items: &[InitialItem],
) -> Result<(), NoMemory>
    requires fine { IsWellFormed program.now }
    requires size { length unset.now ≡ length program.now.leaves }
    requires listed { All (λ i. i.item.0 < length program.now.items) items.now }
    ensures { OnOk result (Adds list.old list.new (λ m. SomeOf (λ i. IsNotInitialized program.now (Has unset.now) i m) items.now)) }
{
    for listed in items {
        append_unassigned_item(alloc, list, program, unset, *listed)?;
    }
    Ok(())
}
