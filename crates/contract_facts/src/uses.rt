ghost use Rattle.std.specs.Prelude.{◌≡◌};
ghost use Rattle.contract_facts.specs.Uses.{formal_test, mode_test};

use core_form::{Mode, ParamMode};

/// What a contract may say of a leaf.
#[derive(Clone, Copy)]
pub enum Use {
    /// Its entry value may be read.
    Reads,
    /// It may be written.
    Writes,
    /// Its entry value is lost.
    Loses,
    /// The contract speaks of it.
    Names,
}

/// Whether items of a mode are used so.
pub fn mode_test(wanted: Use, mode: Mode) -> bool
    ensures { result ≡ mode_test wanted mode }
{
    match wanted {
        Use::Reads => mode == Mode::Input || mode == Mode::InOut,
        Use::Writes => mode == Mode::Output || mode == Mode::InOut,
        Use::Loses => mode == Mode::Output,
        Use::Names => true,
    }
}

/// Whether formals of a mode are used so.
pub fn formal_test(wanted: Use, mode: ParamMode) -> bool
    ensures { result ≡ formal_test wanted mode }
{
    match wanted {
        Use::Reads => mode != ParamMode::Out,
        Use::Writes => mode != ParamMode::In,
        Use::Loses => mode == ParamMode::Out,
        Use::Names => true,
    }
}
