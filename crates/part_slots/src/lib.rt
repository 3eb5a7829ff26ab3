//! How the parts of expressions are read that stand in one list: the arguments of calls and the values of aggregates.
#![tactic(auto)]

mod calls;
mod readings;
mod slots;
mod values;

pub use calls::{Actuals, actuals_of, arranged, gift_slots, has_value};
pub use readings::{Reading, as_reading, expecting, tested_reading};
pub use slots::{Pairing, Slot, passed};
pub use values::positional_slots;
