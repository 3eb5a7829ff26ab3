//! Types as they are seen at a place: inside the package of a private type by its full type, elsewhere as private; what
//! fits what, and the types that operators take and make.
#![tactic(auto)]

mod operators;
mod seen;
mod table;
mod typed;

pub use seen::{ExprType, FieldSeen, Seen, Shape};
pub use table::{BOOLEAN, DURATION, INTEGER, MOMENT, TypeTable, is_number};
