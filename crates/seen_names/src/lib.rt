//! What names denote at a place, what they stand for, and what is made of them by a point, by arguments or by an attribute.
#![tactic(auto)]

mod applications;
mod attributes;
mod context;
mod entities;
mod selections;
mod shown;

pub use applications::{Application, is_unit_name};
pub use attributes::{Bearer, Gift};
pub use context::{Place, Tables};
pub use entities::{Entity, Valued, made, made_by, of_shown, of_what, sure_in, type_in};
pub use selections::{Selection, selected};
pub use shown::{Callable, FormalSeen, Role, Shown, Subprogram, Value, What};
