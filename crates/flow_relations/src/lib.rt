//! The flow of a statement, the row of a body, and the sets and relations that tell them.
#![tactic(auto)]

mod callees;
mod calls;
mod equation;
mod flows;
mod frame;
pub mod laws;
mod named;
mod names;
mod reads;
mod statements;

pub use callees::Callee;
pub use calls::call_facts;
pub use equation::{BodyRow, open_frame, row_from, row_of_body};
pub use flows::{End, Flow, Outcome, flow_from, flow_of};
pub use frame::{Frame, Framing, Places, frame_from};
pub use named::{add_own, names_row, void_of};
pub use statements::{Room, facts_of, new_room};
