//! Where expressions stand.
use ada_tree::Units;
use seen_names::{Place, Tables};
use std::alloc::Global;

/// The trees, and what is known where expressions of them stand.
#[derive(Clone, Copy)]
pub struct Scene<'a> {
    pub alloc: Global,
    pub units: &'a Units,
    pub tables: &'a Tables,
    pub place: Place,
}
