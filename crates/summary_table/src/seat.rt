//! What a worker steps with.
ghost use Rattle.std.specs.Prelude.{◌≡◌, ℕ, ◌+◌, ◌<◌, [], Some};

use crate::view::View;

/// A place at a table, for one worker at a time. It has no bytes but the body that it holds; its view stands in contracts alone. It
/// may move to another thread.
#[derive(Drop)]
pub struct Seat {
    pub(crate) token: atomic_table::Seat<u8, View>,
    pub(crate) holds: Option<u32>,
    ghost held: { (token.me.0).holds ≡ holds },
    ghost bare: { token.me.1 ≡ [] },
    ghost in_range: { (b : ℕ) → holds ≡ Some b → 1 + b < token.table_id.words },
}
