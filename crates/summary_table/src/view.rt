//! What a seat knows.
use std::collections::LinkedList;

/// What a seat holds and has done. No value of it is made: it stands in contracts alone.
///
/// Lists have the newest first. `reads`, `joined` and `debts` are those since the last claim that won: words with the values that
/// were read, words with the bits that were joined, and bodies all of whose callers came to be owed (true) or that were woken (false).
/// `seen` has each word and value that was ever read or joined; `claimed` and `woke` the bodies that were claimed and woken; `tried`
/// those that a claim lost since the last that won. `won` counts claims that won, `acts` these with loads and joins, `scans` the seats
/// that met into it with every body in `tried`. The weights of all seats add up to their number.
pub struct View {
    pub weight: u64,
    pub holds: Option<u32>,
    pub reads: LinkedList<(u32, u64)>,
    pub joined: LinkedList<(u32, u64)>,
    pub debts: LinkedList<(u32, bool)>,
    pub dropped: bool,
    pub seen: LinkedList<(u32, u64)>,
    pub claimed: LinkedList<u32>,
    pub woke: LinkedList<u32>,
    pub tried: LinkedList<u32>,
    pub won: u64,
    pub acts: u64,
    pub scans: u64,
}
