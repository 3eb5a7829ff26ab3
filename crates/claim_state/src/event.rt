//! Events, and why one is not done.
use spark_base::{BodyNo, WordNo};

/// What a worker does. Workers are numbered from 0, words from the first of all rows.
#[derive(Clone, Copy, Debug, PartialEq, Eq)]
pub enum Event {
    /// An idle worker claims a body that is dirty and not held.
    Claim {
        worker: u32,
        body: BodyNo,
    },
    /// It reads a word of the row of a callee of its body.
    Read {
        worker: u32,
        word: WordNo,
    },
    /// It joins bits to a word of its body's row, each of which follows from what it read.
    Join {
        worker: u32,
        word: WordNo,
        bits: u64,
    },
    /// It wakes a body that it owes.
    Wake {
        worker: u32,
        body: BodyNo,
    },
    /// It gives its body back.
    Release {
        worker: u32,
    },
    /// It marks its body as dirty, and keeps it.
    Drop {
        worker: u32,
    },
}

/// Why an event is refused. They are asked in this order, each of the events of which it speaks.
#[derive(Clone, Copy, Debug, PartialEq, Eq)]
pub enum Guard {
    /// There is no worker of this number.
    NoWorker,
    /// A claim by a worker that holds a body.
    Busy,
    /// Another event by one that holds none.
    Idle,
    /// The body is not dirty, or is held.
    NotDirty,
    /// The word is not in the row of a callee.
    NotCallee,
    /// The word is not in the held row.
    NotOwn,
    /// Some bit does not follow from what was read.
    NotCovered,
    /// The body is not owed.
    NotOwed,
    /// A body is owed.
    StillOwed,
    /// A read or a join is missing, and the held body is not dirty.
    Unfinished,
}

/// Why an event was not done. Nothing changed.
#[derive(Clone, Copy, Debug, PartialEq, Eq)]
pub enum ApplyFault {
    /// The first guard that is false.
    Illegal { guard: Guard },
    NoMemory,
}
