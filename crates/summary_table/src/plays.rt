//! What each step on a word tells its seat.
ghost use Rattle.summary_table.specs.Views.{parted, part_of, same_view, counts_of, met, spent};
ghost use Rattle.summary_table.specs.Tells.{Loads, Claims, Wakes, Joins, Releases};

use crate::equations::Equations;
use crate::view::View;
use atomic_table::{Join, Play, Split};
use std::marker::PhantomData;

/// A word of a callee's row is read.
pub struct LoadStep<E: Equations> {
    of: PhantomData<E>,
}

impl<E: Equations> Play<u8, View> for LoadStep<E> {
    ghost then = { Loads E.system };
}

/// Bits are joined into a word of the held row.
pub struct JoinStep<E: Equations> {
    of: PhantomData<E>,
}

impl<E: Equations> Play<u8, View> for JoinStep<E> {
    ghost then = { Joins E.system };
}

/// A body is claimed.
pub struct ClaimStep;

impl Play<u8, View> for ClaimStep {
    ghost then = { Claims };
}

/// A body is woken.
pub struct WakeStep;

impl Play<u8, View> for WakeStep {
    ghost then = { Wakes };
}

/// The held body is given back.
pub struct ReleaseStep;

impl Play<u8, View> for ReleaseStep {
    ghost then = { Releases };
}

/// One seat is parted from another.
pub struct Part;

impl Split<View> for Part {
    ghost left = { parted };

    ghost right = { part_of };
}

/// A seat meets into another.
pub struct Meet<E: Equations> {
    of: PhantomData<E>,
}

impl<E: Equations> Join<View> for Meet<E> {
    ghost both = { met (E.system).bodies };

    ghost spent = { spent };
}

/// The counts of a seat are told once more.
pub struct Recall<E: Equations> {
    of: PhantomData<E>,
}

impl<E: Equations> Split<View> for Recall<E> {
    ghost left = { same_view };

    ghost right = { counts_of (E.system).bodies };
}
