//! What each kind of step on the table tells the pass that makes it.

ghost use Rattle.rc_row.specs.Told.{ToldAtBack, ToldAtCommit, ToldAtEnter, ToldAtLatch, ToldAtLeave, ToldAtLock, ToldAtLook, ToldAtUnlatch, ToldAtUnlock};

use crate::law::View;
use crate::slot::Slot;
use atomic_table::{Join, Play, Split};
use std::marker::{Brand, PhantomData};

/// What the table was told. Each call picks it, since a play can't read the table's key.
pub trait Knows {
    ghost use Rattle.rc_row.specs.declared.law.Key.{Key};
    ghost use Rattle.std.specs.Prelude.{Option};

    ghost key: { Option Key };
}

impl Knows for Brand {
    ghost use Rattle.std.specs.Prelude.{None};

    ghost key = { None };
}

/// The entry that a call commits, and what the table was told. Each call picks both.
pub trait Carries {
    ghost use Rattle.rc_rel.specs.declared.entry.Entry.{Entry};
    ghost use Rattle.rc_row.specs.declared.law.Key.{Key};
    ghost use Rattle.std.specs.Prelude.{Option};

    ghost entry: { Entry };

    ghost told: { Option Key };
}

impl Carries for Brand {
    ghost use Rattle.std.specs.Prelude.{[], None};

    ghost entry = { record { pass = 0; nth = 0; steps = [] } };

    ghost told = { None };
}

/// A compare-exchange on a stripe's word that locks it, or finds it taken.
pub struct Lock<C> {
    key: PhantomData<C>,
}

impl<C: Knows> Play<Slot, View> for Lock<C> {
    ghost then = { ToldAtLock C.key };
}

/// A fetch-sub on a stripe's word, by its writer.
pub struct Unlock;

impl Play<Slot, View> for Unlock {
    ghost then = { ToldAtUnlock };
}

/// A fetch-add on a stripe's word, by which a reader is counted in.
pub struct Enter<C> {
    key: PhantomData<C>,
}

impl<C: Knows> Play<Slot, View> for Enter<C> {
    ghost then = { ToldAtEnter C.key };
}

/// A fetch-sub on a stripe's word, by a reader that found a writer.
pub struct Back;

impl Play<Slot, View> for Back {
    ghost then = { ToldAtBack };
}

/// A fetch-sub on a stripe's word, by a reader that is done.
pub struct Leave;

impl Play<Slot, View> for Leave {
    ghost then = { ToldAtLeave };
}

/// A compare-exchange on a latch that takes it, or finds it taken.
pub struct Latch<C> {
    key: PhantomData<C>,
}

impl<C: Knows> Play<Slot, View> for Latch<C> {
    ghost then = { ToldAtLatch C.key };
}

/// A swap on a latch that frees it.
pub struct Unlatch;

impl Play<Slot, View> for Unlatch {
    ghost then = { ToldAtUnlatch };
}

/// A fetch-add on the commit word.
pub struct Commit<E> {
    entry: PhantomData<E>,
}

impl<E: Carries> Play<Slot, View> for Commit<E> {
    ghost then = { ToldAtCommit E.told E.entry };
}

/// A load of the commit word.
pub struct Look<C> {
    key: PhantomData<C>,
}

impl<C: Knows> Play<Slot, View> for Look<C> {
    ghost then = { ToldAtLook C.key };
}

/// A note is made of a pass, and learned by another.
pub struct Notes;

impl Split<View> for Notes {
    ghost use Rattle.rc_row.specs.Seats.{noted};

    ghost left = { λ v. v };

    ghost right = { noted };
}

impl Join<View> for Notes {
    ghost use Rattle.rc_row.specs.Seats.{informed, spent};

    ghost both = { informed };

    ghost spent = { spent };
}

/// The first seat deals a pass.
pub struct Deal;

impl Split<View> for Deal {
    ghost use Rattle.rc_row.specs.Seats.{dealt, undealt};

    ghost left = { undealt };

    ghost right = { dealt };
}

/// A pass is gathered into another, at the end.
pub struct Gather;

impl Join<View> for Gather {
    ghost use Rattle.rc_row.specs.Seats.{gathered, spent};

    ghost both = { gathered };

    ghost spent = { spent };
}
