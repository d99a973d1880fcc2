//! The row.

ghost use Rattle.std.specs.Prelude.{◌≡◌, ◌/◌, ◌%◌, ◌<◌, ◌≤◌, IsTrue};
ghost use mathlib.Core.Logic.{◌↔◌};
ghost use Rattle.rc_row.specs.Law.{latch_word, own_place, slot_place, stripe_word};
ghost use Rattle.rc_row.specs.Passes.{stripes_of};

use crate::keeping::Keeping;
use crate::law::{Key, Law, View};
use crate::slot::Slot;
use crate::waiting::Waiting;
use atomic_table::Table;
use std::alloc::Global;
use std::marker::Model;

/// So many words are 64 bytes.
pub(crate) const WORDS_OF_A_LINE: usize = 8;

/// The first slot that is a pass's own.
pub(crate) const FIRST_OWN: usize = 1024;

/// So many slots lie from the first of a pass to the first of the next: one for each stripe, of which there are 256 at most, and
/// those of a line, so that no two passes share a cache line.
pub(crate) const SLOTS_OF_A_PASS: usize = 260;

/// So many slots, of three words each, are more than a cache line. Each stripe's slot stands so far behind the one before that
/// the two share no line, wherever the block begins, since processors that write into one line wait for each other.
pub(crate) const SLOTS_OF_A_LINE: usize = 4;

/// The place of the commit word.
pub(crate) const COMMIT_WORD: usize = 0;

/// A row of lock stripes (PLDI 2012, lock placements with striped locks): each stripe has a word that says who has it,
/// a latch, and a slot in which its fragment lies while nobody writes it; and a commit word counts the entries of the
/// history. Threads lock, change, commit and unlock through their passes, each of which has a slot of its own for each stripe, for the
/// pointer that it keeps between two shares.
///
/// A stripe's word is its writer's number and one more, and 2^16 times how many readers are counted in. Words stand 64
/// bytes apart, so that no two of them share a cache line, and the slots of stripes 96. The slots between these stay empty.
///
/// Contracts see which table it is and what that was told. It may be used by many threads at once.
#[derive(Drop)]
pub struct Row {
    pub(crate) table: Table<Slot, View, Key, Law, Global>,
    pub(crate) waiting: Waiting,
    pub(crate) keeping: Keeping,
    pub(crate) alloc: Global,
}

impl Model for Row {
    ghost use Rattle.rc_row.specs.Passes.{RowSeen};

    ghost Value = { RowSeen };

    ghost use Rattle.rc_row.specs.RowInside.{IsWholeRow, row_seen};

    ghost view = { row_seen };

    ghost invariant = { IsWholeRow };
}

/// The place of a stripe's word.
pub(crate) fn stripe_word(stripe: u32) -> usize
    requires { stripe < 256 }
    ensures { result ≡ stripe_word stripe }
{
    WORDS_OF_A_LINE * (stripe as usize + 1)
}

/// The place of a stripe's latch, where there are so many stripes.
pub(crate) fn latch_word(stripes: usize, stripe: u32) -> usize
    requires { (stripes ≤ 256) × (stripe < 256) }
    ensures { result ≡ latch_word stripes stripe }
{
    WORDS_OF_A_LINE * (stripes + stripe as usize + 1)
}

/// The place of a stripe's slot.
pub(crate) fn slot_place(stripe: u32) -> usize
    requires { stripe < 256 }
    ensures { result ≡ slot_place stripe }
{
    SLOTS_OF_A_LINE * stripe as usize
}

/// Whether a place is that of a stripe's slot, where there are so many stripes.
pub(crate) fn is_of_stripe(place: usize, stripes: usize) -> bool
    ensures { IsTrue result ↔ (place % 4 ≡ 0) × (place / 4 < stripes) }
{
    place % SLOTS_OF_A_LINE == 0 && place / SLOTS_OF_A_LINE < stripes
}

/// The place of a pass's own slot of a stripe.
pub(crate) fn own_place(pass: u32, stripe: u32) -> usize
    requires { (pass < 255) × (stripe < 256) }
    ensures { result ≡ own_place pass stripe }
{
    FIRST_OWN + SLOTS_OF_A_PASS * pass as usize + stripe as usize
}

impl Row {
    /// How many stripes there are, as a count of things in memory. Each has two words, and the commit word one.
    pub(crate) fn stripe_count(&self) -> usize
        ensures count { result ≡ stripes_of self.now }
        ensures few { result ≤ 256 }
    {
        (self.table.word_count() / WORDS_OF_A_LINE - 1) / 2
    }

    /// How many passes there are.
    pub(crate) fn pass_count(&self) -> u32
        ensures { result ≡ self.now.key.passes }
    {
        ((self.table.slot_count() - FIRST_OWN) / SLOTS_OF_A_PASS) as u32
    }

    /// How many stripes there are, over all classes.
    pub fn stripes(&self) -> u32
        ensures { result ≡ stripes_of self.now }
    {
        self.stripe_count() as u32
    }

    /// What the passes of this row keep of their entries.
    pub fn keeping(&self) -> Keeping
        ensures { result ≡ self.now.keeping }
    {
        self.keeping
    }
}
