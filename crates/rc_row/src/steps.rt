//! The atomic steps of a row, each of one kind, on a seat.

ghost use Rattle.std.specs.Prelude.{◌≡◌, ℕ, suc, Option, ◌<◌, [], ◌∷◌, ◌++◌, None, Some, drop};
ghost use Rattle.rc_tuple.specs.RisingSet.{In};
ghost use Rattle.rc_core.specs.State.{shares_of, writes_of};
ghost use Rattle.rc_core.specs.Passes.{IsHigh, MayCommit, rows_of_hold};
ghost use Rattle.atomic_table.specs.Table.{rest};
ghost use Rattle.rc_row.specs.declared.slot.Slot.TheVariants.{Apart, Empty, Handed};
ghost use Rattle.rc_row.specs.Own.{own_hands};
ghost use Rattle.rc_row.specs.Law.{kept_of, note_view, numbers_in, pass_view, passes_view, slot_place, standing_of, view_of};
ghost use Rattle.rc_row.specs.Passes.{compiled_of, spec_of, stripes_of};
ghost use Rattle.rc_row.specs.Seats.{dealt, gathered, informed, noted, undealt};
ghost use Rattle.rc_row.specs.Told.{EntersOrTurns, HasCommitted, HasLeft, HasLooked, HasUnlatched, HasUnlocked, IsBack, LatchesOrNot, LocksOrNot, MayLeave};

use crate::law::View;
use crate::plays::{
    Back, Carries, Commit, Deal, Enter, Gather, Knows, Latch, Leave, Lock, Look, Notes, Unlatch,
    Unlock,
};
use crate::row::{COMMIT_WORD, Row, latch_word, stripe_word};
use crate::slot::Slot;
use atomic_table::Seat;

/// What one reader adds to a stripe's word.
const READER: u64 = 1 << 16;

impl Row {
    /// Locks the stripe, where nobody has it, and takes its slot and the own slots of all passes there.
    pub(crate) fn lock_step<C: Knows>(
        &self,
        seat: &mut Seat<Slot, View>,
        mark: u64,
        stripe: u32,
    ) -> u64
        requires row { seat.old.table_id ≡ self.now.table }
        requires pass { seat.old.me.0 ≡ pass_view (standing_of seat.old.me.0) }
        requires key { C.key ≡ Some self.now.key }
        requires mark { mark ≡ suc (standing_of seat.old.me.0).core.number }
        requires stripe { stripe < stripes_of self.now }
        requires high { IsHigh (standing_of seat.old.me.0).core stripe }
        ensures seat { (seat.new.table_id ≡ seat.old.table_id) × (seat.new.id ≡ seat.old.id) }
        ensures told { LocksOrNot self.now.key seat.old.me stripe result seat.new.me }
    {
        self.table
            .shared
            .compare_exchange::<Lock<C>>(seat, stripe_word(stripe), 0, mark)
    }

    /// Unlocks the stripe, and puts its slot, which was taken last, and the own slots there home.
    pub(crate) fn unlock_step(&self, seat: &mut Seat<Slot, View>, mark: u64, stripe: u32)
        requires row { seat.old.table_id ≡ self.now.table }
        requires pass { seat.old.me.0 ≡ pass_view (standing_of seat.old.me.0) }
        requires mark { mark ≡ suc (standing_of seat.old.me.0).core.number }
        requires stripe { stripe < stripes_of self.now }
        requires held { In stripe (writes_of (standing_of seat.old.me.0).core) }
        requires slots { seat.old.me.1 ≡ (slot_place stripe, Apart (kept_of (spec_of self.now) (rows_of_hold (standing_of seat.old.me.0).core.held stripe))) ∷ own_hands self.now.key.passes stripe (λ _. Empty) ++ drop (suc self.now.key.passes) seat.old.me.1 }
        ensures seat { (seat.new.table_id ≡ seat.old.table_id) × (seat.new.id ≡ seat.old.id) }
        ensures told { HasUnlocked self.now.key.passes seat.old.me stripe seat.new.me }
    {
        self.table
            .shared
            .fetch_sub::<Unlock>(seat, stripe_word(stripe), mark);
    }

    /// Counts a reader in, and takes its own slot of the stripe.
    pub(crate) fn enter_step<C: Knows>(&self, seat: &mut Seat<Slot, View>, stripe: u32) -> u64
        requires row { seat.old.table_id ≡ self.now.table }
        requires pass { seat.old.me.0 ≡ pass_view (standing_of seat.old.me.0) }
        requires key { C.key ≡ Some self.now.key }
        requires stripe { stripe < stripes_of self.now }
        requires high { IsHigh (standing_of seat.old.me.0).core stripe }
        ensures seat { (seat.new.table_id ≡ seat.old.table_id) × (seat.new.id ≡ seat.old.id) }
        ensures told { EntersOrTurns self.now.key seat.old.me stripe result seat.new.me }
    {
        self.table
            .shared
            .fetch_add::<Enter<C>>(seat, stripe_word(stripe), READER)
    }

    /// Counts a reader out that found a writer.
    pub(crate) fn back_step(&self, seat: &mut Seat<Slot, View>, stripe: u32)
        requires row { seat.old.table_id ≡ self.now.table }
        requires pass { seat.old.me.0 ≡ pass_view (standing_of seat.old.me.0) }
        requires stripe { stripe < stripes_of self.now }
        requires turning { (standing_of seat.old.me.0).core.turning ≡ Some stripe }
        ensures seat { (seat.new.table_id ≡ seat.old.table_id) × (seat.new.id ≡ seat.old.id) }
        ensures told { IsBack seat.old.me seat.new.me }
    {
        self.table
            .shared
            .fetch_sub::<Back>(seat, stripe_word(stripe), READER);
    }

    /// Counts a reader out that shared the stripe, and puts its own slot home, with its pointer where it has one.
    pub(crate) fn leave_step(&self, seat: &mut Seat<Slot, View>, stripe: u32)
        requires row { seat.old.table_id ≡ self.now.table }
        requires pass { (lacks : Option ℕ) × (seat.old.me.0 ≡ view_of (standing_of seat.old.me.0) None lacks) × MayLeave self.now.key (standing_of seat.old.me.0).core stripe lacks seat.old.me.1 }
        requires stripe { stripe < stripes_of self.now }
        requires held { In stripe (shares_of (standing_of seat.old.me.0).core) }
        ensures seat { (seat.new.table_id ≡ seat.old.table_id) × (seat.new.id ≡ seat.old.id) }
        ensures told { HasLeft seat.old.me stripe seat.new.me }
    {
        self.table
            .shared
            .fetch_sub::<Leave>(seat, stripe_word(stripe), READER);
    }

    /// Takes the latch, where it is free, with the slot.
    pub(crate) fn latch_step<C: Knows>(
        &self,
        seat: &mut Seat<Slot, View>,
        mark: u64,
        stripe: u32,
    ) -> u64
        requires row { seat.old.table_id ≡ self.now.table }
        requires pass { seat.old.me.0 ≡ view_of (standing_of seat.old.me.0) None (Some stripe) }
        requires key { C.key ≡ Some self.now.key }
        requires mark { mark ≡ suc (standing_of seat.old.me.0).core.number }
        requires stripe { stripe < stripes_of self.now }
        requires held { In stripe (shares_of (standing_of seat.old.me.0).core) }
        requires content { (standing_of seat.old.me.0).core.wish ≡ None }
        ensures seat { (seat.new.table_id ≡ seat.old.table_id) × (seat.new.id ≡ seat.old.id) }
        ensures told { LatchesOrNot self.now.key seat.old.me stripe result seat.new.me }
    {
        let word = latch_word(self.stripe_count(), stripe);
        self.table
            .shared
            .compare_exchange::<Latch<C>>(seat, word, 0, mark)
    }

    /// Frees the latch, and puts the slot home.
    pub(crate) fn unlatch_step(&self, seat: &mut Seat<Slot, View>, stripe: u32)
        requires row { seat.old.table_id ≡ self.now.table }
        requires latch { seat.old.me.0 ≡ view_of (standing_of seat.old.me.0) (Some stripe) (Some stripe) }
        requires stripe { stripe < stripes_of self.now }
        requires slot { seat.old.me.1 ≡ (slot_place stripe, Handed (kept_of (spec_of self.now) (rows_of_hold (standing_of seat.old.me.0).core.held stripe))) ∷ rest seat.old.me.1 }
        ensures seat { (seat.new.table_id ≡ seat.old.table_id) × (seat.new.id ≡ seat.old.id) }
        ensures told { HasUnlatched seat.old.me seat.new.me }
    {
        let word = latch_word(self.stripe_count(), stripe);
        self.table.shared.swap::<Unlatch>(seat, word, 0);
    }

    /// Commits the entry that the call picks, and answers its place.
    pub(crate) fn commit_step<E: Carries>(&self, seat: &mut Seat<Slot, View>) -> u64
        requires key { E.told ≡ Some self.now.key }
        requires row { seat.old.table_id ≡ self.now.table }
        requires pass { seat.old.me.0 ≡ pass_view (standing_of seat.old.me.0) }
        requires allowed { MayCommit (compiled_of self.now) (standing_of seat.old.me.0).core E.entry }
        ensures seat { (seat.new.table_id ≡ seat.old.table_id) × (seat.new.id ≡ seat.old.id) }
        ensures told { HasCommitted self.now.key E.entry seat.old.me result seat.new.me }
    {
        self.table
            .shared
            .fetch_add::<Commit<E>>(seat, COMMIT_WORD, 1)
    }

    /// Reads how long the history is.
    pub(crate) fn look_step<C: Knows>(&self, seat: &mut Seat<Slot, View>) -> u64
        requires key { C.key ≡ Some self.now.key }
        requires row { seat.old.table_id ≡ self.now.table }
        requires pass { seat.old.me.0 ≡ pass_view (standing_of seat.old.me.0) }
        ensures seat { (seat.new.table_id ≡ seat.old.table_id) × (seat.new.id ≡ seat.old.id) }
        ensures told { HasLooked self.now.key seat.old.me result seat.new.me }
    {
        self.table.shared.load::<Look<C>>(seat, COMMIT_WORD)
    }

    /// Makes a note.
    pub(crate) fn note_step(&self, seat: &mut Seat<Slot, View>) -> Seat<Slot, View>
        requires row { seat.old.table_id ≡ self.now.table }
        requires pass { seat.old.me.0 ≡ pass_view (standing_of seat.old.me.0) }
        ensures seat { (seat.new.table_id ≡ seat.old.table_id) × (seat.new.id ≡ seat.old.id) × (seat.new.me ≡ seat.old.me) }
        ensures note { (result.table_id ≡ seat.old.table_id) × (result.me ≡ (noted seat.old.me.0, [])) }
    {
        self.table.shared.split_seat::<Notes>(seat)
    }

    /// Learns a note.
    pub(crate) fn learn_step(&self, seat: &mut Seat<Slot, View>, note: Seat<Slot, View>)
        requires row { (seat.old.table_id ≡ self.now.table) × (note.table_id ≡ self.now.table) }
        requires pass { seat.old.me.0 ≡ pass_view (standing_of seat.old.me.0) }
        requires note { (note.me.0 ≡ note_view note.me.0.told note.me.0.known) × (note.me.1 ≡ []) }
        ensures seat { (seat.new.table_id ≡ seat.old.table_id) × (seat.new.id ≡ seat.old.id) }
        ensures told { seat.new.me ≡ (informed seat.old.me.0 note.me.0, seat.old.me.1) }
    {
        self.table.shared.join_seat::<Notes>(seat, note);
    }

    /// Deals the first pass of the opener.
    pub(crate) fn deal_step(&self, seat: &mut Seat<Slot, View>) -> Seat<Slot, View>
        requires row { seat.old.table_id ≡ self.now.table }
        requires some { seat.old.me.0 ≡ passes_view (standing_of seat.old.me.0 ∷ (undealt seat.old.me.0).passes) }
        ensures seat { (seat.new.table_id ≡ seat.old.table_id) × (seat.new.id ≡ seat.old.id) × (seat.new.me ≡ (undealt seat.old.me.0, seat.old.me.1)) }
        ensures dealt { (result.table_id ≡ seat.old.table_id) × (result.me ≡ (dealt seat.old.me.0, [])) }
    {
        self.table.shared.split_seat::<Deal>(seat)
    }

    /// Gathers a pass into those before it.
    pub(crate) fn gather_step(&self, seat: &mut Seat<Slot, View>, other: Seat<Slot, View>)
        requires row { (seat.old.table_id ≡ self.now.table) × (other.table_id ≡ self.now.table) }
        requires all { seat.old.me.0 ≡ passes_view seat.old.me.0.passes }
        requires pass { (other.me.0 ≡ pass_view (standing_of other.me.0)) × (other.me.1 ≡ []) }
        requires order { (k : ℕ) → In k (numbers_in seat.old.me.0.passes) → k < (standing_of other.me.0).core.number }
        ensures seat { (seat.new.table_id ≡ seat.old.table_id) × (seat.new.id ≡ seat.old.id) }
        ensures told { seat.new.me ≡ (gathered seat.old.me.0 other.me.0, seat.old.me.1) }
    {
        self.table.shared.join_seat::<Gather>(seat, other);
    }
}
