//! The calls of a reader.

ghost use Rattle.std.specs.Prelude.{◌≡◌, List, ◌<◌, ◌∷◌, IfErr, IfNone, IfOk, IfSome, None, OnErr, Some};
ghost use Rattle.rc_tuple.specs.RisingSet.{In};
ghost use Rattle.rc_spec.specs.Fragments.{EdgeRow};
ghost use Rattle.rc_spec.specs.declared.lock.Found.TheVariants.{Latch};
ghost use Rattle.rc_spec.specs.declared.lock.Mode.TheVariants.{Shared};
ghost use Rattle.rc_core.specs.State.{shares_of};
ghost use Rattle.rc_core.specs.Passes.{IsAbove, IsHigh, released, rows_of_hold, shared};
ghost use Rattle.atomic_table.specs.Table.{rest};
ghost use Rattle.rc_fragment.specs.Keep.{KeptRows};
ghost use Rattle.rc_row.specs.declared.slot.Slot.TheVariants.{Empty, Handed};
ghost use Rattle.rc_row.specs.Law.{kept_of, own_place, pass_view, slot_place, standing_of, view_of};
ghost use Rattle.rc_row.specs.Own.{HasInFront, pointer_in};
ghost use Rattle.rc_row.specs.Passes.{HasWaited, IsPassOf, PassSeen, core_of, spec_of, stripes_of, with_standing, with_taken, without_stripe};
ghost use Rattle.rc_row.specs.Standings.{HaveOneRelation, KeepsOut, latched_out, turned_away, with_core, without_wish};

use crate::hands::{found_in, place_of, take_at, turn_by, turns_for};
use crate::held::HeldFragment;
use crate::law::View;
use crate::pass::Pass;
use crate::row::{Row, latch_word, own_place, slot_place, stripe_word};
use crate::slot::Slot;
use crate::waiting::SPINS;
use atomic_table::Seat;
use rc_fragment::Keep;
use rc_spec::Found;
use rc_tuple::Memory;
use std::marker::Brand;
use std::sync::Wait;
use std::{hint, thread};

impl Row {
    /// A pointer to the fragment in the slot that was taken last, which stays there, and from now on counts as one to which pointers
    /// were handed out.
    fn share_out(&self, seat: &mut Seat<Slot, View>, stripe: u32) -> Option<Keep>
        requires row { seat.old.table_id ≡ self.now.table }
        requires stripe { stripe < stripes_of self.now }
        requires slot { (keep : KeptRows) × HasInFront stripe keep seat.old.me.1 }
        ensures seat { (seat.new.table_id ≡ seat.old.table_id) × (seat.new.id ≡ seat.old.id) × (seat.new.me.0 ≡ seat.old.me.0) }
        ensures slot { (keep : KeptRows) → HasInFront stripe keep seat.old.me.1 → seat.new.me.1 ≡ (slot_place stripe, Handed keep) ∷ rest seat.old.me.1 }
        ensures copy { IfSome result (λ copy. HasInFront stripe copy seat.old.me.1) }
    {
        // There are at most 256 stripes, each of which has its place.
        let _ = &self.table;
        let place = slot_place(stripe);
        let slot = self.table.shared.exchange(seat, place, Slot::Empty);
        match slot.into_keep().share(self.alloc) {
            Ok((keep, copy)) => {
                self.put_in(seat, place, Slot::Handed(keep));
                Some(copy)
            }
            Err(back) => {
                self.put_in(seat, place, Slot::Handed(back));
                None
            }
        }
    }

    /// A pass that shares the stripe and has no pointer to its fragment gets one under the latch, or is counted out again.
    fn latch_out(
        &self,
        seat: &mut Seat<Slot, View>,
        number: u32,
        stripe: u32,
    ) -> Result<Keep, Option<u32>>
        requires row { seat.old.table_id ≡ self.now.table }
        requires pass { seat.old.me.0 ≡ view_of (standing_of seat.old.me.0) None (Some stripe) }
        requires number { number ≡ (standing_of seat.old.me.0).core.number }
        requires stripe { stripe < stripes_of self.now }
        requires held { In stripe (shares_of (standing_of seat.old.me.0).core) }
        requires content { (standing_of seat.old.me.0).core.wish ≡ None }
        requires own { seat.old.me.1 ≡ (own_place number stripe, Empty) ∷ rest seat.old.me.1 }
        ensures seat { (seat.new.table_id ≡ seat.old.table_id) × (seat.new.id ≡ seat.old.id) }
        ensures ok { IfOk result (λ keep. (seat.new.me.0 ≡ pass_view (standing_of seat.old.me.0)) × (seat.new.me.1 ≡ seat.old.me.1) × (keep ≡ kept_of (spec_of self.now) (rows_of_hold (standing_of seat.old.me.0).core.held stripe))) }
        ensures found { IfErr result (λ o. IfSome o (λ k. KeepsOut Shared self.now.key.passes (standing_of seat.old.me.0).core.number (Latch k))) }
        ensures missed { IfErr result (λ o. IfSome o (λ k. (seat.new.me.0 ≡ pass_view (with_core (latched_out (standing_of seat.old.me.0) stripe (Latch k)) (released (standing_of seat.old.me.0).core stripe))) × (seat.new.me.1 ≡ rest seat.old.me.1))) }
        ensures memory { IfErr result (λ o. IfNone o ((seat.new.me.0 ≡ pass_view (with_core (standing_of seat.old.me.0) (released (standing_of seat.old.me.0).core stripe))) × (seat.new.me.1 ≡ rest seat.old.me.1))) }
    {
        // There are at most 255 passes, so that the number found in a latch is a pass's.
        let _ = &self.table;
        let owner = self.latch_step::<Brand>(seat, number as u64 + 1, stripe);
        if owner != 0 {
            self.leave_step(seat, stripe);
            return Err(Some((owner - 1) as u32));
        }
        let copy = self.share_out(seat, stripe);
        self.unlatch_step(seat, stripe);
        match copy {
            Some(keep) => Ok(keep),
            None => {
                self.leave_step(seat, stripe);
                Err(None)
            }
        }
    }

    /// A reader is counted in, and gets the fragment, or is counted out again.
    fn enter(
        &self,
        seat: &mut Seat<Slot, View>,
        number: u32,
        stripe: u32,
    ) -> Result<Keep, Option<Found>>
        requires row { seat.old.table_id ≡ self.now.table }
        requires pass { seat.old.me.0 ≡ pass_view (standing_of seat.old.me.0) }
        requires number { (number ≡ (standing_of seat.old.me.0).core.number) × (number < 255) }
        requires stripe { stripe < stripes_of self.now }
        requires high { IsHigh (standing_of seat.old.me.0).core stripe }
        ensures seat { (seat.new.table_id ≡ seat.old.table_id) × (seat.new.id ≡ seat.old.id) }
        ensures ok { IfOk result (λ keep. (rows : List EdgeRow) × (seat.new.me.0 ≡ pass_view (with_core (standing_of seat.old.me.0) (shared (standing_of seat.old.me.0).core stripe rows))) × (seat.new.me.1 ≡ (own_place number stripe, Empty) ∷ seat.old.me.1) × (keep ≡ kept_of (spec_of self.now) rows)) }
        ensures one { IfOk result (λ keep. HaveOneRelation (spec_of self.now) (standing_of seat.new.me.0).core.held) }
        ensures found { IfErr result (λ o. IfSome o (KeepsOut Shared self.now.key.passes (standing_of seat.old.me.0).core.number)) }
        ensures refused { IfErr result (λ o. IfSome o (λ found. (seat.new.me.0 ≡ pass_view (turned_away Shared (standing_of seat.old.me.0) stripe found)) × (seat.new.me.1 ≡ seat.old.me.1))) }
        ensures memory { IfErr result (λ o. IfNone o ((seat.new.me.0 ≡ pass_view (without_wish (standing_of seat.old.me.0))) × (seat.new.me.1 ≡ seat.old.me.1))) }
    {
        // There are at most 256 stripes, each of which has a place among those of a pass.
        let _ = &self.table;
        let found = self.enter_step::<Brand>(seat, stripe);
        if found % 65536 != 0 {
            self.back_step(seat, stripe);
            return Err(Some(found_in(found)));
        }
        let own = own_place(number, stripe);
        match self.table.shared.exchange(seat, own, Slot::Empty) {
            Slot::Handed(keep) => return Ok(keep),
            Slot::Empty => {}
            Slot::Apart(_) => unreachable!(),
        }
        match self.latch_out(seat, number, stripe) {
            Ok(keep) => Ok(keep),
            Err(Some(owner)) => Err(Some(Found::Latch(owner))),
            Err(None) => Err(None),
        }
    }

    /// Shares the stripe to read it, beside other readers, or answers what was in the way: a writer, or another
    /// reader that is just taking its own pointer to the fragment. The stripe is above all that the pass holds. Costs one atomic
    /// step, and the first time since the stripe was written three more. (PLDI 2012, shared locks.)
    ///
    /// Memory may be wanted for the pointer that readers share, where the fragment lay by value. Then, as after a refusal, the
    /// pass holds what it held. It was counted in for a moment, which may have sent a waiting writer to sleep: whoever wakes those
    /// that wait calls `wake` of the stripe then too.
    pub fn try_share(&self, pass: &mut Pass, stripe: u32) -> Result<Option<Found>, Memory>
        requires pass { IsPassOf self.now pass.old }
        requires stripe { stripe < stripes_of self.now }
        requires above { IsAbove (core_of pass.old) stripe }
        ensures pass { IsPassOf self.now pass.new }
        ensures taken { IfOk result (λ o. IfNone o ((rows : List EdgeRow) × (pass.new ≡ with_taken (spec_of self.now) Shared stripe rows pass.old))) }
        ensures one { IfOk result (λ o. IfNone o (HaveOneRelation (spec_of self.now) (core_of pass.new).held)) }
        ensures found { IfOk result (λ o. IfSome o (KeepsOut Shared self.now.key.passes (core_of pass.old).number)) }
        ensures refused { IfOk result (λ o. IfSome o (λ found. pass.new ≡ with_standing (turned_away Shared pass.old.standing stripe found) pass.old)) }
        ensures memory { OnErr result (pass.new ≡ with_standing (without_wish pass.old.standing) pass.old) }
    {
        // The table has a slot for each stripe, so that what the pass holds has room for one more.
        let _ = &self.table;
        match self.enter(&mut pass.seat, pass.number, stripe) {
            Ok(keep) => {
                pass.held.push_reserved(HeldFragment::shared(stripe, keep));
                Ok(None)
            }
            Err(Some(found)) => Ok(Some(found)),
            Err(None) => Err(Memory),
        }
    }

    /// Shares the stripe as `try_share` does, and waits where something is in the way. If it returns `Ok`, the stripe is
    /// shared; nothing is promised of when.
    pub fn wait_share<R: Wait>(&self, rt: &R, pass: &mut Pass, stripe: u32) -> Result<(), Memory>
        requires pass { IsPassOf self.now pass.old }
        requires stripe { stripe < stripes_of self.now }
        requires above { IsAbove (core_of pass.old) stripe }
        ensures pass { IsPassOf self.now pass.new }
        ensures taken { IfOk result (λ _. (waited : PassSeen) × (rows : List EdgeRow) × HasWaited Shared self.now.key.passes stripe pass.old waited × (pass.new ≡ with_taken (spec_of self.now) Shared stripe rows waited)) }
        ensures one { IfOk result (λ _. HaveOneRelation (spec_of self.now) (core_of pass.new).held) }
        ensures memory { OnErr result ((waited : PassSeen) × HasWaited Shared self.now.key.passes stripe pass.old waited × (pass.new ≡ with_standing (without_wish waited.standing) waited)) }
    {
        for _ in rt.forever() {
            match self.try_share(pass, stripe) {
                Ok(None) => return Ok(()),
                Ok(Some(Found::Latch(_))) => self.wait_unlatched(stripe),
                Ok(Some(_)) => self.wait_unwritten(rt, pass, stripe),
                Err(Memory) => {
                    self.wake(stripe);
                    return Err(Memory);
                }
            }
        }
        unreachable!()
    }

    /// Waits while somebody writes the stripe, which is the one that the pass wants. The reader was counted in for a moment, which
    /// may have sent a writer to sleep: so it wakes the stripe first.
    fn wait_unwritten<R: Wait>(&self, rt: &R, pass: &Pass, stripe: u32)
        requires stripe { stripe < stripes_of self.now }
        requires wish { (core_of pass.now).wish ≡ Some stripe }
    {
        let _ = pass;
        self.wake(stripe);
        let table = &self.table.shared;
        let word = stripe_word(stripe);
        for _ in rt.forever() {
            if self.is_unwritten(word) {
                return;
            }
            self.waiting.enter(stripe);
            let found = table.peek(word);
            if found % 65536 != 0 {
                table.park(rt, word, (found % 4294967296) as u32);
            }
            self.waiting.leave(stripe);
        }
    }

    /// Whether nobody writes the stripe with this word, now or within a while.
    fn is_unwritten(&self, word: usize) -> bool
        requires { word < self.now.table.words }
    {
        for _ in 0..SPINS {
            if self.table.shared.peek(word) % 65536 == 0 {
                return true;
            }
            hint::spin_loop();
        }
        false
    }

    /// Waits a while for a latch. Its owner has it while it copies a pointer, so nobody parks on a latch, and freeing it wakes
    /// nobody. The reader was counted in for a moment: so it wakes the stripe first.
    fn wait_unlatched(&self, stripe: u32)
        requires { stripe < stripes_of self.now }
    {
        self.wake(stripe);
        let word = latch_word(self.stripe_count(), stripe);
        for _ in 0..SPINS {
            if self.table.shared.peek(word) == 0 {
                return;
            }
            hint::spin_loop();
        }
        thread::yield_now();
    }

    /// Gives a stripe back that the pass shares. Its pointer to the fragment goes into its own slot, from which the pass takes it when
    /// it next shares the stripe, or a writer that wants the fragment alone. Costs one atomic step, takes no memory and wakes nobody:
    /// `wake` does.
    pub fn unshare(&self, pass: &mut Pass, stripe: u32)
        requires pass { IsPassOf self.now pass.old }
        requires held { In stripe (shares_of (core_of pass.old)) }
        ensures pass { IsPassOf self.now pass.new }
        ensures value { pass.new ≡ without_stripe stripe pass.old }
    {
        // The table tells how many passes and stripes there are.
        let _ = &self.table;
        let at = place_of(&pass.held, stripe);
        let (above, below) = turns_for(&pass.held, at, self.pass_count());
        turn_by(&mut pass.seat, above);
        let pointer = take_at(&mut pass.held, at).fragment.into_kept();
        self.lodge(&mut pass.seat, own_place(pass.number, stripe), pointer);
        self.leave_step(&mut pass.seat, stripe);
        turn_by(&mut pass.seat, below);
    }

    /// A pointer, where there is one, goes into the slot at the front, which is empty.
    fn lodge(&self, seat: &mut Seat<Slot, View>, place: usize, pointer: Option<Keep>)
        requires row { seat.old.table_id ≡ self.now.table }
        requires slot { seat.old.me.1 ≡ (place, Empty) ∷ rest seat.old.me.1 }
        ensures { (seat.new.table_id ≡ seat.old.table_id) × (seat.new.id ≡ seat.old.id) × (seat.new.me ≡ (seat.old.me.0, (place, pointer_in pointer) ∷ rest seat.old.me.1)) }
    {
        if let Some(own) = pointer {
            self.put_in(seat, place, Slot::Handed(own));
        }
    }
}
