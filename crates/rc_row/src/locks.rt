//! The calls of a writer.

ghost use Rattle.std.specs.Prelude.{◌≡◌, ℕ, Bool, List, ◌<◌, ◌≤◌, [], ◌∷◌, ◌++◌, IfNone, IfSome, None, Some, length};
ghost use Rattle.rc_tuple.specs.RisingSet.{In};
ghost use Rattle.rc_spec.specs.Fragments.{EdgeRow};
ghost use Rattle.rc_spec.specs.declared.lock.Mode.TheVariants.{Exclusive};
ghost use Rattle.rc_core.specs.State.{writes_of};
ghost use Rattle.rc_core.specs.Passes.{IsAbove};
ghost use Rattle.atomic_table.specs.Table.{rest};
ghost use Rattle.rc_fragment.specs.Keep.{IsAtRest, KeptRows};
ghost use Rattle.rc_row.specs.declared.slot.Slot.TheVariants.{Empty};
ghost use Rattle.rc_row.specs.Law.{Slot, slot_place};
ghost use Rattle.rc_row.specs.Own.{IsLockedWith, hand_out, hands_out, own_hands};
ghost use Rattle.rc_row.specs.Passes.{HasWaited, IsPassOf, OfHeld, PassSeen, core_of, spec_of, stripes_of, with_standing, with_taken, without_stripe};
ghost use Rattle.rc_row.specs.Standings.{HaveOneRelation, KeepsOut, turned_away};

use crate::hands::{found_in, place_of, slots_out, take_at, turn_by, turns_for};
use crate::held::HeldFragment;
use crate::law::View;
use crate::pass::Pass;
use crate::row::{Row, own_place, slot_place, stripe_word};
use crate::slot::Slot;
use crate::waiting::SPINS;
use atomic_table::Seat;
use rc_fragment::Keep;
use rc_spec::Found;
use std::hint;
use std::marker::Brand;
use std::sync::Wait;

impl Row {
    /// Locks the stripe to write it, or answers what was in the way. The stripe is above all that the pass holds. Costs
    /// one atomic step, and takes no memory. (PLDI 2012, striped locks.)
    ///
    /// Afterwards all that the pass holds has the rows of one relation that satisfies the dependencies. A refused step is
    /// counted, and the pass holds what it held.
    pub fn try_lock(&self, pass: &mut Pass, stripe: u32) -> Option<Found>
        requires pass { IsPassOf self.now pass.old }
        requires stripe { stripe < stripes_of self.now }
        requires above { IsAbove (core_of pass.old) stripe }
        ensures pass { IsPassOf self.now pass.new }
        ensures taken { IfNone result ((rows : List EdgeRow) × (pass.new ≡ with_taken (spec_of self.now) Exclusive stripe rows pass.old)) }
        ensures one { IfNone result (HaveOneRelation (spec_of self.now) (core_of pass.new).held) }
        ensures found { IfSome result (λ found. KeepsOut Exclusive self.now.key.passes (core_of pass.old).number found) }
        ensures refused { IfSome result (λ found. pass.new ≡ with_standing (turned_away Exclusive pass.old.standing stripe found) pass.old) }
    {
        // The table has a slot for each stripe, so that what the pass holds has room for one more.
        let _ = &self.table;
        let mark = pass.number as u64 + 1;
        let found = self.lock_step::<Brand>(&mut pass.seat, mark, stripe);
        if found != 0 {
            return Some(found_in(found));
        }
        let keep = self.take_alone(&mut pass.seat, &pass.held, stripe);
        pass.held.push_reserved(HeldFragment::locked(stripe, keep));
        None
    }

    /// The fragment in the slot that was taken last, with the own slots of its stripe. Where pointers to it were handed out, they are
    /// dropped, so that the pass has it alone.
    fn take_alone(&self, seat: &mut Seat<Slot, View>, held: &Vec<HeldFragment>, stripe: u32) -> Keep
        requires row { seat.old.table_id ≡ self.now.table }
        requires stripe { stripe < stripes_of self.now }
        requires few { length held.now.items ≤ 256 }
        requires slots { (k : ℕ) × (handed : Bool) × (keep : KeptRows) × (owns : ℕ → Slot) × IsLockedWith self.now.key.passes stripe handed keep owns seat.old.me.1 (hands_out self.now.key.passes k held.now.items) }
        ensures seat { (seat.new.table_id ≡ seat.old.table_id) × (seat.new.id ≡ seat.old.id) × (seat.new.me.0 ≡ seat.old.me.0) }
        ensures alone { (k : ℕ) (handed : Bool) (keep : KeptRows) (owns : ℕ → Slot) → IsLockedWith self.now.key.passes stripe handed keep owns seat.old.me.1 (hands_out self.now.key.passes k held.now.items) → (result ≡ keep) × (seat.new.me.1 ≡ hand_out self.now.key.passes k Exclusive stripe ++ hands_out self.now.key.passes k held.now.items) }
    {
        match self
            .table
            .shared
            .exchange(seat, slot_place(stripe), Slot::Empty)
        {
            Slot::Apart(keep) => keep,
            Slot::Handed(keep) => {
                let others = slots_out(held.as_slice(), self.pass_count());
                self.drop_pointers(seat, stripe, others);
                keep
            }
            Slot::Empty => unreachable!(),
        }
    }

    /// Empties the own slots of a stripe just locked, which lie behind its slot and before so many others. Costs the passes.
    fn drop_pointers(&self, seat: &mut Seat<Slot, View>, stripe: u32, others: usize)
        requires row { seat.old.table_id ≡ self.now.table }
        requires stripe { stripe < stripes_of self.now }
        requires slots { (owns : ℕ → Slot) × (more : List (ℕ × Slot)) × (seat.old.me.1 ≡ (slot_place stripe, Empty) ∷ own_hands self.now.key.passes stripe owns ++ more) }
        ensures seat { (seat.new.table_id ≡ seat.old.table_id) × (seat.new.id ≡ seat.old.id) × (seat.new.me.0 ≡ seat.old.me.0) }
        ensures slots { (owns : ℕ → Slot) (more : List (ℕ × Slot)) → others ≡ length more → seat.old.me.1 ≡ (slot_place stripe, Empty) ∷ own_hands self.now.key.passes stripe owns ++ more → seat.new.me.1 ≡ (slot_place stripe, Empty) ∷ own_hands self.now.key.passes stripe (λ _. Empty) ++ more }
    {
        seat.turn();
        for pass in (0..self.pass_count()).rev() {
            let own = own_place(pass, stripe);
            drop(self.table.shared.exchange(seat, own, Slot::Empty));
            seat.turn();
        }
        turn_by(seat, others);
    }

    /// Locks the stripe as `try_lock` does, and waits where something is in the way. If it returns, the stripe is
    /// locked; nothing is promised of when. It spins for a while before it parks.
    pub fn wait_lock<R: Wait>(&self, rt: &R, pass: &mut Pass, stripe: u32)
        requires pass { IsPassOf self.now pass.old }
        requires stripe { stripe < stripes_of self.now }
        requires above { IsAbove (core_of pass.old) stripe }
        ensures pass { IsPassOf self.now pass.new }
        ensures taken { (waited : PassSeen) × (rows : List EdgeRow) × HasWaited Exclusive self.now.key.passes stripe pass.old waited × (pass.new ≡ with_taken (spec_of self.now) Exclusive stripe rows waited) }
        ensures one { HaveOneRelation (spec_of self.now) (core_of pass.new).held }
    {
        for _ in rt.forever() {
            match self.try_lock(pass, stripe) {
                None => return,
                Some(_) => self.wait_free(rt, pass, stripe),
            }
        }
        unreachable!()
    }

    /// Waits while the word of the stripe isn't 0. It is the stripe that the pass wants, so that who parks is one of those of
    /// whom it is proved that they don't wait in a circle.
    fn wait_free<R: Wait>(&self, rt: &R, pass: &Pass, stripe: u32)
        requires stripe { stripe < stripes_of self.now }
        requires wish { (core_of pass.now).wish ≡ Some stripe }
    {
        let _ = pass;
        let table = &self.table.shared;
        let word = stripe_word(stripe);
        for _ in 0..SPINS {
            if table.peek(word) == 0 {
                return;
            }
            hint::spin_loop();
        }
        self.waiting.enter(stripe);
        let found = table.peek(word);
        if found != 0 {
            table.park(rt, word, (found % 4294967296) as u32);
        }
        self.waiting.leave(stripe);
    }

    /// Gives a stripe back that the pass writes. What it changed there is committed or taken back. Costs one atomic step,
    /// takes no memory and wakes nobody: `wake` does.
    pub fn unlock(&self, pass: &mut Pass, stripe: u32)
        requires pass { IsPassOf self.now pass.old }
        requires held { In stripe (writes_of (core_of pass.old)) }
        requires rest { OfHeld pass.old.held stripe IsAtRest }
        ensures pass { IsPassOf self.now pass.new }
        ensures value { pass.new ≡ without_stripe stripe pass.old }
    {
        // The table tells how many passes and stripes there are.
        let _ = &self.table;
        let at = place_of(&pass.held, stripe);
        let (above, below) = turns_for(&pass.held, at, self.pass_count());
        let mark = pass.number as u64 + 1;
        turn_by(&mut pass.seat, above);
        let held = take_at(&mut pass.held, at);
        let home = Slot::Apart(held.fragment.into_keep());
        self.put_in(&mut pass.seat, slot_place(stripe), home);
        self.unlock_step(&mut pass.seat, mark, stripe);
        turn_by(&mut pass.seat, below);
    }

    /// A value goes into the slot at the front, which is empty.
    pub(crate) fn put_in(&self, seat: &mut Seat<Slot, View>, place: usize, value: Slot)
        requires row { seat.old.table_id ≡ self.now.table }
        requires slot { seat.old.me.1 ≡ (place, Empty) ∷ rest seat.old.me.1 }
        ensures { (seat.new.table_id ≡ seat.old.table_id) × (seat.new.id ≡ seat.old.id) × (seat.new.me ≡ (seat.old.me.0, (place, value) ∷ rest seat.old.me.1)) }
    {
        match self.table.shared.exchange(seat, place, value) {
            Slot::Empty => {}
            Slot::Apart(_) | Slot::Handed(_) => unreachable!(),
        }
    }

    /// Wakes all that wait for the stripe. Where nobody waits it costs one load, and makes no system call.
    pub fn wake(&self, stripe: u32)
        requires { stripe < stripes_of self.now }
    {
        if self.waiting.has_some(stripe) {
            self.table.shared.wake_all(stripe_word(stripe));
        }
    }
}
