//! What lends a plan the fragments of the stripes that it locks.

ghost use Rattle.std.specs.Prelude.{◌≡◌, ◌<◌, Err, length, OnOk, OnErr};
ghost use Rattle.rc_spec.specs.Stripes.{stripe_total};
ghost use Rattle.rc_spec.specs.declared.spec.Spec.{Spec};
ghost use Rattle.rc_fragment.specs.Fragment.{HasColumns, edge_row, edge_table};
ghost use Rattle.rc_fragment.specs.Holder.{AreOfOneRelation, CanLower, CanRaise, CanRaiseNew, CountsOnlyHeld, HasNoRowAt, HasRefused, HasRoomFor, HasRowAt, HasTaken, HasTakenNothing, Holding, IsAbove, IsHeld, IsHeldExclusive, IsLent, IsPartlyAddedAt, MayTake, all_reverted, held_of, with_room_at, with_tuple_at, without_tuple_at};
ghost use Rattle.rc_fragment.specs.Tuples.{IsFirstKept};
ghost use Rattle.rc_fragment.specs.declared.held.AddStop.TheVariants as add;
ghost use Rattle.rc_fragment.specs.declared.held.Held.{Held};
ghost use Rattle.rc_fragment.specs.declared.held.TakeStop.TheVariants as stop;

use crate::{AddStop, Fragment, TakeStop};
use rc_spec::Mode;
use rc_tuple::{Memory, Tuple};

/// Lends a plan the fragments of the stripes that it takes (PLDI 2012, two-phase plans).
///
/// Stripes are taken in rising order, among those that the holder has to lend. A stripe that is held
/// Exclusive is changed in place. No call lends a fragment for writing, since a caller could put
/// another one in its place. All that a holder tells is one value, and each call says what it leaves
/// of it.
pub trait Holder {
    /// What the holder tells.
    ghost seen: { Self → Holding };

    /// For which specifications the holder is sound. Every call keeps it.
    ghost is_sound: { Self → Spec → Type 0 };

    /// Takes a stripe above all that are held, of those that there are to lend. `Held` comes only where the count of refused takes rose in
    /// this call, and is then the last refused take's; of a sound holder the count rises with no other answer.
    /// After a refusal or where memory is wanted nothing is taken.
    fn take(&mut self, stripe: u32, mode: Mode) -> Result<(), TakeStop>
        requires known { stripe < length (seen self.old).offered }
        requires lent { MayTake (seen self.old).lends stripe mode }
        requires above { IsAbove (held_of (seen self.old)) stripe }
        ensures ok { OnOk result (HasTaken (seen self.old) (seen self.new) stripe mode) }
        ensures err { OnErr result (HasTakenNothing (seen self.old) (seen self.new)) }
        ensures refused { (h : Held) → result ≡ Err (stop.Held h) → HasRefused (seen self.old) (seen self.new) stripe mode h }
        ensures counted { (spec : Spec) → is_sound self.old spec → CountsOnlyHeld result (seen self.old) (seen self.new) }
        ensures sound { (spec : Spec) → is_sound self.old spec → is_sound self.new spec };

    /// Makes room for so many changes of a stripe that is held Exclusive; it may be called again. Where
    /// memory is wanted nothing changes.
    fn own(&mut self, stripe: u32, changes: u16) -> Result<(), Memory>
        requires { IsHeldExclusive (held_of (seen self.old)) stripe }
        ensures ok { OnOk result (seen self.new ≡ with_room_at stripe changes (seen self.old)) }
        ensures err { OnErr result (seen self.new ≡ seen self.old) }
        ensures sound { (spec : Spec) → is_sound self.old spec → is_sound self.new spec };

    /// The fragment of a held stripe.
    fn fragment(&self, stripe: u32) -> &Fragment
        requires { IsHeld (held_of (seen self.now)) stripe }
        ensures { IsLent (seen self.now) stripe result.now };

    /// Does on the stripe's fragment what `Fragment::add_tuple` does. Where memory is wanted some of the tuple's rows may
    /// have been added.
    fn add_tuple(&mut self, stripe: u32, class: u8, tuple: &Tuple) -> Result<(), Memory>
        requires exclusive { IsHeldExclusive (held_of (seen self.old)) stripe }
        requires owned { HasRoomFor (seen self.old) stripe class }
        requires can { CanRaise (seen self.old) stripe class tuple.now }
        ensures ok { OnOk result (seen self.new ≡ with_tuple_at stripe class tuple.now (seen self.old)) }
        ensures err { OnErr result (IsPartlyAddedAt stripe class tuple.now (seen self.old) (seen self.new)) }
        ensures sound { (spec : Spec) → is_sound self.old spec → is_sound self.new spec };

    /// Does on the stripe's fragment what `Fragment::add_new_tuple` does. By a look-up beforehand, where a holder doesn't do
    /// so by itself.
    fn add_new_tuple(
        &mut self,
        stripe: u32,
        class: u8,
        edge: u8,
        tuple: &Tuple,
    ) -> Result<(), AddStop>
        requires exclusive { IsHeldExclusive (held_of (seen self.old)) stripe }
        requires known { edge < length (seen self.old).table }
        requires first { IsFirstKept (seen self.old).table class edge }
        requires owned { HasRoomFor (seen self.old) stripe class }
        requires columns { HasColumns (seen self.old).table edge (edge_row (seen self.old).table edge tuple.now) }
        requires can { CanRaiseNew (seen self.old) stripe class edge tuple.now }
        ensures ok { OnOk result (seen self.new ≡ with_tuple_at stripe class tuple.now (seen self.old)) }
        ensures none { OnOk result (HasNoRowAt (seen self.old) stripe edge tuple.now) }
        ensures err { OnErr result (IsPartlyAddedAt stripe class tuple.now (seen self.old) (seen self.new)) }
        ensures there { result ≡ Err add.There → HasRowAt (seen self.old) stripe edge tuple.now × (seen self.new ≡ seen self.old) }
        ensures sound { (spec : Spec) → is_sound self.old spec → is_sound self.new spec }
    {
        let Ok(has) = self.fragment(stripe).has_row_of(edge, tuple) else {
            return Err(AddStop::Memory);
        };
        if has {
            return Err(AddStop::There);
        }
        let Ok(()) = self.add_tuple(stripe, class, tuple) else {
            return Err(AddStop::Memory);
        };
        Ok(())
    }

    /// Does on the stripe's fragment what `Fragment::sub_tuple` does.
    fn sub_tuple(&mut self, stripe: u32, class: u8, tuple: &Tuple)
        requires exclusive { IsHeldExclusive (held_of (seen self.old)) stripe }
        requires owned { HasRoomFor (seen self.old) stripe class }
        requires can { CanLower (seen self.old) stripe class tuple.now }
        ensures value { seen self.new ≡ without_tuple_at stripe class tuple.now (seen self.old) }
        ensures sound { (spec : Spec) → is_sound self.old spec → is_sound self.new spec };

    /// A sound holder has the specification's edge table and number of stripes.
    ghost sound_table: { (h : Self) (spec : Spec) → is_sound h spec → ((seen h).table ≡ edge_table spec) × (length (seen h).offered ≡ stripe_total spec) };

    /// What it holds, as taken, are the fragments of one relation that satisfies the dependencies.
    ghost sound_rows: { (h : Self) (spec : Spec) → is_sound h spec → AreOfOneRelation spec (held_of (seen h)) };
}

/// A holder that can take all changes back.
pub trait Reverts: Holder {
    /// Makes the rows of all held stripes what they were as taken. Takes no memory.
    fn revert(&mut self)
        ensures value { Self.seen self.new ≡ all_reverted (Self.seen self.old) }
        ensures sound { (spec : Spec) → Self.is_sound self.old spec → Self.is_sound self.new spec };
}
