//! The fragments that a pass holds, and changes in place.

ghost use Rattle.std.specs.Prelude.{◌≡◌, Err, OnErr, OnOk};
ghost use Rattle.std.specs.Ordering.{nat_cmp};
ghost use Rattle.rc_tuple.specs.RisingSet.{In, IsRising};
ghost use Rattle.rc_core.specs.State.{stripes_in, writes_of};
ghost use Rattle.rc_fragment.specs.FragmentRows.{rolled_back, with_promise};
ghost use Rattle.rc_fragment.specs.Tuples.{with_tuple, without_tuple};
ghost use Rattle.rc_fragment.specs.declared.held.AddStop.TheVariants as stop;
ghost use Rattle.rc_row.specs.Passes.{ArePartlyAddedOn, CanAddNewTo, CanAddTo, CanSubFrom, HasNoRowIn, HasRowIn, IsPartlyAddedOn, OfHeld, all_with, core_of, held_with, holds_taken, reverted, with_held};

use crate::hands::place_of;
use crate::held::HeldFragment;
use crate::pass::Pass;
use rc_fragment::{AddStop, Fragment};
use rc_tuple::{Memory, Tuple};
use std::alloc::Global;

impl Pass {
    /// The fragment of a held stripe, for reading.
    pub fn fragment(&self, stripe: u32) -> &Fragment
        requires { In stripe (stripes_in (core_of self.now).held) }
        ensures { OfHeld self.now.held stripe (λ f. result.now ≡ f) }
    {
        let at = place_of(&self.held, stripe);
        self.held[at].fragment.fragment()
    }

    /// Makes room for so many changes of a stripe that the pass writes; it may be called again. Takes memory for the notes
    /// of the changes, and for a copy where another pass still has the fragment. By the order of steps that doesn't happen,
    /// since a lock drops the pointers that readers have kept; no contract sees it. Where memory is wanted nothing changes.
    pub fn own(&mut self, stripe: u32, changes: u16) -> Result<(), Memory>
        requires { In stripe (writes_of (core_of self.old)) }
        ensures ok { OnOk result (self.new ≡ with_held stripe (with_promise changes) self.old) }
        ensures err { OnErr result (self.new ≡ self.old) }
    {
        own_at(self.alloc, &mut self.held, stripe, changes)
    }

    /// Does on the fragment of a stripe that the pass writes what `Fragment::add_tuple` does. Where memory is wanted some of
    /// the tuple's rows may have been added.
    pub fn add_tuple(&mut self, stripe: u32, class: u8, tuple: &Tuple) -> Result<(), Memory>
        requires held { In stripe (writes_of (core_of self.old)) }
        requires can { OfHeld self.old.held stripe (CanAddTo class tuple.now) }
        ensures ok { OnOk result (self.new ≡ with_held stripe (with_tuple class tuple.now) self.old) }
        ensures err { OnErr result (IsPartlyAddedOn stripe class tuple.now self.old self.new) }
    {
        add_tuple_at(&mut self.held, stripe, class, tuple)
    }

    /// Does on the fragment of a stripe that the pass writes what `Fragment::add_new_tuple` does.
    pub fn add_new_tuple(
        &mut self,
        stripe: u32,
        class: u8,
        edge: u8,
        tuple: &Tuple,
    ) -> Result<(), AddStop>
        requires held { In stripe (writes_of (core_of self.old)) }
        requires can { OfHeld self.old.held stripe (CanAddNewTo class edge tuple.now) }
        ensures ok { OnOk result (self.new ≡ with_held stripe (with_tuple class tuple.now) self.old) }
        ensures none { OnOk result (OfHeld self.old.held stripe (HasNoRowIn edge tuple.now)) }
        ensures err { OnErr result (IsPartlyAddedOn stripe class tuple.now self.old self.new) }
        ensures there { result ≡ Err stop.There → OfHeld self.old.held stripe (HasRowIn edge tuple.now) × (self.new ≡ self.old) }
    {
        add_new_tuple_at(&mut self.held, stripe, class, edge, tuple)
    }

    /// Does on the fragment of a stripe that the pass writes what `Fragment::sub_tuple` does.
    pub fn sub_tuple(&mut self, stripe: u32, class: u8, tuple: &Tuple)
        requires held { In stripe (writes_of (core_of self.old)) }
        requires can { OfHeld self.old.held stripe (CanSubFrom class tuple.now) }
        ensures { self.new ≡ with_held stripe (without_tuple class tuple.now) self.old }
    {
        sub_tuple_at(&mut self.held, stripe, class, tuple);
    }

    /// Makes the rows of a held stripe what they were as taken. Takes no memory, and costs the changes.
    pub(crate) fn revert_stripe(&mut self, stripe: u32)
        requires held { In stripe (stripes_in (core_of self.old).held) }
        ensures { self.new ≡ with_held stripe rolled_back self.old }
    {
        revert_at(&mut self.held, stripe);
    }

    /// Takes back all changes that aren't committed. Takes no memory, and costs the changes.
    pub fn revert(&mut self)
        ensures { self.new ≡ reverted self.old }
    {
        revert_all(&mut self.held);
    }
}

/// Makes room for changes of a held stripe.
fn own_at(
    alloc: Global,
    held: &mut Vec<HeldFragment>,
    stripe: u32,
    changes: u16,
) -> Result<(), Memory>
    requires held { In stripe (stripes_in (holds_taken held.old.items)) }
    requires rising { IsRising nat_cmp (stripes_in (holds_taken held.old.items)) }
    ensures ok { OnOk result (held.new.items ≡ held_with stripe (with_promise changes) held.old.items) }
    ensures err { OnErr result (held.new.items ≡ held.old.items) }
    ensures room { held.new.cap ≡ held.old.cap }
{
    let at = place_of(held, stripe);
    held[at].fragment.own(alloc, changes)
}

/// Adds a tuple's rows of a class to the fragment of a held stripe.
fn add_tuple_at(
    held: &mut Vec<HeldFragment>,
    stripe: u32,
    class: u8,
    tuple: &Tuple,
) -> Result<(), Memory>
    requires held { In stripe (stripes_in (holds_taken held.old.items)) }
    requires rising { IsRising nat_cmp (stripes_in (holds_taken held.old.items)) }
    requires can { OfHeld held.old.items stripe (CanAddTo class tuple.now) }
    ensures ok { OnOk result (held.new.items ≡ held_with stripe (with_tuple class tuple.now) held.old.items) }
    ensures err { OnErr result (ArePartlyAddedOn stripe class tuple.now held.old.items held.new.items) }
    ensures room { held.new.cap ≡ held.old.cap }
{
    let at = place_of(held, stripe);
    held[at].fragment.add_tuple(class, tuple)
}

/// Adds a tuple's rows of a class to the fragment of a held stripe, where the edge has none with its source and key.
fn add_new_tuple_at(
    held: &mut Vec<HeldFragment>,
    stripe: u32,
    class: u8,
    edge: u8,
    tuple: &Tuple,
) -> Result<(), AddStop>
    requires held { In stripe (stripes_in (holds_taken held.old.items)) }
    requires rising { IsRising nat_cmp (stripes_in (holds_taken held.old.items)) }
    requires can { OfHeld held.old.items stripe (CanAddNewTo class edge tuple.now) }
    ensures ok { OnOk result (held.new.items ≡ held_with stripe (with_tuple class tuple.now) held.old.items) }
    ensures none { OnOk result (OfHeld held.old.items stripe (HasNoRowIn edge tuple.now)) }
    ensures err { OnErr result (ArePartlyAddedOn stripe class tuple.now held.old.items held.new.items) }
    ensures there { result ≡ Err stop.There → OfHeld held.old.items stripe (HasRowIn edge tuple.now) × (held.new.items ≡ held.old.items) }
    ensures room { held.new.cap ≡ held.old.cap }
{
    let at = place_of(held, stripe);
    held[at].fragment.add_new_tuple(class, edge, tuple)
}

/// Takes a tuple's rows of a class out of the fragment of a held stripe.
fn sub_tuple_at(held: &mut Vec<HeldFragment>, stripe: u32, class: u8, tuple: &Tuple)
    requires held { In stripe (stripes_in (holds_taken held.old.items)) }
    requires rising { IsRising nat_cmp (stripes_in (holds_taken held.old.items)) }
    requires can { OfHeld held.old.items stripe (CanSubFrom class tuple.now) }
    ensures items { held.new.items ≡ held_with stripe (without_tuple class tuple.now) held.old.items }
    ensures room { held.new.cap ≡ held.old.cap }
{
    let at = place_of(held, stripe);
    held[at].fragment.sub_tuple(class, tuple);
}

/// Makes the rows of a held stripe what they were as taken.
fn revert_at(held: &mut Vec<HeldFragment>, stripe: u32)
    requires held { In stripe (stripes_in (holds_taken held.old.items)) }
    requires rising { IsRising nat_cmp (stripes_in (holds_taken held.old.items)) }
    ensures items { held.new.items ≡ held_with stripe rolled_back held.old.items }
    ensures room { held.new.cap ≡ held.old.cap }
{
    let at = place_of(held, stripe);
    held[at].fragment.revert();
}

/// Makes the rows of all that is held what they were as taken.
fn revert_all(held: &mut Vec<HeldFragment>)
    ensures items { held.new.items ≡ all_with rolled_back held.old.items }
    ensures room { held.new.cap ≡ held.old.cap }
{
    for i in 0..held.len() {
        held[i].fragment.revert();
    }
}
