//! An instance: one fragment for each physical stripe.

ghost use Rattle.std.specs.Prelude.{◌≡◌, ◌<◌, ◌≤◌, List, [], IfOk, IsOk, OnOk, length, map, vec_capacity};
ghost use Rattle.rc_tuple.specs.Tuple.{Pairs};
ghost use Rattle.rc_spec.specs.Fragments.{represented_by};
ghost use Rattle.rc_spec.specs.Stripes.{stripe_total};
ghost use Rattle.rc_spec.specs.declared.spec.Spec.{Spec};
ghost use Rattle.rc_fragment.specs.Fragment.{edge_table};
ghost use Rattle.rc_fragment.specs.Holder.{HasTaken, IsAbove, held_of};
ghost use Rattle.rc_fragment.specs.Keep.{KeptRows, kept_rows};
ghost use Rattle.rc_instance.specs.Instance.{AreReleased, HaveOneTable, IsEmpty, IsOfOneRelation, IsOfRelation, held_from, holding, kept_stripe, rows_of, table_of};

use crate::fragments::{empty_fragments, free_held, revert_held, settle_held};
use crate::held_numbers::HeldNumbers;
use crate::represent::joined_rows;
use crate::room::{InstanceRoom, kept_in, with_kept};
use rc_fragment::{CowFragment, Fragment, Holder, Keep, Reverts, TakeStop};
use rc_maps::Seed;
use rc_spec::{Accepted, MAX_STRIPES, Mode};
use rc_tuple::{Memory, Tuple, Tuples};
use std::alloc::Global;
use std::marker::Model;

/// The fragments of all physical stripes, for one plan at a time: every take succeeds. (The instance
/// of a decomposition, PLDI 2011.)
#[derive(Drop, Debug)]
pub struct Instance {
    fragments: Vec<CowFragment>,
    held: [Option<Mode>; MAX_STRIPES],
    numbers: HeldNumbers,
    alloc: Global,
}

impl Model for Instance {
    ghost use Rattle.std.specs.Prelude.{List};
    ghost use Rattle.rc_instance.specs.Instance.{IsWholeInstance, Stripe, stripes_of};

    ghost Value = { List Stripe };

    ghost view = { λ a. stripes_of a.fragments.items a.held };

    ghost invariant = { λ a. IsWholeInstance a.fragments.items a.held a.numbers };
}

impl Instance {
    /// The instance of an accepted specification with no tuple: each stripe is free and has no row.
    /// It is of the empty relation, and so sound for the specification. The seed is that of its hash
    /// tables.
    pub fn empty(alloc: Global, seed: Seed, accepted: &Accepted) -> Result<Instance, Memory>
        ensures stripes { IfOk result (λ instance. length instance ≡ stripe_total accepted.now) }
        ensures table { IfOk result (λ instance. table_of instance ≡ edge_table accepted.now) }
        ensures empty { IfOk result (λ instance. IsEmpty instance) }
        ensures relation { IfOk result (λ instance. IsOfRelation accepted.now instance []) }
    {
        Ok(Instance {
            fragments: empty_fragments(alloc, seed, accepted)?,
            held: [None; MAX_STRIPES],
            numbers: HeldNumbers::none(),
            alloc,
        })
    }

    /// The instance with these fragments, the first of which is that of stripe 0. Each stripe is free. A fragment that
    /// others may have is copied before its first change. Takes no memory: the room has it. Costs the stripes.
    pub fn from_kept(room: InstanceRoom, kept: Vec<Keep>) -> Instance
        requires stripes { length kept.items ≤ room }
        requires table { HaveOneTable kept.items }
        ensures { result ≡ map kept_stripe kept.items }
    {
        let InstanceRoom {
            fragments,
            stripes: _,
            alloc,
        } = room;
        Instance {
            fragments: with_kept(fragments, kept),
            held: [None; MAX_STRIPES],
            numbers: HeldNumbers::none(),
            alloc,
        }
    }

    /// The fragments as slots keep them, the first that of stripe 0, in room for them. No stripe is held. Takes no memory.
    /// Costs the stripes. It undoes `from_kept`.
    pub fn into_kept(self, room: Vec<Keep>) -> Vec<Keep>
        requires free { held_from 0 self ≡ [] }
        requires room { (room.items ≡ []) × (length self ≤ vec_capacity room) }
        ensures kept { result.items ≡ map (λ s. kept_rows s.fragment) self }
        ensures inverse { (kept : List KeptRows) → self ≡ map kept_stripe kept → result.items ≡ kept }
    {
        let Instance {
            fragments,
            held: _,
            numbers: _,
            alloc: _,
        } = self;
        kept_in(fragments, room)
    }

    /// Frees all stripes and makes their rows now count as taken. Takes no memory. Costs the held
    /// stripes and their changes.
    pub fn release_all(&mut self)
        ensures { AreReleased self.old self.new }
    {
        settle_held(&mut self.fragments, self.numbers.list());
        free_held(&mut self.held, self.numbers.list());
        self.numbers.clear();
    }

    /// The tuples that the instance represents, rising: the join of the rows now of all edges. Where no
    /// stripe is held and the instance is of a relation, they are that relation. Costs all rows, for each
    /// edge a hash of them and of the tuples joined so far. (The natural join of a decomposition's
    /// contents, PLDI 2011.) The seed is that of the hash tables by which they are joined.
    pub fn represents(
        &self,
        alloc: Global,
        seed: Seed,
        accepted: &Accepted,
    ) -> Result<Tuples, Memory>
        requires { table_of self.now ≡ edge_table accepted.now }
        ensures rows { IfOk result (λ tuples. tuples ≡ represented_by accepted.now (rows_of self.now)) }
        ensures relation { IfOk result (λ tuples. (r : List Pairs) → held_from 0 self.now ≡ [] → IsOfRelation accepted.now self.now r → tuples ≡ r) }
    {
        joined_rows(alloc, seed, &self.fragments, accepted.spec())
    }
}

impl Holder for Instance {
    ghost use Rattle.rc_instance.specs.Instance.{holding};

    ghost seen = { holding };

    ghost is_sound = { IsOfOneRelation };

    ghost use Rattle.rc_instance.specs.InstanceLaws.{sound_rows, sound_table};

    ghost sound_table = { sound_table };

    ghost sound_rows = { sound_rows };

    /// Takes the stripe. It always succeeds.
    fn take(&mut self, stripe: u32, mode: Mode) -> Result<(), TakeStop>
        requires known { stripe < length (holding self.old).offered }
        requires above { IsAbove (held_of (holding self.old)) stripe }
        ensures always { IsOk result }
        ensures ok { OnOk result (HasTaken (holding self.old) (holding self.new) stripe mode) }
        ensures sound { (spec : Spec) → IsOfOneRelation self.old spec → IsOfOneRelation self.new spec }
    {
        self.held[stripe as usize] = Some(mode);
        self.numbers.push(stripe);
        Ok(())
    }

    fn own(&mut self, stripe: u32, changes: u16) -> Result<(), Memory> {
        let fragment = &mut self.fragments[stripe as usize];
        fragment.own(self.alloc, changes)
    }

    fn fragment(&self, stripe: u32) -> &Fragment {
        self.fragments[stripe as usize].fragment()
    }

    fn add_tuple(&mut self, stripe: u32, class: u8, tuple: &Tuple) -> Result<(), Memory> {
        let fragment = &mut self.fragments[stripe as usize];
        fragment.add_tuple(class, tuple)
    }

    fn sub_tuple(&mut self, stripe: u32, class: u8, tuple: &Tuple) {
        let fragment = &mut self.fragments[stripe as usize];
        fragment.sub_tuple(class, tuple);
    }
}

impl Reverts for Instance {
    fn revert(&mut self) {
        revert_held(&mut self.fragments, self.numbers.list());
    }
}
