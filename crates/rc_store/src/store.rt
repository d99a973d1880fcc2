//! The store.

ghost use Rattle.std.specs.Prelude.{◌≡◌, ◌≤◌, ◌^◌, [], IfOk};
ghost use Rattle.rc_row.specs.Law.{history_by};
ghost use Rattle.rc_row.specs.Passes.{HasLookedAt, IsPassOf, compiled_of, new_passes, note_of, with_note};

use crate::wakes::Wakes;
use rc_maps::Seed;
use rc_plan::Compiled;
use rc_row::{Keeping, Note, Pass, Row};
use rc_tuple::Memory;
use std::alloc::Global;
use std::marker::Model;

/// A relation that several threads share (PLDI 2012, concurrent relations): a row of lock stripes with the fragments, the
/// specification with its plans, how many entries each pass may make, and who wakes those that wait.
#[derive(Drop)]
pub struct Store<W> {
    pub(crate) row: Row,
    pub(crate) compiled: Compiled,
    pub(crate) limit: u64,
    pub(crate) alloc: Global,
    pub(crate) wakes: W,
}

impl<W> Model for Store<W> {
    ghost use Rattle.rc_store.specs.Store.{StoreSeen};

    ghost Value = { StoreSeen };

    ghost use Rattle.rc_store.specs.StoreInside.{IsWholeStore, store_seen};

    ghost view = { store_seen };

    ghost invariant = { IsWholeStore };
}

impl<W: Wakes> Store<W> {
    /// Makes a store with no tuple, and its passes by number, 1 to 255 of them, each of which may make so many entries and
    /// keeps of them what is said. The seed is that of its hash tables: where who chooses the values isn't trusted, one that
    /// was drawn at random. Only want of memory refuses it. Costs the stripes and, for each pass, room for a fragment of each
    /// stripe.
    pub fn build(
        alloc: Global,
        seed: Seed,
        compiled: Compiled,
        passes: u32,
        limit: u64,
        keeping: Keeping,
        wakes: W,
    ) -> Result<(Store<W>, Vec<Pass>), Memory>
        requires passes { (1 ≤ passes) × (passes ≤ 255) }
        requires limit { limit ≤ 2 ^ 48 }
        ensures compiled { IfOk result (λ r. compiled_of r.0.row ≡ compiled) }
        ensures limit { IfOk result (λ r. r.0.limit ≡ limit) }
        ensures row { IfOk result (λ r. (r.0.row.key.passes ≡ passes) × (r.0.row.keeping ≡ keeping)) }
        ensures seed { IfOk result (λ r. r.0.row.key.seed ≡ seed) }
        ensures history { IfOk result (λ r. history_by r.0.row.key ≡ []) }
        ensures passes { IfOk result (λ r. r.1.items ≡ new_passes r.0.row) }
    {
        let (row, dealt) = Row::build(alloc, seed, &compiled, passes, keeping)?;
        let store = Store {
            row,
            compiled,
            limit,
            alloc,
            wakes,
        };
        Ok((store, dealt))
    }

    /// The specification with its plans.
    pub fn compiled(&self) -> &Compiled
        ensures { result.now ≡ compiled_of self.now.row }
    {
        &self.compiled
    }

    /// Notes what the pass has seen of the history and was told of it, for another pass to learn. Takes no memory.
    pub fn note(&self, pass: &mut Pass) -> Note
        requires { IsPassOf self.now.row pass.old }
        ensures same { pass.new ≡ pass.old }
        ensures note { result ≡ note_of pass.old }
        ensures table { result.table ≡ self.now.row.table }
    {
        self.row.note(pass)
    }

    /// The pass has seen what the note's pass had seen, and what it had seen itself; and it was told of all that either was
    /// told of, so that its next receipt goes on from it.
    pub fn learn(&self, pass: &mut Pass, note: Note)
        requires pass { IsPassOf self.now.row pass.old }
        requires note { note.table ≡ self.now.row.table }
        ensures pass { IsPassOf self.now.row pass.new }
        ensures value { pass.new ≡ with_note note pass.old }
    {
        self.row.learn(pass, note);
    }

    /// Looks how long the history is, and answers it. There was a good history of just this length, which has all that the
    /// pass made and goes on from all that it was told of; the pass was told of it, and has seen so much. Takes no memory.
    pub fn look(&self, pass: &mut Pass) -> u64
        requires { IsPassOf self.now.row pass.old }
        ensures pass { IsPassOf self.now.row pass.new }
        ensures looked { HasLookedAt self.now.row pass.old pass.new result }
    {
        self.row.look(pass)
    }
}
