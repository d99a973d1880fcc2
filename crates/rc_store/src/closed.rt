//! What a closed store leaves.

ghost use Rattle.std.specs.Prelude.{◌≡◌, List, IfOk, option_copied};
ghost use Rattle.rc_tuple.specs.Tuple.{Pairs};
ghost use Rattle.rc_instance.specs.Instance.{IsOfRelation};
ghost use Rattle.rc_store.specs.Closed.{HasOneHistory};

use rc_instance::Instance;
use rc_journal::Journal;
use rc_maps::Seed;
use rc_plan::Compiled;
use rc_row::History;
use rc_tuple::{Memory, Tuples};
use std::alloc::Global;
use std::marker::Model;

/// What a store leaves that was closed: the relation with its history. `Store::close` alone makes it, and a `Store::resume` that
/// wants memory hands it back.
///
/// Its entries, where they were kept, are one legal history (PLDI 2012, serializable transactions), its fragments those of the
/// relation that the history leaves.
#[derive(Drop)]
pub struct Closed {
    pub(crate) compiled: Compiled,
    pub(crate) instance: Instance,
    pub(crate) journal: Option<Journal>,
    pub(crate) made: Vec<u64>,
    pub(crate) history: History,
}

impl Model for Closed {
    ghost use Rattle.rc_store.specs.Closed.{ClosedSeen};

    ghost Value = { ClosedSeen };

    ghost use Rattle.rc_store.specs.ClosedInside.{IsWholeClosed, closed_seen};

    ghost view = { closed_seen };

    ghost invariant = { IsWholeClosed };
}

impl Closed {
    /// The specification with its plans.
    pub fn compiled(&self) -> &Compiled
        ensures { result.now ≡ self.now.compiled }
    {
        &self.compiled
    }

    /// The fragments of all stripes, none of which is held.
    pub fn instance(&self) -> &Instance
        ensures { result.now ≡ self.now.instance }
    {
        &self.instance
    }

    /// The entries of all passes by place; `None` exactly where the store's passes kept none.
    pub fn journal(&self) -> Option<&Journal>
        ensures { option_copied result ≡ self.now.journal }
    {
        self.journal.as_ref()
    }

    /// How many entries each pass committed, by its number.
    pub fn made(&self) -> &[u64]
        ensures { result.now ≡ self.now.made }
    {
        &self.made
    }

    /// The rows of the relation that the history leaves, rising. Costs as much as the fragments have rows, and for each edge a
    /// hash of them, with this seed.
    pub fn rows(&self, alloc: Global, seed: Seed) -> Result<Tuples, Memory>
        ensures { IfOk result (λ rows. (r : List Pairs)
            → IsOfRelation self.now.compiled.spec self.now.instance r → rows ≡ r) }
    {
        self.has_one_history();
        self.instance
            .represents(alloc, seed, self.compiled.accepted())
    }

    /// A law, in the form of a call that does nothing: there is a legal history of which these are the entries, where they
    /// were kept, and which leaves this relation.
    pub fn has_one_history(&self)
        ensures { HasOneHistory self.now }
    {
        let _ = &self.made;
    }
}
