//! What a thread steps with.

ghost use Rattle.std.specs.Prelude.{◌≡◌, OnErr, OnOk, length, option_copied};
ghost use Rattle.rc_row.specs.Passes.{HasSpare, core_of, holds_taken};
ghost use Rattle.rc_row.specs.Passes.{AreEntriesOf, HasReserved};

use crate::held::HeldFragment;
use crate::law::View;
use crate::slot::Slot;
use atomic_table::Seat;
use rc_journal::Part;
use rc_machine::Workspace;
use rc_rel::Placed;
use rc_tuple::Memory;
use std::alloc::Global;
use std::marker::Model;

/// What a thread locks, commits and unlocks with (PLDI 2012, a transaction's thread). One thread has it at a time.
///
/// Contracts see its row, what the core has of it with its refused steps, the fragments of all that it holds as they
/// are, and the entries that it keeps. A pass that is dropped keeps its stripes: they stay taken, and the row can't be
/// closed any more.
#[derive(Drop)]
pub struct Pass {
    pub(crate) number: u32,
    pub(crate) seen: u64,
    pub(crate) made: u64,
    pub(crate) held: Vec<HeldFragment>,
    pub(crate) entries: Option<Part>,
    pub(crate) space: Option<Box<Workspace>>,
    pub(crate) alloc: Global,
    pub(crate) seat: Seat<Slot, View>,
}

impl Model for Pass {
    ghost use Rattle.rc_row.specs.Passes.{PassSeen};

    ghost Value = { PassSeen };

    ghost use Rattle.rc_row.specs.PassInside.{IsWholePass, pass_seen};

    ghost view = { pass_seen };

    ghost invariant = { IsWholePass };
}

impl Pass {
    /// Hands out the space with which the pass runs plans, whose memory the next run uses again; `put_space` gives it back.
    /// Takes memory only where the pass has none: the first time, and while its space is handed out.
    // Each call takes it: in its caller's place that is a move.
    #[inline(always)]
    pub fn take_space(&mut self) -> Result<Box<Workspace>, Memory>
        ensures { self.new ≡ self.old }
    {
        match self.space.take() {
            Some(space) => Ok(space),
            None => new_space(self.alloc),
        }
    }

    /// Takes back the space that `take_space` handed out.
    pub fn put_space(&mut self, space: Box<Workspace>)
        ensures { self.new ≡ self.old }
    {
        self.space = Some(space);
    }

    /// Its number in the row, from 0.
    pub fn number(&self) -> u32
        ensures { result ≡ (core_of self.now).number }
    {
        self.number
    }

    /// The length of the history that it has seen: it is above the place of each of its entries.
    pub fn seen(&self) -> u64
        ensures { result ≡ (core_of self.now).seen }
    {
        self.seen
    }

    /// How many entries it has committed.
    pub fn made(&self) -> u64
        ensures { result ≡ length (core_of self.now).own }
    {
        self.made
    }

    /// Its own entries with their places, in the order in which it committed them; `None` exactly where it keeps none.
    pub fn entries(&self) -> Option<&[Placed]>
        ensures { AreEntriesOf self.now (option_copied result) }
    {
        match &self.entries {
            Some(part) => Some(part.list()),
            None => None,
        }
    }

    /// A law, in the form of a call that does nothing: the rows of what is held, as taken, are those that the core has
    /// of the pass.
    pub fn held_agrees(&self)
        ensures { holds_taken self.now.held ≡ (core_of self.now).held }
    {
        let _ = &self.number;
    }

    /// Makes room for one more entry, where entries are kept. The cost is shared by the commits that follow.
    pub fn reserve(&mut self) -> Result<(), Memory>
        ensures same { HasReserved self.old self.new }
        ensures ok { OnOk result (HasSpare self.new.kept) }
        ensures err { OnErr result (self.new ≡ self.old) }
    {
        match &mut self.entries {
            Some(part) => part.reserve(),
            None => Ok(()),
        }
    }
}

/// A space in a block of its own.
// The first call of a pass alone makes one.
#[inline(never)]
fn new_space(alloc: Global) -> Result<Box<Workspace>, Memory> {
    Ok(Box::new(alloc, Workspace::new(alloc))?)
}

/// What a pass had seen, to be learned by another pass of its row.
#[derive(Drop)]
pub struct Note {
    pub(crate) told: u64,
    pub(crate) seat: Seat<Slot, View>,
}

impl Model for Note {
    ghost use Rattle.rc_row.specs.Passes.{NoteSeen};

    ghost Value = { NoteSeen };

    ghost use Rattle.rc_row.specs.NoteInside.{IsWholeNote, note_seen};

    ghost view = { note_seen };

    ghost invariant = { IsWholeNote };
}

impl Note {
    /// The length of the history that it tells.
    pub fn told(&self) -> u64
        ensures { result ≡ self.now.told }
    {
        self.told
    }
}
