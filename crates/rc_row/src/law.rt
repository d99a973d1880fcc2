//! The rule of the table that a row is: at every moment words, slots and views show a run of the core.

use crate::history::History;
use crate::slot::Slot;
use atomic_table::TableRule;
use rc_core::{Hold, PassState};
use rc_maps::Seed;
use rc_plan::Compiled;
use rc_rel::Entry;
use rc_spec::{Found, Mode};
use rc_tuple::SmallList;
use std::snapshot::Snapshot;

/// What the table is told when it is made, and contracts see ever after.
#[derive(Drop)]
pub struct Key {
    /// The specification with its plans.
    pub compiled: Snapshot<Compiled>,
    /// How many passes there are, from 1 to 255.
    pub passes: u32,
    /// The seed of its hash tables.
    pub seed: Seed,
    /// The history from which the row goes on: none, or that of a row that was closed.
    pub history: Snapshot<History>,
}

/// A step at which a pass found a stripe taken. Contracts alone have it.
pub struct Refusal {
    /// The number of the stripe, over all classes.
    pub stripe: u32,
    /// How the pass asked for it.
    pub mode: Mode,
    /// What the step found.
    pub found: Found,
    /// What the pass held then.
    pub held: SmallList<Hold>,
}

/// All that a view has of one pass. Contracts alone have it.
pub struct Standing {
    /// What the core's state has of it.
    pub core: PassState,
    /// How many of its steps were refused, without a limit.
    pub refusals: u64,
    /// The last of them.
    pub last_refusal: Option<Refusal>,
    /// The histories that it was told of, in order: each is a beginning of the history as it grows.
    pub known: SmallList<SmallList<Entry>>,
}

/// What a seat of the table knows. Contracts alone have it: no value of it is made.
///
/// The seat of a pass has that pass, and while it copies a pointer a latch. The seat of a note has no pass. The
/// first seat has all passes before they are dealt, and the last one at the end.
pub struct View {
    /// The passes, by rising numbers.
    pub passes: SmallList<Standing>,
    /// The stripe whose latch the pass has.
    pub latch: Option<u32>,
    /// The stripe that the pass has just come to share, and has no pointer of yet.
    pub entering: Option<u32>,
    /// The length of the history that a note tells.
    pub told: u64,
    /// The histories that the note's pass was told of.
    pub known: SmallList<SmallList<Entry>>,
}

/// The rule: there is a run of the core, of the key's specification and from its history, after which words, slots and views show its state, and
/// whose refused steps are those that the views count.
pub struct Law;

impl TableRule<Slot, View, Key> for Law {
    ghost use Rattle.rc_row.specs.Law.{IsKept, opener};

    ghost holds = { IsKept };

    ghost first = { opener };
}
