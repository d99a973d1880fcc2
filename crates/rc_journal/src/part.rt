ghost use Rattle.std.specs.Prelude.{◌≡◌, ◌<◌, ◌≤◌, ◌-◌, [], ◌∷◌, ◌++◌, IfOk, OnErr, OnOk};

use rc_rel::Placed;
use rc_tuple::Memory;
use std::alloc::Global;
use std::marker::Model;

/// The entries that one pass keeps, with their places in the history, in the order in which they
/// were pushed, and a spare: how many more there is room for. Contracts see both.
#[derive(Drop, Debug)]
pub struct Part {
    placed: Vec<Placed>,
}

impl Model for Part {
    ghost use Rattle.std.specs.Prelude.{◌-◌, vec_capacity, vec_len};
    ghost use Rattle.rc_journal.specs.PartEntries.{PartEntries};

    ghost Value = { PartEntries };

    ghost view = { λ a. record { list = a.placed.items; spare = vec_capacity a.placed - vec_len a.placed } };
}

impl Part {
    /// The part without entries and without room, which takes no memory.
    pub fn empty(alloc: Global) -> Part
        ensures { result ≡ record { list = []; spare = 0 } }
    {
        Part {
            placed: Vec::new(alloc),
        }
    }

    /// The part without entries and with room for so many.
    pub fn with_room(alloc: Global, entries: u64) -> Result<Part, Memory>
        ensures { IfOk result (λ part. (part.list ≡ []) × (entries ≤ part.spare)) }
    {
        Ok(Part {
            placed: Vec::with_capacity(alloc, entries as usize)?,
        })
    }

    /// Makes room for one more entry where there is none. The entries stay, and where memory is
    /// wanted the spare stays too. The cost is shared by the pushes that follow: constant for each.
    pub fn reserve(&mut self) -> Result<(), Memory>
        ensures list { self.new.list ≡ self.old.list }
        ensures room { OnOk result (1 ≤ self.new.spare) }
        ensures spare { self.old.spare ≤ self.new.spare }
        ensures err { OnErr result (self.new ≡ self.old) }
        ensures full { OnErr result (self.old.spare ≡ 0) }
    {
        self.placed.reserve(1)?;
        Ok(())
    }

    /// Adds an entry at the end, in room that was made before. Takes no memory.
    pub fn push(&mut self, placed: Placed)
        requires room { 1 ≤ self.old.spare }
        ensures { self.new ≡ record { list = self.old.list ++ placed ∷ []; spare = self.old.spare - 1 } }
    {
        self.placed.push_reserved(placed);
    }

    /// The entries with their places, in the order in which they were pushed.
    pub fn list(&self) -> &[Placed]
        ensures { result.now ≡ self.now.list }
    {
        &self.placed
    }

    /// The entries with their places, moved out.
    pub(crate) fn into_placed(self) -> Vec<Placed>
        ensures { result.items ≡ self.list }
    {
        let Part { placed } = self;
        placed
    }
}
