ghost use Rattle.std.specs.Prelude.{◌≡◌, ◌<◌, ◌≤◌, List, IfOk, OnErr, length, slice_set};
ghost use Rattle.rc_tuple.specs.RisingSet.{In};
ghost use Rattle.rc_journal.specs.Merge.{AreNumbersBelow, ArePartsOf, IsMerged, places_of, with_all};

use crate::Part;
use rc_rel::{Entry, Placed, Steps};
use rc_tuple::Memory;
use std::alloc::Global;
use std::marker::Model;

/// The memory of a journal, taken before the merge. Contracts see it as the number of entries for
/// which it is.
#[derive(Drop, Debug)]
pub struct Room {
    blanks: Vec<Entry>,
}

impl Model for Room {
    ghost use Rattle.std.specs.Prelude.{ℕ, length};

    ghost Value = { ℕ };

    ghost view = { λ a. length a.blanks.items };
}

impl Room {
    /// The room of a journal of that many entries. It costs time and memory for each, and no memory
    /// for none.
    pub fn for_entries(alloc: Global, entries: u64) -> Result<Room, Memory>
        ensures room { IfOk result (λ room. room ≡ entries) }
        ensures err { OnErr result (1 ≤ entries) }
    {
        let count = entries as usize;
        let mut blanks = Vec::with_capacity(alloc, count)?;
        blanks.resize_with(count, || blank(alloc))?;
        Ok(Room { blanks })
    }
}

/// An entry without steps, which takes no memory.
fn blank(alloc: Global) -> Entry {
    Entry {
        pass: 0,
        nth: 0,
        steps: Steps::new(alloc),
    }
}

/// The entries of all passes in the order of their places: the history of a store. Contracts see
/// it as the list of its entries.
#[derive(Drop, Debug)]
pub struct Journal {
    entries: Vec<Entry>,
}

impl Model for Journal {
    ghost use Rattle.std.specs.Prelude.{List};
    ghost use Rattle.rc_rel.specs.declared.entry.Entry.{Entry};

    ghost Value = { List Entry };

    ghost view = { λ a. a.entries.items };
}

impl Journal {
    /// The entries, moved out.
    pub(crate) fn into_entries(self) -> Vec<Entry>
        ensures { result.items ≡ self }
    {
        let Journal { entries } = self;
        entries
    }

    /// The entries, each at its place.
    pub fn entries(&self) -> &[Entry]
        ensures { result.now ≡ self.now }
    {
        &self.entries
    }
}

/// Moves the entries of all parts into the room, each to its place. It takes no memory, and time
/// for each entry. Where the parts are the own entries of the passes 0, 1, 2 and so on of a
/// history, the journal is that history.
pub fn merge(room: Room, parts: Vec<Part>) -> Journal
    requires places { AreNumbersBelow room (places_of parts.items) }
    ensures length { length result ≡ room }
    ensures merged { IsMerged parts.items result }
    ensures history { (history : List Entry) → ArePartsOf parts.items history → result ≡ history }
{
    let mut entries = room.blanks;
    for part in parts {
        put_part(&mut entries, part.into_placed());
    }
    Journal { entries }
}

/// Moves the entries of a part to their places.
fn put_part(entries: &mut [Entry], part: Vec<Placed>)
    requires { (placed : Placed) → In placed part.items → placed.place < length entries.old }
    ensures { entries.new ≡ with_all entries.old part.items }
{
    for placed in part {
        put_entry(entries, placed);
    }
}

/// Moves an entry to its place.
fn put_entry(entries: &mut [Entry], placed: Placed)
    requires { placed.place < length entries.old }
    ensures { entries.new ≡ slice_set entries.old placed.place placed.entry }
{
    let Placed { place, entry } = placed;
    entries[place as usize] = entry;
}
