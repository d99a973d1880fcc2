ghost use Rattle.std.specs.Prelude.{◌≡◌, ℕ, ◌<◌, ◌≤◌, Some, length};
ghost use Rattle.std.specs.List.{slice_get};
ghost use Rattle.rc_tuple.specs.RisingSet.{In};
ghost use Rattle.rc_rel.specs.History.{own_placed};
ghost use Rattle.rc_rel.specs.declared.entry.Entry.{Entry};
ghost use Rattle.rc_journal.specs.PartEntries.{PartEntries};
ghost use Rattle.rc_journal.specs.Parting.{HasRoomFor, with_placed};

use crate::journal::Journal;
use crate::part::Part;
use rc_rel::{Entry, Placed};

/// Moves the entries of a journal to the parts of the passes that made them, the first of which is that of pass 0, each with
/// its place. There is room for them. It undoes `merge`, takes no memory, and costs time for each entry.
pub fn part_again(journal: Journal, mut parts: Vec<Part>) -> Vec<Part>
    requires passes { (e : Entry) → In e journal → e.pass < length parts.items }
    requires room { HasRoomFor journal parts.items }
    ensures count { length result.items ≡ length parts.items }
    ensures own { (pass : ℕ) (part : PartEntries) → slice_get result.items pass ≡ Some part → part.list ≡ own_placed journal pass }
{
    let mut place = 0;
    for entry in journal.into_entries() {
        put_own(&mut parts, place, entry);
        place += 1;
    }
    parts
}

/// Adds the entry with its place to the part of its pass.
fn put_own(parts: &mut [Part], place: u64, entry: Entry)
    requires there { entry.pass < length parts.old }
    requires room { (part : PartEntries) → slice_get parts.old entry.pass ≡ Some part → 1 ≤ part.spare }
    ensures { parts.new ≡ with_placed place entry parts.old }
{
    parts[entry.pass as usize].push(Placed { place, entry });
}
