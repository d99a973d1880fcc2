//! Changes of the rows of all edges at one noted place, and at all of them.

ghost use Rattle.std.specs.Prelude.{◌≡◌, ◌+◌, ◌<◌, ◌^◌, None, Some, IsSome, IfOk, length, OnOk, OnErr};
ghost use Rattle.std.specs.List.{slice_get};
ghost use Rattle.rc_edges.specs.EdgeMap.{count_of, one_less};
ghost use Rattle.rc_fragment.specs.Container.{kept_in, now_in};
ghost use Rattle.rc_fragment.specs.Fragment.{AreNoted, AreTombstonesNoted, IsFragment, IsNoted, NoneIsEmptied};
ghost use Rattle.rc_fragment.specs.Listing.{AreStored, found_by, listing, shapes};
ghost use Rattle.rc_fragment.specs.Sources.{IsSingle};
ghost use Rattle.rc_fragment.specs.declared.edge_rows.EdgeRows.{EdgeRows};
ghost use Rattle.rc_fragment.specs.declared.note.Sweep.TheVariants.{RolledBack};
ghost use Rattle.rc_fragment.specs.Notes.{HasRowValues, IsNewPlace, IsWithin, IsRowAt, PlaceBecomes, kept_at_place, key_of, noted_extra, now_at_place, place_of, source_of, taken_rows};

use crate::edge_rows::EdgeRows;
use crate::note::{Note, NotedRow, Sweep};
use rc_tuple::Memory;

/// Adds the noted row with the count 1, or raises its count by 1, and answers the count before.
pub fn add_place(edges: &mut Vec<EdgeRows>, row: &NotedRow, values: &[u64]) -> Result<u64, Memory>
    requires stored { AreStored edges.old.items }
    requires edge { row.now.edge < length edges.old.items }
    requires within { IsWithin (length values.now) row.now }
    requires row { IsRowAt edges.old.items row.now.edge (source_of values.now row.now) (key_of values.now row.now) (noted_extra values.now row.now) }
    requires room { count_of (kept_at_place edges.old.items (place_of values.now row.now)) < 2 ^ 63 }
    requires single { (x : EdgeRows) → slice_get edges.old.items row.now.edge ≡ Some x → IsSingle x (source_of values.now row.now) (key_of values.now row.now) }
    ensures ok { OnOk result (PlaceBecomes edges.old.items edges.new.items (place_of values.now row.now) (Some (noted_extra values.now row.now, count_of (kept_at_place edges.old.items (place_of values.now row.now)) + 1))) }
    ensures before { IfOk result (λ before. before ≡ count_of (kept_at_place edges.old.items (place_of values.now row.now))) }
    ensures err { OnErr result (PlaceBecomes edges.old.items edges.new.items (place_of values.now row.now) (kept_at_place edges.old.items (place_of values.now row.now))) }
{
    let edge = &mut edges[row.edge as usize];
    edge.add(row.source(values), row.key(values), row.extra(values))
}

/// Adds the noted row with the count 1, where no row is at its place, and answers whether it did.
pub fn add_new_place(
    edges: &mut Vec<EdgeRows>,
    row: &NotedRow,
    values: &[u64],
) -> Result<bool, Memory>
    requires stored { AreStored edges.old.items }
    requires edge { row.now.edge < length edges.old.items }
    requires within { IsWithin (length values.now) row.now }
    requires row { HasRowValues (shapes edges.old.items) row.now.edge (source_of values.now row.now) (key_of values.now row.now) (noted_extra values.now row.now) }
    requires single { now_at_place edges.old.items (place_of values.now row.now) ≡ None → (x : EdgeRows) → slice_get edges.old.items row.now.edge ≡ Some x → IsSingle x (source_of values.now row.now) (key_of values.now row.now) }
    ensures ok { IfOk result (IsNewPlace edges.old.items edges.new.items (place_of values.now row.now) (noted_extra values.now row.now)) }
    ensures err { OnErr result (PlaceBecomes edges.old.items edges.new.items (place_of values.now row.now) (kept_at_place edges.old.items (place_of values.now row.now))) }
{
    let edge = &mut edges[row.edge as usize];
    edge.add_new(row.source(values), row.key(values), row.extra(values))
}

/// Lowers the count of the row at the noted place by 1, and answers the count before.
pub fn sub_place(edges: &mut Vec<EdgeRows>, row: &NotedRow, values: &[u64]) -> u64
    requires stored { AreStored edges.old.items }
    requires edge { row.now.edge < length edges.old.items }
    requires within { IsWithin (length values.now) row.now }
    requires there { IsSome (now_at_place edges.old.items (place_of values.now row.now)) }
    ensures becomes { PlaceBecomes edges.old.items edges.new.items (place_of values.now row.now) (one_less (kept_at_place edges.old.items (place_of values.now row.now))) }
    ensures before { result ≡ count_of (kept_at_place edges.old.items (place_of values.now row.now)) }
{
    let edge = &mut edges[row.edge as usize];
    edge.sub(row.source(values), row.key(values))
}

/// Makes the row or tombstone at the noted place the noted row, with this count.
pub fn put_back_place(edges: &mut Vec<EdgeRows>, row: &NotedRow, values: &[u64], count: u64)
    requires stored { AreStored edges.old.items }
    requires noted { IsNoted edges.old.items values.now row.now }
    ensures { PlaceBecomes edges.old.items edges.new.items (place_of values.now row.now) (Some (noted_extra values.now row.now, count)) }
{
    let edge = &mut edges[row.edge as usize];
    edge.put_back(
        row.source(values),
        row.key(values),
        row.extra(values),
        count,
    );
}

/// Lets a tombstone at the noted place go.
// It stands apart, so that a walk over notes of which no tombstone is left stays small.
#[inline(never)]
pub fn sweep_place(edges: &mut Vec<EdgeRows>, row: &NotedRow, values: &[u64])
    requires stored { AreStored edges.old.items }
    requires edge { row.now.edge < length edges.old.items }
    requires within { IsWithin (length values.now) row.now }
    ensures { PlaceBecomes edges.old.items edges.new.items (place_of values.now row.now) (now_at_place edges.old.items (place_of values.now row.now)) }
{
    let edge = &mut edges[row.edge as usize];
    edge.sweep(row.source(values), row.key(values));
}

/// Undoes the noted changes, from the last on: makes the rows what they were as taken. Of those that
/// weren't there then tombstones are left.
pub fn put_back_places(edges: &mut Vec<EdgeRows>, notes: &[Note], values: &[u64])
    requires { IsFragment edges.old.items notes.now values.now }
    ensures stored { AreStored edges.new.items }
    ensures shapes { shapes edges.new.items ≡ shapes edges.old.items }
    ensures now { listing now_in edges.new.items ≡ taken_rows edges.old.items notes.now values.now }
    ensures noted { AreNoted edges.new.items values.now notes.now }
    ensures tombstones { AreTombstonesNoted RolledBack edges.new.items values.now notes.now }
    ensures emptied { NoneIsEmptied edges.new.items }
{
    for at in (0..notes.len()).rev() {
        let note = &notes[at];
        put_back_place(edges, &note.row, values, note.count);
    }
}

/// Lets the tombstones go that are left at noted places.
pub fn sweep_places(edges: &mut Vec<EdgeRows>, notes: &[Note], values: &[u64], after: Sweep)
    requires stored { AreStored edges.old.items }
    requires noted { AreNoted edges.old.items values.now notes.now }
    requires tombstones { AreTombstonesNoted after edges.old.items values.now notes.now }
    requires emptied { NoneIsEmptied edges.old.items }
    ensures stored { AreStored edges.new.items }
    ensures shapes { shapes edges.new.items ≡ shapes edges.old.items }
    ensures now { (e : _) (s k : _) → found_by now_in edges.new.items e s k ≡ found_by now_in edges.old.items e s k }
    ensures swept { (e : _) (s k : _) → found_by kept_in edges.new.items e s k ≡ found_by now_in edges.new.items e s k }
    ensures emptied { NoneIsEmptied edges.new.items }
{
    for note in notes {
        if note.is_swept(after) {
            sweep_place(edges, &note.row, values);
        }
    }
}
