//! Changes of a fragment's parts, each noted.

ghost use Rattle.std.specs.Prelude.{◌≡◌, ◌+◌, ◌<◌, ◌≤◌, [], length, true, IfOk, OnOk, OnErr};
ghost use Rattle.rc_fragment.specs.Container.{now_in};
ghost use Rattle.rc_spec.specs.CountedRows.{lowered, raised};
ghost use Rattle.rc_fragment.specs.Fragment.{edge_row, HasColumns, HasNoRowOf, IsFragment, IsThere};
ghost use Rattle.rc_fragment.specs.Listing.{listing, shapes};
ghost use Rattle.rc_fragment.specs.Notes.{room_in, taken_rows};
ghost use Rattle.rc_fragment.specs.Tuples.{CanAddRow, IsNewRow};

use crate::edge_rows::EdgeRows;
use crate::note::{Note, Sweep, note_row};
use crate::places::{add_new_place, add_place, put_back_places, sub_place, sweep_places};
use rc_tuple::{Memory, Tuple};

/// Adds the tuple's row of the edge with the count 1, or raises its count by 1.
pub fn add_noted(
    edges: &mut Vec<EdgeRows>,
    notes: &mut Vec<Note>,
    values: &mut Vec<u64>,
    edge: u8,
    tuple: &Tuple,
) -> Result<(), Memory>
    requires fragment { IsFragment edges.old.items notes.old.items values.old.items }
    requires known { edge < length edges.old.items }
    requires owned { 0 < room_in notes.old values.old }
    requires can { CanAddRow (shapes edges.old.items) (listing now_in edges.old.items) edge (edge_row (shapes edges.old.items) edge tuple.now) }
    ensures fragment { IsFragment edges.new.items notes.new.items values.new.items }
    ensures ok { OnOk result (listing now_in edges.new.items ≡ raised edge (edge_row (shapes edges.old.items) edge tuple.now) (listing now_in edges.old.items)) }
    ensures err { OnErr result (listing now_in edges.new.items ≡ listing now_in edges.old.items) }
    ensures kept { OnErr result (room_in notes.old values.old ≤ room_in notes.new values.new) }
    ensures taken { taken_rows edges.new.items notes.new.items values.new.items ≡ taken_rows edges.old.items notes.old.items values.old.items }
    ensures shapes { shapes edges.new.items ≡ shapes edges.old.items }
    ensures left { room_in notes.old values.old ≤ room_in notes.new values.new + 1 }
    ensures noted { OnOk result (length notes.new.items ≡ length notes.old.items + 1) }
    ensures same { OnErr result ((notes.new.items ≡ notes.old.items) × (values.new.items ≡ values.old.items)) }
{
    let shape = edges[edge as usize].shape;
    let noted = note_row(values, edge, tuple, &shape);
    let Ok(before) = add_place(edges, &noted, values) else {
        values.truncate(noted.start);
        return Err(Memory);
    };
    notes.push_reserved(Note {
        row: noted,
        took_out: false,
        count: before,
    });
    Ok(())
}

/// Adds the tuple's row of the edge with the count 1, where no row of the edge has its source and key, and
/// answers whether it did.
pub fn add_new_noted(
    edges: &mut Vec<EdgeRows>,
    notes: &mut Vec<Note>,
    values: &mut Vec<u64>,
    edge: u8,
    tuple: &Tuple,
) -> Result<bool, Memory>
    requires fragment { IsFragment edges.old.items notes.old.items values.old.items }
    requires known { edge < length edges.old.items }
    requires owned { 0 < room_in notes.old values.old }
    requires columns { HasColumns (shapes edges.old.items) edge (edge_row (shapes edges.old.items) edge tuple.now) }
    requires can { HasNoRowOf (shapes edges.old.items) (listing now_in edges.old.items) edge tuple.now → CanAddRow (shapes edges.old.items) (listing now_in edges.old.items) edge (edge_row (shapes edges.old.items) edge tuple.now) }
    ensures fragment { IsFragment edges.new.items notes.new.items values.new.items }
    ensures ok { IfOk result (IsNewRow (shapes edges.old.items) (listing now_in edges.old.items) (listing now_in edges.new.items) edge tuple.now) }
    ensures err { OnErr result (listing now_in edges.new.items ≡ listing now_in edges.old.items) }
    ensures taken { taken_rows edges.new.items notes.new.items values.new.items ≡ taken_rows edges.old.items notes.old.items values.old.items }
    ensures shapes { shapes edges.new.items ≡ shapes edges.old.items }
    ensures left { room_in notes.old values.old ≤ room_in notes.new values.new + 1 }
    ensures kept { (result ≡ Ok true → ⊥) → room_in notes.old values.old ≤ room_in notes.new values.new }
    ensures noted { result ≡ Ok true → length notes.new.items ≡ length notes.old.items + 1 }
    ensures same { (result ≡ Ok true → ⊥) → (notes.new.items ≡ notes.old.items) × (values.new.items ≡ values.old.items) }
{
    let shape = edges[edge as usize].shape;
    let noted = note_row(values, edge, tuple, &shape);
    let Ok(added) = add_new_place(edges, &noted, values) else {
        values.truncate(noted.start);
        return Err(Memory);
    };
    if added {
        notes.push_reserved(Note {
            row: noted,
            took_out: false,
            count: 0,
        });
        return Ok(true);
    }
    values.truncate(noted.start);
    Ok(false)
}

/// Lowers the count of the tuple's row of the edge by 1, and takes it out at 0.
pub fn sub_noted(
    edges: &mut Vec<EdgeRows>,
    notes: &mut Vec<Note>,
    values: &mut Vec<u64>,
    edge: u8,
    tuple: &Tuple,
)
    requires fragment { IsFragment edges.old.items notes.old.items values.old.items }
    requires known { edge < length edges.old.items }
    requires owned { 0 < room_in notes.old values.old }
    requires there { IsThere (listing now_in edges.old.items) edge (edge_row (shapes edges.old.items) edge tuple.now) }
    ensures fragment { IsFragment edges.new.items notes.new.items values.new.items }
    ensures now { listing now_in edges.new.items ≡ lowered edge (edge_row (shapes edges.old.items) edge tuple.now) (listing now_in edges.old.items) }
    ensures taken { taken_rows edges.new.items notes.new.items values.new.items ≡ taken_rows edges.old.items notes.old.items values.old.items }
    ensures shapes { shapes edges.new.items ≡ shapes edges.old.items }
    ensures left { room_in notes.old values.old ≤ room_in notes.new values.new + 1 }
    ensures noted { length notes.new.items ≡ length notes.old.items + 1 }
{
    let shape = edges[edge as usize].shape;
    let noted = note_row(values, edge, tuple, &shape);
    let before = sub_place(edges, &noted, values);
    notes.push_reserved(Note {
        row: noted,
        took_out: before == 1,
        count: before,
    });
}

/// Makes the rows what they were as taken, and forgets the notes.
pub fn revert_noted(edges: &mut Vec<EdgeRows>, notes: &mut Vec<Note>, values: &mut Vec<u64>)
    requires { IsFragment edges.old.items notes.old.items values.old.items }
    ensures fragment { IsFragment edges.new.items notes.new.items values.new.items }
    ensures now { listing now_in edges.new.items ≡ taken_rows edges.old.items notes.old.items values.old.items }
    ensures shapes { shapes edges.new.items ≡ shapes edges.old.items }
    ensures left { room_in notes.old values.old ≤ room_in notes.new values.new }
    ensures forgotten { (notes.new.items ≡ []) × (values.new.items ≡ []) }
{
    put_back_places(edges, notes, values);
    sweep_places(edges, notes, values, Sweep::RolledBack);
    forget(notes, values);
}

/// Makes the rows count as taken: forgets the notes, once the tombstones of rows that were taken out are
/// let go.
pub fn settle_noted(edges: &mut Vec<EdgeRows>, notes: &mut Vec<Note>, values: &mut Vec<u64>)
    requires { IsFragment edges.old.items notes.old.items values.old.items }
    ensures fragment { IsFragment edges.new.items notes.new.items values.new.items }
    ensures now { listing now_in edges.new.items ≡ listing now_in edges.old.items }
    ensures shapes { shapes edges.new.items ≡ shapes edges.old.items }
    ensures left { room_in notes.old values.old ≤ room_in notes.new values.new }
    ensures forgotten { (notes.new.items ≡ []) × (values.new.items ≡ []) }
{
    sweep_places(edges, notes, values, Sweep::Committed);
    forget(notes, values);
}

/// Forgets the notes, and keeps the space that they took.
fn forget(notes: &mut Vec<Note>, values: &mut Vec<u64>)
    ensures notes { notes.new.items ≡ [] }
    ensures values { values.new.items ≡ [] }
    ensures kept { room_in notes.old values.old ≤ room_in notes.new values.new }
{
    notes.clear();
    values.clear();
}
