//! The rows that a fragment keeps.

ghost use Rattle.std.specs.Prelude.{◌≡◌, ◌<◌, ◌↔◌, IsTrue, length, OnOk, OnErr, IfOk, option_copied};
ghost use Rattle.rc_spec.specs.CountedRows.{lowered, raised};
ghost use Rattle.rc_fragment.specs.Fragment.{edge_row, AreAllRows, AreRowsOf, AreWhole, HasColumns, HasNoRowOf, HasScanned, HasShape, IsLookedUp, IsThere, edge_table, seen_parts};
ghost use Rattle.rc_fragment.specs.FragmentRows.{changed, no_rows, rolled_back, settled, with_promise, without_promise};
ghost use Rattle.rc_fragment.specs.ImpliedReads.{HasListed, HasSource, HasSourceRows};
ghost use Rattle.rc_fragment.specs.ImpliedTables.{IsTable};
ghost use Rattle.rc_fragment.specs.Listing.{AreEmpty, AreStored, found_by, shapes};
ghost use Rattle.rc_fragment.specs.Container.{kept_in};
ghost use Rattle.rc_fragment.specs.Notes.{IsEmptiedAt};
ghost use Rattle.rc_fragment.specs.Tuples.{CanAddRow, IsFirstKept, IsNewRowIn};
ghost use Rattle.rc_fragment.specs.declared.shape.EdgeShape.{EdgeShape};

use crate::EdgeShape;
use crate::changes::{add_new_noted, add_noted, revert_noted, settle_noted, sub_noted};
use crate::edge_rows::EdgeRows;
use crate::note::{Note, VALUES_OF_NOTE};
use crate::rows::rows_over;
use rc_maps::Seed;
use rc_spec::Accepted;
use rc_tuple::{Memory, Tuple, Tuples};
use std::alloc::Global;
use std::marker::Model;

/// Rows of edges that fall on one lock stripe: each edge and source has its rows in a container of the edge's kind.
///
/// It also tells its rows as they were taken. Changes are made in place, where `own` promised
/// room for them, and noted with the count before, as in an undo log; `revert` takes them back, from
/// the last on, and `settle` makes them count as taken. Both cost the changes, whatever the fragment's
/// size, take no memory and leave no note.
///
/// Its parts are in a block of their own, so that a stripe that is taken or given back moves a pointer.
#[derive(Drop, Debug)]
pub struct Stored {
    parts: Box<Parts>,
}

/// What a fragment keeps: the rows of each edge, the changes since they were taken with the values of
/// the changed rows, and for how many further changes room is promised.
#[derive(Drop, Debug)]
pub struct Parts {
    pub edges: Vec<EdgeRows>,
    pub notes: Vec<Note>,
    pub noted: Vec<u64>,
    pub room: usize,
}

impl Model for Stored {
    ghost use Rattle.rc_fragment.specs.FragmentRows.{FragmentRows};

    ghost Value = { FragmentRows };

    ghost use Rattle.rc_fragment.specs.Fragment.{IsWhole, seen};

    ghost view = { seen };

    ghost invariant = { IsWhole };
}

impl Stored {
    /// The rows of an accepted specification's stripe with no row. It has the edge table of the
    /// specification; no call changes the table.
    /// The seed is that of its hash tables.
    pub fn empty(alloc: Global, seed: Seed, accepted: &Accepted) -> Result<Stored, Memory>
        ensures value { IfOk result (λ stored. stored ≡ no_rows (edge_table accepted.now)) }
        ensures table { IfOk result (λ stored. IsTable stored.table) }
    {
        let parts = Parts {
            edges: empty_edges(alloc, seed, accepted)?,
            notes: Vec::new(alloc),
            noted: Vec::new(alloc),
            room: 0,
        };
        boxed(alloc, parts)
    }

    /// Makes room for at least so many further changes in all. It may be called again. Where memory is
    /// wanted nothing changes.
    pub fn own(&mut self, changes: u16) -> Result<(), Memory>
        ensures ok { OnOk result (self.new ≡ with_promise changes self.old) }
        ensures err { OnErr result (self.new ≡ self.old) }
    {
        let promised = changes as usize;
        let parts = &mut *self.parts;
        parts.notes.reserve(promised)?;
        parts.noted.reserve(promised * VALUES_OF_NOTE)?;
        parts.room = parts.room.max(promised);
        Ok(())
    }

    /// Takes back what `own` promised and no change has used. The memory stays.
    pub(crate) fn disown(&mut self)
        ensures { self.new ≡ without_promise self.old }
    {
        if self.parts.room > 0 {
            self.parts.room = 0;
        }
    }

    /// Adds the row to the edge with the count 1, or raises its count by 1, where there is room for a
    /// change. The row has the columns of the edge's target, no other row of the edge has its source
    /// and key, and in a singleton none with its source has another key. Where memory is wanted nothing
    /// changes. Costs a look-up of the source and one of the key.
    pub fn add_row(&mut self, edge: u8, tuple: &Tuple) -> Result<(), Memory>
        requires known { edge < length self.old.table }
        requires owned { 0 < self.old.room }
        requires can { CanAddRow self.old.table self.old.now edge (edge_row self.old.table edge tuple.now) }
        ensures ok { OnOk result (self.new ≡ changed (raised edge (edge_row self.old.table edge tuple.now)) self.old) }
        ensures err { OnErr result (self.new ≡ self.old) }
    {
        let parts = &mut *self.parts;
        add_noted(
            &mut parts.edges,
            &mut parts.notes,
            &mut parts.noted,
            edge,
            tuple,
        )?;
        parts.room -= 1;
        Ok(())
    }

    /// Adds the tuple's row to the edge with the count 1, where there is room for a change and no row of the
    /// edge has its source and key, and answers whether it did. What `add_row` asks is asked only then. Where
    /// one has them, or memory is wanted, nothing changes. Costs a look-up of the source and one of the key.
    pub fn add_new_row(&mut self, edge: u8, tuple: &Tuple) -> Result<bool, Memory>
        requires known { edge < length self.old.table }
        requires owned { 0 < self.old.room }
        requires columns { HasColumns self.old.table edge (edge_row self.old.table edge tuple.now) }
        requires can { HasNoRowOf self.old.table self.old.now edge tuple.now → CanAddRow self.old.table self.old.now edge (edge_row self.old.table edge tuple.now) }
        ensures ok { IfOk result (IsNewRowIn self.old self.new edge tuple.now) }
        ensures err { OnErr result (self.new ≡ self.old) }
    {
        let parts = &mut *self.parts;
        let added = add_new_noted(
            &mut parts.edges,
            &mut parts.notes,
            &mut parts.noted,
            edge,
            tuple,
        )?;
        if added {
            parts.room -= 1;
            return Ok(true);
        }
        Ok(false)
    }

    /// Lowers the count of a row that is in the edge by 1, and takes it out at 0, where there is room
    /// for a change. Takes no memory. Costs a look-up of the source and one of the key.
    pub fn sub_row(&mut self, edge: u8, tuple: &Tuple)
        requires known { edge < length self.old.table }
        requires owned { 0 < self.old.room }
        requires there { IsThere self.old.now edge (edge_row self.old.table edge tuple.now) }
        ensures { self.new ≡ changed (lowered edge (edge_row self.old.table edge tuple.now)) self.old }
    {
        let parts = &mut *self.parts;
        sub_noted(
            &mut parts.edges,
            &mut parts.notes,
            &mut parts.noted,
            edge,
            tuple,
        );
        parts.room -= 1;
    }

    /// Makes the rows what they were as taken (a rollback). Takes no memory. Costs the changes since
    /// then.
    pub fn revert(&mut self)
        ensures { self.new ≡ rolled_back self.old }
    {
        let parts = &mut *self.parts;
        revert_noted(&mut parts.edges, &mut parts.notes, &mut parts.noted);
    }

    /// Makes the rows now count as taken (a commit). Takes no memory. Costs the changes since they were
    /// taken.
    pub fn settle(&mut self)
        ensures { self.new ≡ settled self.old }
    {
        let parts = &mut *self.parts;
        settle_noted(&mut parts.edges, &mut parts.notes, &mut parts.noted);
    }

    /// Of the row of the edge with these values at the source's and at the key's columns, each in column
    /// order, the values at the extra columns, those of the target that neither has, in column order;
    /// `None` exactly where there is no such row. Costs a hash look-up of the source and a look-up of
    /// the key: one of a hash in an edge of kind hash, logarithmic in one of kind ordered, and linear in
    /// the rows of the source in one of kind list. Takes no memory.
    pub fn lookup(&self, edge: u8, source: &[u64], key: &[u64]) -> Option<&[u64]>
        requires { edge < length self.now.table }
        ensures { (shape : EdgeShape) → HasShape self.now.table edge shape → IsLookedUp shape self.now.now edge source.now key.now (option_copied result) }
    {
        let rows = &self.parts.edges[edge as usize];
        rows.get(source, key)
    }

    /// Adds of each row of the edge with these values at the source's columns the values at the key's
    /// and then those at the extra columns at the end of the list, rising by the keys. A row without
    /// key and extra columns adds nothing: `lookup` tells whether it is there. Where memory is wanted
    /// the list stays as it was.
    pub fn scan(&self, edge: u8, source: &[u64], out: &mut Vec<u64>) -> Result<(), Memory>
        requires { edge < length self.now.table }
        ensures ok { OnOk result ((shape : EdgeShape) → HasShape self.now.table edge shape → HasScanned shape self.now.now edge source.now out.old.items out.new.items) }
        ensures err { OnErr result (out.new.items ≡ out.old.items) }
    {
        let rows = &self.parts.edges[edge as usize];
        rows.scan(source, out)
    }

    /// How many edges there are.
    pub(crate) fn edge_count(&self) -> usize
        ensures { result ≡ length self.now.table }
    {
        self.parts.edges.len()
    }

    /// The shape of the edge.
    pub(crate) fn shape(&self, edge: u8) -> EdgeShape
        requires { edge < length self.now.table }
        ensures { HasShape self.now.table edge result }
    {
        self.parts.edges[edge as usize].shape
    }

    /// Whether the edge is the first of the class whose rows are kept.
    pub(crate) fn is_first_kept(&self, class: u8, edge: u8) -> bool
        requires { edge < length self.now.table }
        ensures { IsTrue result ↔ IsFirstKept self.now.table class edge }
    {
        let own = self.shape(edge);
        if !own.is_kept_of(class) {
            return false;
        }
        for before in 0..edge {
            if self.shape(before).is_kept_of(class) {
                return false;
            }
        }
        true
    }

    /// Whether the edge has a row with these values at the columns of its source. Costs a look-up of the
    /// source, and where changes are noted a step for each row of the source that was taken out since.
    /// Takes no memory.
    pub(crate) fn has_source(&self, edge: u8, source: &[u64]) -> bool
        requires { edge < length self.now.table }
        ensures { (shape : EdgeShape) → HasShape self.now.table edge shape → (IsTrue result ↔ HasSource shape self.now.now edge source.now) }
    {
        let rows = &self.parts.edges[edge as usize];
        rows.has_source(source, !self.parts.notes.is_empty())
    }

    /// Adds the values of each source of the edge's rows at the end of the list, rising. Costs a list of
    /// all sources, which is sorted, and where changes are noted a step for each row that was taken out
    /// since. Where memory is wanted the list stays as it was.
    pub(crate) fn push_sources(&self, edge: u8, out: &mut Vec<u64>) -> Result<(), Memory>
        requires { edge < length self.now.table }
        ensures ok { OnOk result ((shape : EdgeShape) → HasShape self.now.table edge shape → HasListed shape self.now.now edge out.old.items out.new.items) }
        ensures err { OnErr result (out.new.items ≡ out.old.items) }
    {
        let rows = &self.parts.edges[edge as usize];
        rows.push_sources(!self.parts.notes.is_empty(), out)
    }

    /// The sources of the edge's rows, rising, as tuples over their columns, of which there are some. Costs
    /// what `push_sources` does, and memory for each tuple.
    pub(crate) fn sources(&self, edge: u8) -> Result<Tuples, Memory>
        requires known { edge < length self.now.table }
        requires table { IsTable self.now.table }
        requires some { (shape : EdgeShape) → HasShape self.now.table edge shape → 0 < length shape.source }
        ensures { IfOk result (λ rows. (shape : EdgeShape) → HasShape self.now.table edge shape → HasSourceRows shape self.now.now edge rows) }
    {
        let mut values = Vec::new(self.alloc());
        self.push_sources(edge, &mut values)?;
        self.rows_fit_the_table();
        rows_over(self.alloc(), self.shape(edge).source, &values)
    }

    /// Where its memory is taken.
    pub(crate) fn alloc(&self) -> Global {
        *Box::allocator(&self.parts)
    }

    /// A law, in the form of a call that does nothing: the rows of every fragment are counted, each is
    /// of an edge of the table, and each has its edge's columns.
    pub fn rows_fit_the_table(&self)
        ensures now { AreRowsOf self.now.table self.now.now }
        ensures taken { AreRowsOf self.now.table self.now.taken }
    {
        let _ = &self.parts;
    }

    /// The rows of the edge, each at least once, in no particular order.
    pub fn rows(&self, edge: u8) -> Result<Tuples, Memory>
        requires { edge < length self.now.table }
        ensures { IfOk result (λ rows. AreAllRows self.now.now edge rows) }
    {
        let rows = &self.parts.edges[edge as usize];
        rows.all()
    }

    /// Another fragment with the same rows, now and as taken, and the same changes to take back, for
    /// which no room is promised yet. Costs all rows.
    pub fn copy(&self, alloc: Global) -> Result<Stored, Memory>
        ensures { IfOk result (λ copy. copy ≡ without_promise self.now) }
    {
        let parts = Parts {
            edges: copy_edges(alloc, &self.parts.edges)?,
            notes: Vec::from_slice(alloc, self.parts.notes.as_slice())?,
            noted: Vec::from_slice(alloc, self.parts.noted.as_slice())?,
            room: 0,
        };
        boxed(alloc, parts)
    }
}

/// The fragment with these parts, in their block.
fn boxed(alloc: Global, parts: Parts) -> Result<Stored, Memory>
    requires { AreWhole parts }
    ensures { IfOk result (λ fragment. fragment ≡ seen_parts parts) }
{
    Ok(Stored {
        parts: Box::new(alloc, parts)?,
    })
}

/// A copy of the edges, with all rows that are kept.
fn copy_edges(alloc: Global, edges: &Vec<EdgeRows>) -> Result<Vec<EdgeRows>, Memory>
    requires { AreStored edges.now.items }
    ensures shapes { IfOk result (λ copy. shapes copy.items ≡ shapes edges.now.items) }
    ensures stored { IfOk result (λ copy. AreStored copy.items) }
    ensures kept { IfOk result (λ copy. (e : _) (s k : _) → found_by kept_in copy.items e s k ≡ found_by kept_in edges.now.items e s k) }
    ensures emptied { IfOk result (λ copy. (e : _) (s : _) → IsEmptiedAt copy.items e s → IsEmptiedAt edges.now.items e s) }
{
    let mut copy = Vec::new(alloc);
    for edge in edges {
        copy.push(edge.copy()?)?;
    }
    Ok(copy)
}

/// The edges of a specification with no row.
fn empty_edges(alloc: Global, seed: Seed, accepted: &Accepted) -> Result<Vec<EdgeRows>, Memory>
    ensures shapes { IfOk result (λ edges. shapes edges.items ≡ edge_table accepted.now) }
    ensures empty { IfOk result (λ edges. AreEmpty edges.items) }
    ensures table { IfOk result (λ edges. IsTable (shapes edges.items)) }
{
    let mut edges = Vec::new(alloc);
    for number in 0..accepted.spec().edges.list().len() as u8 {
        edges.push(EdgeRows::new(alloc, seed, EdgeShape::of(accepted, number)))?;
    }
    Ok(edges)
}
