//! The fragment of a stripe, with the rows of all edges.

ghost use Rattle.std.specs.Prelude.{◌≡◌, ◌<◌, ◌≤◌, ◌↔◌, Err, IsTrue, length, OnOk, OnErr, IfOk, option_copied};
ghost use Rattle.rc_fragment.specs.Fragment.{AreAllRows, AreRowsOf, HasColumns, HasNoRowOf, HasRowOf, HasScanned, HasShape, IsLookedUp, edge_row, edge_table};
ghost use Rattle.rc_fragment.specs.FragmentRows.{no_rows, rolled_back, settled, with_promise, without_promise};
ghost use Rattle.rc_fragment.specs.ImpliedTables.{IsTable, full_rows};
ghost use Rattle.rc_fragment.specs.Tuples.{CanAddTuple, HasTuple, IsFirstKept, IsPartlyAdded, IsRowOf, changes_of_class, full_fragment, with_tuple, without_tuple};
ghost use Rattle.rc_fragment.specs.declared.held.AddStop.TheVariants as stop;
ghost use Rattle.rc_fragment.specs.declared.shape.EdgeShape.{EdgeShape};

use crate::AddStop;
use crate::stored::Stored;
use crate::values::values_at;
use rc_maps::Seed;
use rc_spec::Accepted;
use rc_tuple::{Memory, Tuple, Tuples};
use std::alloc::Global;
use std::marker::Model;

/// The rows of all edges that fall on one lock stripe (PLDI 2012, lock striping), changed by tuples: all rows that
/// a tuple has in the edges of a lock class are added together, and taken out together.
///
/// So the rows of an edge from a node without columns needn't be kept where another edge of its class leads from its
/// target: they are the sources of the other edge's rows, each with their count. Contracts see the rows of all edges.
///
/// A fragment also tells its rows as they were taken. Changes are made in place, where `own` promised room for them,
/// and noted, as in an undo log; `revert` takes them back, and `settle` makes them count as taken. Both cost the
/// changes, whatever the fragment's size, take no memory and leave no note.
#[derive(Drop, Debug)]
pub struct Fragment {
    stored: Stored,
}

impl Model for Fragment {
    ghost use Rattle.rc_fragment.specs.FragmentRows.{FragmentRows};

    ghost Value = { FragmentRows };

    ghost use Rattle.rc_fragment.specs.Tuples.{IsTabled, full_seen};

    ghost view = { full_seen };

    ghost invariant = { IsTabled };
}

impl Fragment {
    /// The fragment of an accepted specification's stripe with no row. It has the edge table of the
    /// specification; no call changes the table.
    /// The seed is that of its hash tables.
    pub fn empty(alloc: Global, seed: Seed, accepted: &Accepted) -> Result<Fragment, Memory>
        ensures { IfOk result (λ fragment. fragment ≡ no_rows (edge_table accepted.now)) }
    {
        Ok(Fragment {
            stored: Stored::empty(alloc, seed, accepted)?,
        })
    }

    /// Makes room for at least so many further changes in all. It may be called again. Where memory is
    /// wanted nothing changes.
    pub fn own(&mut self, changes: u16) -> Result<(), Memory>
        ensures ok { OnOk result (self.new ≡ with_promise changes self.old) }
        ensures err { OnErr result (self.new ≡ self.old) }
    {
        self.stored.own(changes)
    }

    /// Takes back what `own` promised and no change has used. The memory stays.
    pub(crate) fn disown(&mut self)
        ensures { self.new ≡ without_promise self.old }
    {
        self.stored.disown();
    }

    /// Adds the tuple's row to each edge of the class with the count 1, or raises its count by 1, where there is room for
    /// a change of each that is kept. Each row has the columns of its edge's target, no other row of the edge has its
    /// source and key, and in a singleton none with its source has another key. Where memory is wanted some of the tuple's
    /// rows may have been added, each once, which `revert` takes out. Costs a look-up of the source and one of the key in
    /// each edge that is kept.
    pub fn add_tuple(&mut self, class: u8, tuple: &Tuple) -> Result<(), Memory>
        requires owned { changes_of_class self.old.table class ≤ self.old.room }
        requires can { CanAddTuple self.old.table self.old.now class tuple.now }
        ensures ok { OnOk result (self.new ≡ with_tuple class tuple.now self.old) }
        ensures err { OnErr result (IsPartlyAdded class tuple.now self.old self.new) }
    {
        add_kept_rows(&mut self.stored, class, tuple)
    }

    /// Adds the tuple's rows as `add_tuple` does, where no row of this edge of the class has the tuple's values of source
    /// and key; only then is asked what `add_tuple` asks besides room. Where one has them nothing changes. Costs what
    /// `add_tuple` does: no look-up besides.
    pub fn add_new_tuple(&mut self, class: u8, edge: u8, tuple: &Tuple) -> Result<(), AddStop>
        requires known { edge < length self.old.table }
        requires first { IsFirstKept self.old.table class edge }
        requires owned { changes_of_class self.old.table class ≤ self.old.room }
        requires columns { HasColumns self.old.table edge (edge_row self.old.table edge tuple.now) }
        requires can { HasNoRowOf self.old.table self.old.now edge tuple.now → CanAddTuple self.old.table self.old.now class tuple.now }
        ensures ok { OnOk result (self.new ≡ with_tuple class tuple.now self.old) }
        ensures none { OnOk result (HasNoRowOf self.old.table self.old.now edge tuple.now) }
        ensures err { OnErr result (IsPartlyAdded class tuple.now self.old self.new) }
        ensures there { result ≡ Err stop.There → HasRowOf self.old.table self.old.now edge tuple.now × (self.new ≡ self.old) }
    {
        add_new_kept_rows(&mut self.stored, class, edge, tuple)
    }

    /// Whether the edge is the first of the class whose rows are kept. Costs a step for each edge before it.
    pub fn is_first_kept(&self, class: u8, edge: u8) -> bool
        requires { edge < length self.now.table }
        ensures { IsTrue result ↔ IsFirstKept self.now.table class edge }
    {
        self.stored.is_first_kept(class, edge)
    }

    /// Whether a row of the edge has the tuple's values of source and key. Costs a look-up, and memory for the values.
    pub(crate) fn has_row_of(&self, edge: u8, tuple: &Tuple) -> Result<bool, Memory>
        requires { edge < length self.now.table }
        ensures { IfOk result (IsRowOf self.now.table self.now.now edge tuple.now) }
    {
        let shape = self.stored.shape(edge);
        let source = values_at(tuple, shape.source)?;
        let key = values_at(tuple, shape.key)?;
        match self.lookup(edge, &source, &key) {
            Some(_) => Ok(true),
            None => Ok(false),
        }
    }

    /// Lowers the count of the tuple's row of each edge of the class by 1, and takes it out at 0, where there is room for
    /// a change of each that is kept. Takes no memory. Costs what `add_tuple` does.
    pub fn sub_tuple(&mut self, class: u8, tuple: &Tuple)
        requires owned { changes_of_class self.old.table class ≤ self.old.room }
        requires there { HasTuple self.old.table self.old.now class tuple.now }
        ensures { self.new ≡ without_tuple class tuple.now self.old }
    {
        sub_kept_rows(&mut self.stored, class, tuple);
    }

    /// Makes the rows what they were as taken (a rollback). Takes no memory. Costs the changes since
    /// then.
    pub fn revert(&mut self)
        ensures { self.new ≡ rolled_back self.old }
    {
        self.stored.revert();
    }

    /// Makes the rows now count as taken (a commit). Takes no memory. Costs the changes since they were
    /// taken.
    pub fn settle(&mut self)
        ensures { self.new ≡ settled self.old }
    {
        self.stored.settle();
    }

    /// Of the row of the edge with these values at the source's and at the key's columns, each in column
    /// order, the values at the extra columns, those of the target that neither has, in column order;
    /// `None` exactly where there is no such row. Costs a hash look-up of the source and a look-up of
    /// the key: one of a hash in an edge of kind hash, logarithmic in one of kind ordered, and linear in
    /// the rows of the source in one of kind list. Where another edge's rows tell it, costs a hash look-up of the key
    /// there, and while changes are pending a step for each row with it as the source that was taken out. Takes no memory.
    pub fn lookup(&self, edge: u8, source: &[u64], key: &[u64]) -> Option<&[u64]>
        requires { edge < length self.now.table }
        ensures { (shape : EdgeShape) → HasShape self.now.table edge shape → IsLookedUp shape self.now.now edge source.now key.now (option_copied result) }
    {
        self.stored.rows_fit_the_table();
        match self.stored.shape(edge).lower {
            None => self.stored.lookup(edge, source, key),
            Some(lower) => {
                if source.is_empty() && self.stored.has_source(lower, key) {
                    Some(&[])
                } else {
                    None
                }
            }
        }
    }

    /// Adds of each row of the edge with these values at the source's columns the values at the key's
    /// and then those at the extra columns at the end of the list, rising by the keys. A row without
    /// key and extra columns adds nothing: `lookup` tells whether it is there. Where memory is wanted
    /// the list stays as it was. Where another edge's rows tell those of this one, takes a list of its sources, and
    /// while changes are pending a step for each row that was taken out.
    pub fn scan(&self, edge: u8, source: &[u64], out: &mut Vec<u64>) -> Result<(), Memory>
        requires { edge < length self.now.table }
        ensures ok { OnOk result ((shape : EdgeShape) → HasShape self.now.table edge shape → HasScanned shape self.now.now edge source.now out.old.items out.new.items) }
        ensures err { OnErr result (out.new.items ≡ out.old.items) }
    {
        self.stored.rows_fit_the_table();
        match self.stored.shape(edge).lower {
            None => self.stored.scan(edge, source, out),
            Some(lower) => {
                if source.is_empty() {
                    self.stored.push_sources(lower, out)
                } else {
                    Ok(())
                }
            }
        }
    }

    /// A law, in the form of a call that does nothing: the rows of every fragment are counted, each is
    /// of an edge of the table, and each has its edge's columns.
    pub fn rows_fit_the_table(&self)
        ensures now { AreRowsOf self.now.table self.now.now }
        ensures taken { AreRowsOf self.now.table self.now.taken }
    {
        self.stored.rows_fit_the_table();
    }

    /// The rows of the edge, each at least once, in no particular order.
    pub fn rows(&self, edge: u8) -> Result<Tuples, Memory>
        requires { edge < length self.now.table }
        ensures { IfOk result (λ rows. AreAllRows self.now.now edge rows) }
    {
        self.stored.rows_fit_the_table();
        match self.stored.shape(edge).lower {
            None => self.stored.rows(edge),
            Some(lower) => self.stored.sources(lower),
        }
    }

    /// Another fragment with the same rows, now and as taken, and the same changes to take back, for
    /// which no room is promised yet. Costs all rows.
    pub fn copy(&self, alloc: Global) -> Result<Fragment, Memory>
        ensures { IfOk result (λ copy. copy ≡ without_promise self.now) }
    {
        Ok(Fragment {
            stored: self.stored.copy(alloc)?,
        })
    }
}

/// Adds the tuple's row to each edge of the class whose rows are kept. Where memory is wanted some may have been added.
fn add_kept_rows(stored: &mut Stored, class: u8, tuple: &Tuple) -> Result<(), Memory>
    requires table { IsTable stored.old.table }
    requires owned { changes_of_class stored.old.table class ≤ stored.old.room }
    requires can { CanAddTuple stored.old.table (full_rows stored.old.table stored.old.now) class tuple.now }
    ensures ok { OnOk result (full_fragment stored.new ≡ with_tuple class tuple.now (full_fragment stored.old)) }
    ensures err { OnErr result (IsPartlyAdded class tuple.now (full_fragment stored.old) (full_fragment stored.new)) }
    ensures same { stored.new.table ≡ stored.old.table }
{
    stored.rows_fit_the_table();
    for edge in 0..stored.edge_count() as u8 {
        if stored.shape(edge).is_kept_of(class) {
            stored.add_row(edge, tuple)?;
        }
    }
    Ok(())
}

/// Adds the tuple's row to each edge of the class whose rows are kept, where none of the first of them has its values of
/// source and key. Where memory is wanted some may have been added.
fn add_new_kept_rows(
    stored: &mut Stored,
    class: u8,
    first: u8,
    tuple: &Tuple,
) -> Result<(), AddStop>
    requires table { IsTable stored.old.table }
    requires known { first < length stored.old.table }
    requires first { IsFirstKept stored.old.table class first }
    requires owned { changes_of_class stored.old.table class ≤ stored.old.room }
    requires columns { HasColumns stored.old.table first (edge_row stored.old.table first tuple.now) }
    requires can { HasNoRowOf stored.old.table (full_rows stored.old.table stored.old.now) first tuple.now → CanAddTuple stored.old.table (full_rows stored.old.table stored.old.now) class tuple.now }
    ensures ok { OnOk result (full_fragment stored.new ≡ with_tuple class tuple.now (full_fragment stored.old)) }
    ensures none { OnOk result (HasNoRowOf stored.old.table (full_rows stored.old.table stored.old.now) first tuple.now) }
    ensures err { OnErr result (IsPartlyAdded class tuple.now (full_fragment stored.old) (full_fragment stored.new)) }
    ensures there { result ≡ Err stop.There → HasRowOf stored.old.table (full_rows stored.old.table stored.old.now) first tuple.now × (full_fragment stored.new ≡ full_fragment stored.old) }
    ensures same { stored.new.table ≡ stored.old.table }
{
    stored.rows_fit_the_table();
    let Ok(added) = stored.add_new_row(first, tuple) else {
        return Err(AddStop::Memory);
    };
    if !added {
        return Err(AddStop::There);
    }
    for edge in first + 1..stored.edge_count() as u8 {
        if stored.shape(edge).is_kept_of(class) {
            let Ok(()) = stored.add_row(edge, tuple) else {
                return Err(AddStop::Memory);
            };
        }
    }
    Ok(())
}

/// Takes the tuple's row out of each edge of the class whose rows are kept.
fn sub_kept_rows(stored: &mut Stored, class: u8, tuple: &Tuple)
    requires table { IsTable stored.old.table }
    requires owned { changes_of_class stored.old.table class ≤ stored.old.room }
    requires there { HasTuple stored.old.table (full_rows stored.old.table stored.old.now) class tuple.now }
    ensures value { full_fragment stored.new ≡ without_tuple class tuple.now (full_fragment stored.old) }
    ensures same { stored.new.table ≡ stored.old.table }
{
    stored.rows_fit_the_table();
    for edge in 0..stored.edge_count() as u8 {
        if stored.shape(edge).is_kept_of(class) {
            stored.sub_row(edge, tuple);
        }
    }
}
