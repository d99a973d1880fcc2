//! The containers of the kinds hash and ordered.

ghost use Rattle.std.specs.Prelude.{◌≡◌, IfOk};
ghost use Rattle.rc_edges.specs.EdgeMap.{HasWidth};
ghost use Rattle.rc_maps.specs.OrderedTable.{entries_of, has_one_column};
ghost use Rattle.rc_maps.specs.TableEdge.{none_of};

use crate::{EntryTable, HashTable, OrderedTable, Seed};
use rc_edges::{EdgeMap, Entry};
use rc_tuple::Memory;
use std::alloc::Global;
use std::marker::Model;

/// Entries in a table by their keys.
///
/// `get`, `add`, `add_new`, `sub` and `put_back` look up once, and `add` and `add_new` a second time where an
/// entry comes with a key in a block of its own; `sweep` does once, and a second time where an entry goes. `scan`, `len`
/// and `copy` walk all entries.
#[derive(Drop, Debug)]
pub struct TableEdge<T: EntryTable> {
    table: T,
    alloc: Global,
}

/// A container over a hash table. It suits an edge with many keys at a row of its source. `scan`
/// sorts references to the rows by their keys, in O(n log n) for n entries.
pub type HashEdge = TableEdge<HashTable<Entry>>;

/// A container over a search tree, in the order of keys: `scan` walks the tree, and takes no memory
/// but the list's. `copy` costs O(n log n) for n entries.
pub type TreeEdge = TableEdge<OrderedTable<Entry>>;

impl<T: EntryTable> Model for TableEdge<T> {
    ghost use Rattle.rc_maps.specs.TableEdge.{TableRows, table_rows_code};

    ghost Value = { TableRows };

    ghost coded = { table_rows_code };

    ghost view = { λ a. record { one_column = T.one_column a.table; rows = T.entries a.table } };
}

impl TableEdge<HashTable<Entry>> {
    /// The container with no row, which takes no memory: it takes keys of one column alone, or any.
    pub fn new(alloc: Global, seed: Seed, one_column: bool) -> Self
        ensures { result ≡ none_of one_column }
    {
        TableEdge {
            table: HashTable::new(alloc, seed, one_column),
            alloc,
        }
    }
}

impl TableEdge<OrderedTable<Entry>> {
    /// The container with no row, which takes no memory: it takes keys of one column alone, or any.
    pub fn new(alloc: Global, one_column: bool) -> Self
        ensures { result ≡ none_of one_column }
    {
        TableEdge {
            table: OrderedTable::new(alloc, one_column),
            alloc,
        }
    }

    /// The container of the table's entries.
    pub(crate) fn over(alloc: Global, table: OrderedTable<Entry>) -> Self
        ensures rows { result.rows ≡ entries_of table }
        ensures width { result.one_column ≡ has_one_column table }
    {
        TableEdge { table, alloc }
    }
}

impl<T: EntryTable + Drop> EdgeMap for TableEdge<T> {
    ghost rows = { λ map. map.rows };

    ghost one_column = { λ map. map.one_column };

    ghost may_take = { λ map key. HasWidth map.one_column key };

    fn add(&mut self, key: &[u64], extra: &[u64]) -> Result<u64, Memory> {
        self.table.raise(self.alloc, key, extra)
    }

    fn add_new(&mut self, key: &[u64], extra: &[u64]) -> Result<bool, Memory> {
        self.table.add_new(self.alloc, key, extra)
    }

    fn sub(&mut self, key: &[u64]) -> u64 {
        let Some(entry) = self.table.entry_mut(key) else {
            unreachable!();
        };
        entry.lower()
    }

    fn put_back(&mut self, key: &[u64], extra: &[u64], count: u64) {
        let Some(entry) = self.table.entry_mut(key) else {
            unreachable!();
        };
        entry.put_back(extra, count);
    }

    fn sweep(&mut self, key: &[u64]) {
        let Some(entry) = self.table.entry_mut(key) else {
            return;
        };
        if entry.is_tombstone() {
            self.table.take_out(key);
        }
    }

    fn get(&self, key: &[u64]) -> Option<&[u64]> {
        match self.table.entry(key) {
            Some(entry) => entry.extra(),
            None => None,
        }
    }

    fn scan(&self, out: &mut Vec<u64>) -> Result<(), Memory> {
        self.table.push_rising(self.alloc, out)
    }

    fn len(&self) -> u64 {
        self.table.count()
    }

    fn has_row(&self) -> bool {
        self.table.has_row()
    }

    fn is_gone(&self) -> bool {
        self.table.has_none()
    }

    fn copy(&self) -> Result<Self, Memory> {
        Ok(TableEdge {
            table: copy_of(self.alloc, &self.table)?,
            alloc: self.alloc,
        })
    }
}

/// A table with the same entries.
fn copy_of<T: EntryTable + Drop>(alloc: Global, table: &T) -> Result<T, Memory>
    ensures entries { IfOk result (λ copy. T.entries copy ≡ T.entries table.now) }
    ensures width { IfOk result (λ copy. T.one_column copy ≡ T.one_column table.now) }
{
    let mut copy = table.another(alloc);
    for keyed in &table.all(alloc)? {
        copy.put(keyed.key, keyed.value.copy()?)?;
    }
    Ok(copy)
}
