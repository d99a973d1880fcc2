//! An ordered table whose keys are lists of values.

ghost use Rattle.std.specs.Prelude.{◌≡◌, ◌<◌, ◌^◌, [], ◌∷◌, ◌↔◌, ◌++◌, IsTrue, map, length, take, IfOk, OnOk, OnErr, option_copied};
ghost use Rattle.std.specs.List.{All};
ghost use Rattle.std.specs.Borrow.{sem};
ghost use Rattle.std.specs.Option.{option_copied_mut};
ghost use Rattle.std.specs.FinMap as fin;
ghost use Rattle.rc_edges.specs.EdgeMap.{HasExtra, HasWidth, IsAddedNew, count_at, found, listed, once_more};
ghost use Rattle.rc_maps.specs.OrderedTable.{entries_of, has_one_column, lends_value};
ghost use Rattle.rc_maps.specs.Keyed.{IsKeyed, entries_one, pair_of};

use crate::keyed::{has_row, only};
use crate::{EntryTable, Keyed};
use rc_edges::Entry;
use rc_tuple::Memory;
use std::alloc::Global;
use std::collections::{BTreeMap, btree_map};
use std::slice;

/// An ordered table from lists of values to values of one type.
///
/// Keys of one column are plain numbers, and take no memory of their own. A look-up descends the
/// tree once, and takes no memory.
#[derive(Drop, Debug)]
pub enum OrderedTable<V> {
    /// Keys of one column.
    One(BTreeMap<u64, V>),
    /// Keys of any columns, each in a block of its own.
    Many(BTreeMap<Vec<u64>, V>, Global),
}

impl<V> OrderedTable<V> {
    /// The table with no key, which takes no memory: it takes keys of one column alone, or any.
    pub fn new(alloc: Global, one_column: bool) -> Self
        ensures empty { entries_of result ≡ fin.empty }
        ensures width { has_one_column result ≡ one_column }
    {
        if one_column {
            OrderedTable::One(BTreeMap::new(alloc))
        } else {
            OrderedTable::Many(BTreeMap::new(alloc), alloc)
        }
    }

    /// The value at the key, if there is one.
    pub fn get(&self, key: &[u64]) -> Option<&V>
        ensures { option_copied result ≡ fin.get (entries_of self.now) key.now }
    {
        match self {
            OrderedTable::One(map) => match only(key) {
                Some(value) => map.get(value),
                None => None,
            },
            OrderedTable::Many(map, _) => map.get(key),
        }
    }

    /// The value at the key, if there is one, to be changed.
    pub fn get_mut(&mut self, key: &[u64]) -> Option<&mut V>
        ensures* writes_back { sem 𝓛 (lends_value V.row self.entry key.now result) }
        ensures value { option_copied_mut result ≡ fin.get (entries_of self.old) key.now }
    {
        match self {
            OrderedTable::One(map) => match only(key) {
                Some(value) => map.get_mut(value),
                None => None,
            },
            OrderedTable::Many(map, _) => map.get_mut(key),
        }
    }

    /// Puts the value at the key, in place of one that is there. Where memory is wanted nothing
    /// changes.
    pub fn insert(&mut self, key: &[u64], value: V) -> Result<(), Memory>
    where
        V: Drop,
        requires { HasWidth (has_one_column self.old) key.now }
        ensures ok { OnOk result (entries_of self.new ≡ fin.insert (entries_of self.old) key.now value) }
        ensures err { OnErr result (entries_of self.new ≡ entries_of self.old) }
        ensures width { has_one_column self.new ≡ has_one_column self.old }
    {
        match self {
            OrderedTable::One(map) => {
                let Some(only) = only(key) else {
                    unreachable!();
                };
                map.insert(*only, value)?;
            }
            OrderedTable::Many(map, alloc) => {
                let key = Vec::from_slice(*alloc, key)?;
                map.insert(key, value)?;
            }
        }
        Ok(())
    }

    /// Takes out the value at the key, if there is one.
    pub fn remove(&mut self, key: &[u64]) -> Option<V>
        ensures value { result ≡ fin.get (entries_of self.old) key.now }
        ensures entries { entries_of self.new ≡ fin.remove (entries_of self.old) key.now }
        ensures width { has_one_column self.new ≡ has_one_column self.old }
    {
        match self {
            OrderedTable::One(map) => match only(key) {
                Some(value) => map.remove(value),
                None => None,
            },
            OrderedTable::Many(map, _) => map.remove(key),
        }
    }

    /// Whether no key is there.
    pub fn is_empty(&self) -> bool
        ensures { IsTrue result ↔ (entries_of self.now ≡ fin.empty) }
    {
        match self {
            OrderedTable::One(map) => map.is_empty(),
            OrderedTable::Many(map, _) => map.is_empty(),
        }
    }

    /// Each value with its key, rising by the keys. Takes a list of all, and no look-up.
    pub fn keyed(&self, alloc: Global) -> Result<Vec<Keyed<'_, V>>, Memory>
        ensures rising { IfOk result (λ all. IsKeyed (map pair_of all.items)) }
        ensures entries { IfOk result (λ all. fin.from_entries (map pair_of all.items) ≡ entries_of self.now) }
        ensures widths { IfOk result (λ all. All (λ k. HasWidth (has_one_column self.now) k.key.now) all.items) }
    {
        match self {
            OrderedTable::One(map) => {
                let mut all = Vec::with_capacity(alloc, map.len())?;
                for (key, value) in map {
                    let key = slice::from_ref(key);
                    all.push(Keyed { key, value })?;
                }
                Ok(all)
            }
            OrderedTable::Many(map, _) => {
                let mut all = Vec::with_capacity(alloc, map.len())?;
                for (key, value) in map {
                    let key = key.as_slice();
                    all.push(Keyed { key, value })?;
                }
                Ok(all)
            }
        }
    }
}

impl OrderedTable<Entry> {
    /// Adds each row's key and extra values at the end, rising by the keys; where memory is wanted
    /// some may have been added. Takes no memory but the list's.
    fn push_rows(&self, out: &mut Vec<u64>) -> Result<(), Memory>
        ensures ok { OnOk result (out.new.items ≡ out.old.items ++ listed (entries_of self.now)) }
        ensures err { OnErr result (take (length out.old.items) out.new.items ≡ out.old.items) }
    {
        match self {
            OrderedTable::One(map) => {
                // All rows are as wide as the first; an entry without one adds nothing, and has room
                // made for it all the same.
                out.reserve(map.len().saturating_mul(first_width(map)))?;
                for (key, entry) in map {
                    entry.push_row(slice::from_ref(key), out)?;
                }
            }
            OrderedTable::Many(map, _) => {
                // An entry with a row adds its key, which has two values at least, but for the only
                // one of an edge with none. One without a row adds nothing, as above.
                out.reserve(map.len().saturating_mul(2))?;
                for (key, entry) in map {
                    entry.push_row(key.as_slice(), out)?;
                }
            }
        }
        Ok(())
    }
}

impl EntryTable for OrderedTable<Entry> {
    ghost entries = { entries_of };

    ghost one_column = { has_one_column };

    fn entry(&self, key: &[u64]) -> Option<&Entry> {
        self.get(key)
    }

    fn entry_mut(&mut self, key: &[u64]) -> Option<&mut Entry> {
        self.get_mut(key)
    }

    fn raise(&mut self, alloc: Global, key: &[u64], extra: &[u64]) -> Result<u64, Memory> {
        match self {
            OrderedTable::One(map) => {
                let Some(only) = only(key) else {
                    unreachable!();
                };
                raise_one(map, alloc, *only, extra)
            }
            OrderedTable::Many(_, _) => self.raise_any(alloc, key, extra),
        }
    }

    fn add_new(&mut self, alloc: Global, key: &[u64], extra: &[u64]) -> Result<bool, Memory> {
        match self {
            OrderedTable::One(map) => {
                let Some(only) = only(key) else {
                    unreachable!();
                };
                add_new_one(map, alloc, *only, extra)
            }
            OrderedTable::Many(_, _) => self.add_new_any(alloc, key, extra),
        }
    }

    fn put(&mut self, key: &[u64], entry: Entry) -> Result<(), Memory> {
        self.insert(key, entry)
    }

    fn take_out(&mut self, key: &[u64]) {
        let _ = self.remove(key);
    }

    fn all(&self, alloc: Global) -> Result<Vec<Keyed<'_, Entry>>, Memory> {
        self.keyed(alloc)
    }

    fn push_rising(&self, _alloc: Global, out: &mut Vec<u64>) -> Result<(), Memory> {
        let len = out.len();
        match self.push_rows(out) {
            Ok(()) => Ok(()),
            Err(memory) => {
                out.truncate(len);
                Err(memory)
            }
        }
    }

    fn count(&self) -> u64 {
        match self {
            OrderedTable::One(map) => map.values().filter(|entry| has_row(entry)).count() as u64,
            OrderedTable::Many(map, _) => map
                .values()
                .filter(|entry| has_row(entry))
                .count() as u64,
        }
    }

    fn has_row(&self) -> bool {
        match self {
            OrderedTable::One(map) => map.values().any(has_row),
            OrderedTable::Many(map, _) => map.values().any(has_row),
        }
    }

    fn has_none(&self) -> bool {
        self.is_empty()
    }

    fn another(&self, alloc: Global) -> Self {
        OrderedTable::new(alloc, matches!(self, OrderedTable::One(_)))
    }
}

/// Raises the entry at the key, or puts a new one there, in one search.
fn raise_one(
    map: &mut BTreeMap<u64, Entry>,
    alloc: Global,
    key: u64,
    extra: &[u64],
) -> Result<u64, Memory>
    requires room { count_at (entries_one map.old.entries) (key ∷ []) < 2 ^ 63 }
    requires same { HasExtra (found (entries_one map.old.entries) (key ∷ [])) extra.now }
    ensures ok { OnOk result (entries_one map.new.entries ≡ once_more (entries_one map.old.entries) (key ∷ []) extra.now) }
    ensures before { IfOk result (λ before. before ≡ count_at (entries_one map.old.entries) (key ∷ [])) }
    ensures err { OnErr result (entries_one map.new.entries ≡ entries_one map.old.entries) }
{
    match map.entry(key)? {
        btree_map::Entry::Occupied(own) => own.into_mut().raise(alloc, extra),
        btree_map::Entry::Vacant(place) => {
            let entry = Entry::new(alloc, extra)?;
            place.insert(entry);
            Ok(0)
        }
    }
}

/// Starts the entry at the key, or puts a new one there, where no row is there, in one search.
fn add_new_one(
    map: &mut BTreeMap<u64, Entry>,
    alloc: Global,
    key: u64,
    extra: &[u64],
) -> Result<bool, Memory>
    ensures ok { IfOk result (IsAddedNew (entries_one map.old.entries) (entries_one map.new.entries) (key ∷ []) extra.now) }
    ensures err { OnErr result (entries_one map.new.entries ≡ entries_one map.old.entries) }
{
    match map.entry(key)? {
        btree_map::Entry::Occupied(own) => own.into_mut().start(alloc, extra),
        btree_map::Entry::Vacant(place) => {
            let entry = Entry::new(alloc, extra)?;
            place.insert(entry);
            Ok(true)
        }
    }
}

/// How many values the first row of a table over one column has.
fn first_width(map: &BTreeMap<u64, Entry>) -> usize {
    let extra = map.values().next().and_then(|first| first.extra());
    extra.map_or(1, |extra| extra.len().saturating_add(1))
}
