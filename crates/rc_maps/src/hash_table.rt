//! A hash table whose keys are lists of values.

ghost use Rattle.std.specs.Prelude.{◌≡◌, ◌<◌, ◌^◌, [], ◌∷◌, ◌↔◌, IsTrue, map, IfOk, OnOk, OnErr, option_copied};
ghost use Rattle.std.specs.List.{All};
ghost use Rattle.std.specs.Borrow.{sem};
ghost use Rattle.std.specs.Option.{option_copied_mut};
ghost use Rattle.std.specs.FinMap as fin;
ghost use Rattle.rc_edges.specs.EdgeMap.{HasExtra, HasWidth, IsAddedNew, count_at, found, once_more};
ghost use Rattle.rc_maps.specs.HashTable.{entries_of, has_one_column, lends_value};
ghost use Rattle.rc_maps.specs.Keyed.{AreApart, entries_one, pair_of};

use crate::keyed::{add_rows, has_row, only};
use crate::other_keys::OtherKeys;
use crate::pair_keys::{PairKeys, both};
use crate::{EntryTable, Keyed, Seed};
use rc_edges::Entry;
use rc_tuple::Memory;
use std::alloc::Global;
use std::collections::{HashMap, hash_map};
use std::slice;

/// A hash table from lists of values to values of one type.
///
/// Keys of one column are plain numbers, and those of two are pairs: neither takes memory of its
/// own. A key of any other length is in a block of its own. A look-up hashes the key once, and takes
/// no memory. A table is made by `new`.
#[derive(Drop, Debug)]
pub enum HashTable<V> {
    /// Keys of one column.
    One(HashMap<u64, V, Seed>),
    /// Keys of any columns: those of two, and all others.
    Many {
        /// Keys of two columns.
        pairs: PairKeys<V>,
        /// Keys of any other number of columns, each in a block of its own.
        others: OtherKeys<V>,
        /// Where these blocks are taken.
        alloc: Global,
    },
}

impl<V> HashTable<V> {
    /// The table with no key, which takes no memory: it takes keys of one column alone, or any.
    pub fn new(alloc: Global, seed: Seed, one_column: bool) -> Self
        ensures empty { entries_of result ≡ fin.empty }
        ensures width { has_one_column result ≡ one_column }
    {
        if one_column {
            HashTable::One(HashMap::with_hasher(alloc, seed))
        } else {
            HashTable::Many {
                pairs: PairKeys::new(alloc, seed),
                others: OtherKeys::new(alloc, seed),
                alloc,
            }
        }
    }

    /// The value at the key, if there is one.
    pub fn get(&self, key: &[u64]) -> Option<&V>
        ensures { option_copied result ≡ fin.get (entries_of self.now) key.now }
    {
        match self {
            HashTable::One(map) => match only(key) {
                Some(value) => map.get(value),
                None => None,
            },
            HashTable::Many { pairs, others, .. } => match both(key) {
                Some(pair) => pairs.map.get(pair),
                None => others.map.get(key),
            },
        }
    }

    /// The value at the key, if there is one, to be changed.
    pub fn get_mut(&mut self, key: &[u64]) -> Option<&mut V>
        ensures* writes_back { sem 𝓛 (lends_value V.row self.entry key.now result) }
        ensures value { option_copied_mut result ≡ fin.get (entries_of self.old) key.now }
    {
        // The length comes first, so that each arm lends from one map alone.
        match both(key) {
            Some(pair) => match self {
                HashTable::One(_) => None,
                HashTable::Many { pairs, .. } => pairs.get_mut(pair),
            },
            None => match self {
                HashTable::One(map) => match only(key) {
                    Some(value) => map.get_mut(value),
                    None => None,
                },
                HashTable::Many { others, .. } => others.get_mut(key),
            },
        }
    }

    /// Puts the value at the key, in place of one that is there. Where memory is wanted nothing
    /// changes.
    pub fn insert(&mut self, key: &[u64], value: V) -> Result<(), Memory>
    where
        V: Drop,
        requires { HasWidth (has_one_column self.old) key.now }
        ensures ok { OnOk result (entries_of self.new ≡ fin.insert (entries_of self.old) key.now value) }
        ensures err { OnErr result (entries_of self.new ≡ entries_of self.old) }
        ensures width { has_one_column self.new ≡ has_one_column self.old }
    {
        match self {
            HashTable::One(map) => {
                let Some(only) = only(key) else {
                    unreachable!();
                };
                map.insert(*only, value)?;
            }
            HashTable::Many {
                pairs,
                others,
                alloc,
            } => match both(key) {
                Some(pair) => pairs.insert(pair, value)?,
                None => {
                    let key = Vec::from_slice(*alloc, key)?;
                    others.insert(key, value)?;
                }
            },
        }
        Ok(())
    }

    /// Takes out the value at the key, if there is one.
    pub fn remove(&mut self, key: &[u64]) -> Option<V>
        ensures value { result ≡ fin.get (entries_of self.old) key.now }
        ensures entries { entries_of self.new ≡ fin.remove (entries_of self.old) key.now }
        ensures width { has_one_column self.new ≡ has_one_column self.old }
    {
        match self {
            HashTable::One(map) => match only(key) {
                Some(value) => map.remove(value),
                None => None,
            },
            HashTable::Many { pairs, others, .. } => match both(key) {
                Some(pair) => pairs.remove(pair),
                None => others.remove(key),
            },
        }
    }

    /// Whether no key is there.
    pub fn is_empty(&self) -> bool
        ensures { IsTrue result ↔ (entries_of self.now ≡ fin.empty) }
    {
        match self {
            HashTable::One(map) => map.is_empty(),
            HashTable::Many { pairs, others, .. } => pairs.map.is_empty() && others.map.is_empty(),
        }
    }

    /// Each value with its key, in the table's order. Takes a list of all, and no look-up.
    pub fn keyed(&self, alloc: Global) -> Result<Vec<Keyed<'_, V>>, Memory>
        ensures apart { IfOk result (λ all. AreApart (map pair_of all.items)) }
        ensures entries { IfOk result (λ all. fin.from_entries (map pair_of all.items) ≡ entries_of self.now) }
        ensures widths { IfOk result (λ all. All (λ k. HasWidth (has_one_column self.now) k.key.now) all.items) }
    {
        match self {
            HashTable::One(map) => {
                let mut all = Vec::with_capacity(alloc, map.len())?;
                for (key, value) in map {
                    let key = slice::from_ref(key);
                    all.push(Keyed { key, value })?;
                }
                Ok(all)
            }
            HashTable::Many { pairs, others, .. } => {
                let (pairs, others) = (&pairs.map, &others.map);
                let len = pairs.len().saturating_add(others.len());
                let mut all = Vec::with_capacity(alloc, len)?;
                for (pair, value) in pairs {
                    let key = pair.as_slice();
                    all.push(Keyed { key, value })?;
                }
                for (key, value) in others {
                    let key = key.as_slice();
                    all.push(Keyed { key, value })?;
                }
                Ok(all)
            }
        }
    }
}

impl EntryTable for HashTable<Entry> {
    ghost entries = { entries_of };

    ghost one_column = { has_one_column };

    fn entry(&self, key: &[u64]) -> Option<&Entry> {
        self.get(key)
    }

    fn entry_mut(&mut self, key: &[u64]) -> Option<&mut Entry> {
        self.get_mut(key)
    }

    fn raise(&mut self, alloc: Global, key: &[u64], extra: &[u64]) -> Result<u64, Memory> {
        match self {
            HashTable::One(map) => {
                let Some(only) = only(key) else {
                    unreachable!();
                };
                raise_one(map, alloc, *only, extra)
            }
            HashTable::Many { pairs, .. } => match both(key) {
                Some(pair) => pairs.raise(alloc, pair, extra),
                None => self.raise_any(alloc, key, extra),
            },
        }
    }

    fn add_new(&mut self, alloc: Global, key: &[u64], extra: &[u64]) -> Result<bool, Memory> {
        match self {
            HashTable::One(map) => {
                let Some(only) = only(key) else {
                    unreachable!();
                };
                add_new_one(map, alloc, *only, extra)
            }
            HashTable::Many { pairs, .. } => match both(key) {
                Some(pair) => pairs.add_new(alloc, pair, extra),
                None => self.add_new_any(alloc, key, extra),
            },
        }
    }

    fn put(&mut self, key: &[u64], entry: Entry) -> Result<(), Memory> {
        self.insert(key, entry)
    }

    fn take_out(&mut self, key: &[u64]) {
        let _ = self.remove(key);
    }

    fn all(&self, alloc: Global) -> Result<Vec<Keyed<'_, Entry>>, Memory> {
        self.keyed(alloc)
    }

    fn push_rising(&self, alloc: Global, out: &mut Vec<u64>) -> Result<(), Memory> {
        let mut all = self.keyed(alloc)?;
        all.sort_unstable_by(|keyed, other| keyed.key.cmp(&other.key));
        add_rows(&all, out)
    }

    fn count(&self) -> u64 {
        match self {
            HashTable::One(map) => map.values().filter(|entry| has_row(entry)).count() as u64,
            HashTable::Many { pairs, others, .. } => {
                let in_pairs = pairs.map.values().filter(|entry| has_row(entry)).count();
                let in_others = others.map.values().filter(|entry| has_row(entry)).count();
                in_pairs as u64 + in_others as u64
            }
        }
    }

    fn has_row(&self) -> bool {
        match self {
            HashTable::One(map) => map.values().any(has_row),
            HashTable::Many { pairs, others, .. } => {
                let mut in_pairs = pairs.map.values();
                let mut in_others = others.map.values();
                in_pairs.any(has_row) || in_others.any(has_row)
            }
        }
    }

    fn has_none(&self) -> bool {
        self.is_empty()
    }

    fn another(&self, alloc: Global) -> Self {
        match self {
            HashTable::One(map) => HashTable::new(alloc, *map.hasher(), true),
            HashTable::Many { pairs, .. } => HashTable::new(alloc, *pairs.map.hasher(), false),
        }
    }
}

/// Raises the entry at the key, or puts a new one there, in one search.
fn raise_one(
    map: &mut HashMap<u64, Entry, Seed>,
    alloc: Global,
    key: u64,
    extra: &[u64],
) -> Result<u64, Memory>
    requires room { count_at (entries_one map.old.entries) (key ∷ []) < 2 ^ 63 }
    requires same { HasExtra (found (entries_one map.old.entries) (key ∷ [])) extra.now }
    ensures ok { OnOk result (entries_one map.new.entries ≡ once_more (entries_one map.old.entries) (key ∷ []) extra.now) }
    ensures before { IfOk result (λ before. before ≡ count_at (entries_one map.old.entries) (key ∷ [])) }
    ensures err { OnErr result (entries_one map.new.entries ≡ entries_one map.old.entries) }
{
    match map.entry(key)? {
        hash_map::Entry::Occupied(own) => own.into_mut().raise(alloc, extra),
        hash_map::Entry::Vacant(place) => {
            let entry = Entry::new(alloc, extra)?;
            place.insert(entry);
            Ok(0)
        }
    }
}

/// Starts the entry at the key, or puts a new one there, where no row is there, in one search.
fn add_new_one(
    map: &mut HashMap<u64, Entry, Seed>,
    alloc: Global,
    key: u64,
    extra: &[u64],
) -> Result<bool, Memory>
    ensures ok { IfOk result (IsAddedNew (entries_one map.old.entries) (entries_one map.new.entries) (key ∷ []) extra.now) }
    ensures err { OnErr result (entries_one map.new.entries ≡ entries_one map.old.entries) }
{
    match map.entry(key)? {
        hash_map::Entry::Occupied(own) => own.into_mut().start(alloc, extra),
        hash_map::Entry::Vacant(place) => {
            let entry = Entry::new(alloc, extra)?;
            place.insert(entry);
            Ok(true)
        }
    }
}
