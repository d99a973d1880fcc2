//! A hash map from keys of two columns.

ghost use Rattle.std.specs.Prelude.{◌≡◌, IsTrue, IfSome, IfNone, length};
ghost use Rattle.std.specs.Map.{keys_of};
ghost use Rattle.rc_maps.specs.KeyLengths.{all_have_two};

use crate::Seed;
use rc_edges::Entry;
use rc_tuple::Memory;
use std::alloc::Global;
use std::collections::{HashMap, hash_map};

/// A hash map from keys of two columns, which take no memory of their own.
#[derive(Drop, Debug)]
pub struct PairKeys<V> {
    pub(crate) map: HashMap<[u64; 2], V, Seed>,
    ghost all_have_two: { IsTrue (all_have_two (keys_of map.entries)) },
}

impl<V> PairKeys<V> {
    ghost use Rattle.std.specs.Prelude.{[], OnOk, OnErr};
    ghost use Rattle.std.specs.Borrow.{sem};
    ghost use Rattle.std.specs.Option.{option_copied_mut};
    ghost use Rattle.std.specs.FinMap as fin;
    ghost use Rattle.rc_maps.specs.PairKeys.{pairs_of, lends_paired};

    /// The map with no key, which takes no memory.
    pub(crate) fn new(alloc: Global, seed: Seed) -> Self
        ensures { result.map.entries ≡ [] }
    {
        PairKeys {
            map: HashMap::with_hasher(alloc, seed),
        }
    }

    /// The value at the key, if there is one, to be changed.
    // Keys of one column, of which most tables are, go by it: it stands apart, so that their way stays small.
    #[inline(never)]
    pub(crate) fn get_mut(&mut self, key: &[u64; 2]) -> Option<&mut V>
        ensures* writes_back { sem 𝓛 (lends_paired V.row self.entry key.now result) }
        ensures value { option_copied_mut result ≡ fin.get (pairs_of self.old) key.now }
    {
        self.map.get_mut(key)
    }

    /// Puts the value at the key, in place of one that is there. Where memory is wanted nothing
    /// changes.
    pub(crate) fn insert(&mut self, key: &[u64; 2], value: V) -> Result<(), Memory>
    where
        V: Drop,
        requires { length key.now ≡ 2 }
        ensures ok { OnOk result (pairs_of self.new ≡ fin.insert (pairs_of self.old) key.now value) }
        ensures err { OnErr result (pairs_of self.new ≡ pairs_of self.old) }
    {
        self.map.insert(*key, value)?;
        Ok(())
    }

    /// Takes out the value at the key, if there is one.
    pub(crate) fn remove(&mut self, key: &[u64; 2]) -> Option<V>
        ensures value { result ≡ fin.get (pairs_of self.old) key.now }
        ensures entries { pairs_of self.new ≡ fin.remove (pairs_of self.old) key.now }
    {
        self.map.remove(key)
    }
}

impl PairKeys<Entry> {
    ghost use Rattle.std.specs.Prelude.{◌<◌, ◌^◌, IfOk, OnOk, OnErr};
    ghost use Rattle.rc_edges.specs.EdgeMap.{HasExtra, IsAddedNew, count_at, found, once_more};
    ghost use Rattle.rc_maps.specs.PairKeys.{pairs_of};

    /// Raises the entry at the key, or puts a new one there, in one search.
    pub(crate) fn raise(
        &mut self,
        alloc: Global,
        key: &[u64; 2],
        extra: &[u64],
    ) -> Result<u64, Memory>
        requires two { length key.now ≡ 2 }
        requires room { count_at (pairs_of self.old) key.now < 2 ^ 63 }
        requires same { HasExtra (found (pairs_of self.old) key.now) extra.now }
        ensures ok { OnOk result (pairs_of self.new ≡ once_more (pairs_of self.old) key.now extra.now) }
        ensures before { IfOk result (λ before. before ≡ count_at (pairs_of self.old) key.now) }
        ensures err { OnErr result (pairs_of self.new ≡ pairs_of self.old) }
    {
        match self.map.entry(*key)? {
            hash_map::Entry::Occupied(own) => own.into_mut().raise(alloc, extra),
            hash_map::Entry::Vacant(place) => {
                let entry = Entry::new(alloc, extra)?;
                place.insert(entry);
                Ok(0)
            }
        }
    }

    /// Starts the entry at the key, or puts a new one there, where no row is there, in one search.
    pub(crate) fn add_new(
        &mut self,
        alloc: Global,
        key: &[u64; 2],
        extra: &[u64],
    ) -> Result<bool, Memory>
        requires { length key.now ≡ 2 }
        ensures ok { IfOk result (IsAddedNew (pairs_of self.old) (pairs_of self.new) key.now extra.now) }
        ensures err { OnErr result (pairs_of self.new ≡ pairs_of self.old) }
    {
        match self.map.entry(*key)? {
            hash_map::Entry::Occupied(own) => own.into_mut().start(alloc, extra),
            hash_map::Entry::Vacant(place) => {
                let entry = Entry::new(alloc, extra)?;
                place.insert(entry);
                Ok(true)
            }
        }
    }
}

/// The values of a key of two columns; `None` where the key has another length.
pub(crate) fn both(key: &[u64]) -> Option<&[u64; 2]>
    ensures same { IfSome result (λ pair. pair.now ≡ key.now) }
    ensures two { IfSome result (λ pair. length key.now ≡ 2) }
    ensures other { IfNone result (length key.now ≡ 2 → ⊥) }
{
    key.as_array()
}
