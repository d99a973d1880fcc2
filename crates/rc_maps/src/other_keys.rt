//! A hash map from keys of any number of columns but two.

ghost use Rattle.std.specs.Prelude.{IsTrue};
ghost use Rattle.std.specs.Map.{keys_of};
ghost use Rattle.rc_maps.specs.KeyLengths.{none_has_two};

use crate::Seed;
use rc_tuple::Memory;
use std::alloc::Global;
use std::collections::HashMap;

/// A hash map from keys of any number of columns but two, each in a block of its own.
#[derive(Drop, Debug)]
pub struct OtherKeys<V> {
    pub(crate) map: HashMap<Vec<u64>, V, Seed>,
    ghost none_has_two: { IsTrue (none_has_two (keys_of map.entries)) },
}

impl<V> OtherKeys<V> {
    ghost use Rattle.std.specs.Prelude.{◌≡◌, [], length, OnOk, OnErr};
    ghost use Rattle.std.specs.Borrow.{sem};
    ghost use Rattle.std.specs.Option.{option_copied_mut};
    ghost use Rattle.std.specs.FinMap as fin;
    ghost use Rattle.rc_maps.specs.OtherKeys.{others_of, lends_other};

    /// The map with no key, which takes no memory.
    pub(crate) fn new(alloc: Global, seed: Seed) -> Self
        ensures { result.map.entries ≡ [] }
    {
        OtherKeys {
            map: HashMap::with_hasher(alloc, seed),
        }
    }

    /// The value at the key, if there is one, to be changed.
    // It stands apart as that of pairs does.
    #[inline(never)]
    pub(crate) fn get_mut(&mut self, key: &[u64]) -> Option<&mut V>
        ensures* writes_back { sem 𝓛 (lends_other V.row self.entry key.now result) }
        ensures value { option_copied_mut result ≡ fin.get (others_of self.old) key.now }
    {
        self.map.get_mut(key)
    }

    /// Puts the value at the key, in place of one that is there. Where memory is wanted nothing
    /// changes.
    pub(crate) fn insert(&mut self, key: Vec<u64>, value: V) -> Result<(), Memory>
    where
        V: Drop,
        requires { length key.items ≡ 2 → ⊥ }
        ensures ok { OnOk result (others_of self.new ≡ fin.insert (others_of self.old) key.items value) }
        ensures err { OnErr result (others_of self.new ≡ others_of self.old) }
    {
        self.map.insert(key, value)?;
        Ok(())
    }

    /// Takes out the value at the key, if there is one.
    pub(crate) fn remove(&mut self, key: &[u64]) -> Option<V>
        ensures value { result ≡ fin.get (others_of self.old) key.now }
        ensures entries { others_of self.new ≡ fin.remove (others_of self.old) key.now }
    {
        self.map.remove(key)
    }
}
