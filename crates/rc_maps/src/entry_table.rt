//! What the tables under an edge's containers have in common.

ghost use Rattle.std.specs.Prelude.{◌≡◌, ◌↔◌, ◌++◌, ◌<◌, ◌^◌, Bool, IsTrue, None, map, OnOk, OnErr, IfOk, option_copied};
ghost use Rattle.std.specs.Borrow.{sem};
ghost use Rattle.std.specs.List.{All};
ghost use Rattle.std.specs.Option.{option_copied_mut};
ghost use Rattle.std.specs.FinMap as fin;
ghost use Rattle.rc_edges.specs.EdgeMap.{Rows, HasExtra, HasWidth, IsAddedNew, count_at, current, found, listed, once_more};
ghost use Rattle.rc_maps.specs.Keyed.{AreApart, pair_of};
ghost use Rattle.rc_maps.specs.TableEdge.{lends_entry};

use crate::Keyed;
use rc_edges::Entry;
use rc_tuple::Memory;
use std::alloc::Global;

/// A table of entries by their keys.
pub trait EntryTable: Sized {
    /// The entries by their keys.
    ghost entries: { Self → Rows };

    /// Whether only keys of one column are taken.
    ghost one_column: { Self → Bool };

    /// The entry at the key, if there is one.
    fn entry(&self, key: &[u64]) -> Option<&Entry>
        ensures { option_copied result ≡ fin.get (entries self.now) key.now };

    /// The entry at the key, if there is one, to be changed.
    fn entry_mut(&mut self, key: &[u64]) -> Option<&mut Entry>
        ensures* writes_back { sem 𝓛 (lends_entry Self.row entries one_column self.entry key.now result) }
        ensures value { option_copied_mut result ≡ fin.get (entries self.old) key.now };

    /// Raises the count of the entry's row at the key by 1, or puts a new entry with the row's count 1
    /// there, and answers the count before. Where memory is wanted nothing changes. Costs one search,
    /// and a second one for a new key in a block of its own.
    fn raise(&mut self, alloc: Global, key: &[u64], extra: &[u64]) -> Result<u64, Memory>
        requires width { HasWidth (one_column self.old) key.now }
        requires room { count_at (entries self.old) key.now < 2 ^ 63 }
        requires same { HasExtra (found (entries self.old) key.now) extra.now }
        ensures ok { OnOk result (entries self.new ≡ once_more (entries self.old) key.now extra.now) }
        ensures before { IfOk result (λ before. before ≡ count_at (entries self.old) key.now) }
        ensures err { OnErr result (entries self.new ≡ entries self.old) }
        ensures width { one_column self.new ≡ one_column self.old };

    /// Puts a new entry with the row's count 1 at the key, or starts the tombstone's there, where no row is
    /// there, and answers whether none was. Where one is there, or memory is wanted, nothing changes.
    /// Costs what `raise` does.
    fn add_new(&mut self, alloc: Global, key: &[u64], extra: &[u64]) -> Result<bool, Memory>
        requires { found (entries self.old) key.now ≡ None → HasWidth (one_column self.old) key.now }
        ensures ok { IfOk result (IsAddedNew (entries self.old) (entries self.new) key.now extra.now) }
        ensures err { OnErr result (entries self.new ≡ entries self.old) }
        ensures width { one_column self.new ≡ one_column self.old };

    /// Puts the entry at the key. Where memory is wanted nothing changes.
    fn put(&mut self, key: &[u64], entry: Entry) -> Result<(), Memory>
        requires { HasWidth (one_column self.old) key.now }
        ensures ok { OnOk result (entries self.new ≡ fin.insert (entries self.old) key.now entry) }
        ensures err { OnErr result (entries self.new ≡ entries self.old) }
        ensures width { one_column self.new ≡ one_column self.old };

    /// The same in two searches for a key that isn't there, since one that is there is not to cost a
    /// block: a table's `raise` for keys in blocks of their own.
    fn raise_any(&mut self, alloc: Global, key: &[u64], extra: &[u64]) -> Result<u64, Memory>
        requires width { HasWidth (one_column self.old) key.now }
        requires room { count_at (entries self.old) key.now < 2 ^ 63 }
        requires same { HasExtra (found (entries self.old) key.now) extra.now }
        ensures ok { OnOk result (entries self.new ≡ once_more (entries self.old) key.now extra.now) }
        ensures before { IfOk result (λ before. before ≡ count_at (entries self.old) key.now) }
        ensures err { OnErr result (entries self.new ≡ entries self.old) }
        ensures width { one_column self.new ≡ one_column self.old }
    {
        if let Some(entry) = self.entry_mut(key) {
            return entry.raise(alloc, extra);
        }
        let entry = Entry::new(alloc, extra)?;
        self.put(key, entry)?;
        Ok(0)
    }

    /// A table's `add_new` for keys in blocks of their own, in two searches for a key that isn't there.
    fn add_new_any(&mut self, alloc: Global, key: &[u64], extra: &[u64]) -> Result<bool, Memory>
        requires { found (entries self.old) key.now ≡ None → HasWidth (one_column self.old) key.now }
        ensures ok { IfOk result (IsAddedNew (entries self.old) (entries self.new) key.now extra.now) }
        ensures err { OnErr result (entries self.new ≡ entries self.old) }
        ensures width { one_column self.new ≡ one_column self.old }
    {
        if let Some(entry) = self.entry_mut(key) {
            return entry.start(alloc, extra);
        }
        let entry = Entry::new(alloc, extra)?;
        self.put(key, entry)?;
        Ok(true)
    }

    /// Takes out the entry at the key, if there is one.
    fn take_out(&mut self, key: &[u64])
        ensures entries { entries self.new ≡ fin.remove (entries self.old) key.now }
        ensures width { one_column self.new ≡ one_column self.old };

    /// Each entry with its key, in the table's order.
    fn all(&self, alloc: Global) -> Result<Vec<Keyed<'_, Entry>>, Memory>
        ensures apart { IfOk result (λ all. AreApart (map pair_of all.items)) }
        ensures entries { IfOk result (λ all. fin.from_entries (map pair_of all.items) ≡ entries self.now) }
        ensures widths { IfOk result (λ all. All (λ k. HasWidth (one_column self.now) k.key.now) all.items) };

    /// Adds for each row that is there its key and then its extra values at the end of the list,
    /// rising by the keys. Where memory is wanted the list stays as it was. The allocator is for the
    /// list that a hash table sorts; a table in the order of its keys takes nothing from it.
    fn push_rising(&self, alloc: Global, out: &mut Vec<u64>) -> Result<(), Memory>
        ensures ok { OnOk result (out.new.items ≡ out.old.items ++ listed (entries self.now)) }
        ensures err { OnErr result (out.new.items ≡ out.old.items) };

    /// How many entries' rows are there. Costs a step for each entry.
    fn count(&self) -> u64
        ensures { result ≡ fin.len (current (entries self.now)) };

    /// Whether an entry has a row. Costs a step for each entry met before one, a tombstone, and in a hash
    /// table the places without one besides.
    fn has_row(&self) -> bool
        ensures { IsTrue result ↔ (0 < fin.len (current (entries self.now))) };

    /// Whether there is no entry.
    fn has_none(&self) -> bool
        ensures { IsTrue result ↔ (entries self.now ≡ fin.empty) };

    /// A table with no entry that takes the same keys. Takes no memory.
    fn another(&self, alloc: Global) -> Self
        ensures empty { entries result ≡ fin.empty }
        ensures width { one_column result ≡ one_column self.now };
}
