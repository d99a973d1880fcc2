//! What the containers of an edge have in common.

ghost use Rattle.std.specs.Prelude.{◌≡◌, ◌<◌, ◌^◌, ◌++◌, ◌↔◌, Bool, IsTrue, None, OnOk, OnErr, IfOk, IsSome, option_copied};
ghost use Rattle.std.specs.FinMap as fin;
ghost use Rattle.rc_edges.specs.Values.{Values};
ghost use Rattle.rc_edges.specs.EdgeMap.{Rows, HasAsMany, HasExtra, IsAddedNew, count_at, current, extra_of, found, listed, once_less, once_more, swept};

use rc_tuple::Memory;

/// The rows of one edge at one row of its source, each at its key with its count.
///
/// A container knows no columns: they are the edge's. A key is the values of the edge's key columns,
/// in their order. A row is kept by its extra values, those of the target's columns that neither the
/// source nor the key has; mostly there are none. A count is how many tuples of the relation have
/// that row. Without the counts this is the map of a decomposition (PLDI 2011, section 3).
///
/// Changes are made in place. A row whose count falls to 0 isn't there any more, but a tombstone of
/// it is kept until it is swept, so that whoever noted the row and its count before a change can put
/// it back without memory.
pub trait EdgeMap: Sized {
    /// The triples (key, extra values, count), rising by the keys, with tombstones, whose count is 0.
    ghost rows: { Self → Rows };

    /// Whether the container takes only keys of one column.
    ghost one_column: { Self → Bool };

    /// Whether the container takes a row at the key.
    ghost may_take: { Self → Values → Type 0 };

    /// Adds the row at the key with the count 1, or raises its count by 1, and answers the count
    /// before. Where memory is wanted nothing changes.
    fn add(&mut self, key: &[u64], extra: &[u64]) -> Result<u64, Memory>
        requires room { count_at (rows self.old) key.now < 2 ^ 63 }
        requires same { HasExtra (found (rows self.old) key.now) extra.now }
        requires single { may_take self.old key.now }
        ensures ok { OnOk result (rows self.new ≡ once_more (rows self.old) key.now extra.now) }
        ensures before { IfOk result (λ before. before ≡ count_at (rows self.old) key.now) }
        ensures err { OnErr result (rows self.new ≡ rows self.old) }
        ensures width { one_column self.new ≡ one_column self.old };

    /// Adds the row at the key with the count 1, where no row is there, and answers whether it did. Where
    /// one is there, or memory is wanted, nothing changes.
    fn add_new(&mut self, key: &[u64], extra: &[u64]) -> Result<bool, Memory>
        requires single { found (rows self.old) key.now ≡ None → may_take self.old key.now }
        ensures ok { IfOk result (IsAddedNew (rows self.old) (rows self.new) key.now extra.now) }
        ensures err { OnErr result (rows self.new ≡ rows self.old) }
        ensures width { one_column self.new ≡ one_column self.old };

    /// Lowers the count of the row that is there at the key by 1, and answers the count before. Takes
    /// no memory.
    fn sub(&mut self, key: &[u64]) -> u64
        requires { IsSome (found (rows self.old) key.now) }
        ensures now { rows self.new ≡ once_less (rows self.old) key.now }
        ensures before { result ≡ count_at (rows self.old) key.now }
        ensures width { one_column self.new ≡ one_column self.old };

    /// Makes the row or tombstone at the key the row with these extra values, as many as it has, and
    /// this count. A singleton takes it too: the caller sees to it that one row is there. Takes no
    /// memory.
    fn put_back(&mut self, key: &[u64], extra: &[u64], count: u64)
        requires { HasAsMany (fin.get (rows self.old) key.now) extra.now }
        ensures now { rows self.new ≡ fin.insert (rows self.old) key.now (extra.now, count) }
        ensures width { one_column self.new ≡ one_column self.old };

    /// Lets a tombstone at the key go. Takes no memory.
    fn sweep(&mut self, key: &[u64])
        ensures now { rows self.new ≡ swept (rows self.old) key.now }
        ensures width { one_column self.new ≡ one_column self.old };

    /// The extra values of the row at the key; `None` exactly where it isn't there.
    fn get(&self, key: &[u64]) -> Option<&[u64]>
        ensures { option_copied result ≡ extra_of (found (rows self.now) key.now) };

    /// Adds for each row that is there its key and then its extra values at the end of the list,
    /// rising by the keys. Where memory is wanted the list stays as it was.
    fn scan(&self, out: &mut Vec<u64>) -> Result<(), Memory>
        ensures ok { OnOk result (out.new.items ≡ out.old.items ++ listed (rows self.now)) }
        ensures err { OnErr result (out.new.items ≡ out.old.items) };

    /// How many rows are there. Costs a step for each, and for each tombstone.
    fn len(&self) -> u64
        ensures { result ≡ fin.len (current (rows self.now)) };

    /// Whether a row is there. Costs a step for each tombstone met before one.
    fn has_row(&self) -> bool
        ensures { IsTrue result ↔ (0 < fin.len (current (rows self.now))) };

    /// Whether nothing is kept, not even a tombstone.
    fn is_gone(&self) -> bool
        ensures { IsTrue result ↔ (rows self.now ≡ fin.empty) };

    /// Another container that keeps the same rows and tombstones.
    fn copy(&self) -> Result<Self, Memory>
        ensures rows { IfOk result (λ map. rows map ≡ rows self.now) }
        ensures width { IfOk result (λ map. one_column map ≡ one_column self.now) };
}
