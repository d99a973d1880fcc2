//! A container of one of the four kinds.

ghost use Rattle.std.specs.Prelude.{◌≡◌, ◌<◌, ◌^◌, ◌++◌, ◌↔◌, IsTrue, None, OnOk, OnErr, IfOk, IsSome, option_copied};
ghost use Rattle.std.specs.FinMap as fin;
ghost use Rattle.rc_edges.specs.EdgeMap.{HasAsMany, HasExtra, IsAddedNew, count_at, extra_of, found, listed, once_less, once_more, swept};
ghost use Rattle.rc_fragment.specs.Container.{form_in, kept_in, now_in, takes, takes_one};

use rc_edges::{EdgeMap, ListMap, OneMap};
use rc_maps::{HashEdge, OrderedEdge, Seed};
use rc_spec::EdgeKind;
use rc_tuple::Memory;
use std::alloc::Global;

/// The rows of an edge at one row of its source, in a container of the edge's kind.
///
/// A hash container is in a block of its own, so that one of another kind is not as large as it.
#[derive(Drop, Debug)]
pub enum Container {
    Hash(Box<HashEdge>),
    Ordered(OrderedEdge),
    List(ListMap),
    Singleton(OneMap),
}

impl Container {
    /// The container of the kind with no row; only a hash container takes memory. Where a table is to
    /// have keys of one column alone, they are plain numbers in it. An ordered container is made for
    /// rows with so many extra values, and takes any.
    pub fn new(
        alloc: Global,
        seed: Seed,
        kind: EdgeKind,
        one_column: bool,
        extra: usize,
    ) -> Result<Self, Memory>
        ensures empty { IfOk result (λ container. kept_in container ≡ fin.empty) }
        ensures form { IfOk result (λ container. form_in container ≡ (kind, takes_one kind one_column)) }
    {
        match kind {
            EdgeKind::Hash => {
                let map = HashEdge::new(alloc, seed, one_column);
                Ok(Container::Hash(Box::new(alloc, map)?))
            }
            EdgeKind::Ordered => {
                let map = OrderedEdge::new(alloc, one_column, extra);
                Ok(Container::Ordered(map))
            }
            EdgeKind::List => Ok(Container::List(ListMap::new(alloc))),
            EdgeKind::Singleton => Ok(Container::Singleton(OneMap::new(alloc))),
        }
    }

    /// Adds the row at the key with the count 1, or raises its count by 1, and answers the count before.
    pub fn add(&mut self, key: &[u64], extra: &[u64]) -> Result<u64, Memory>
        requires room { count_at (kept_in self.old) key.now < 2 ^ 63 }
        requires same { HasExtra (found (kept_in self.old) key.now) extra.now }
        requires single { takes self.old key.now }
        ensures ok { OnOk result (kept_in self.new ≡ once_more (kept_in self.old) key.now extra.now) }
        ensures before { IfOk result (λ before. before ≡ count_at (kept_in self.old) key.now) }
        ensures err { OnErr result (kept_in self.new ≡ kept_in self.old) }
        ensures form { form_in self.new ≡ form_in self.old }
    {
        match self {
            Container::Hash(map) => map.add(key, extra),
            Container::Ordered(map) => map.add(key, extra),
            Container::List(map) => map.add(key, extra),
            Container::Singleton(map) => map.add(key, extra),
        }
    }

    /// Adds the row at the key with the count 1, where no row is there, and answers whether it did.
    pub fn add_new(&mut self, key: &[u64], extra: &[u64]) -> Result<bool, Memory>
        requires { found (kept_in self.old) key.now ≡ None → takes self.old key.now }
        ensures ok { IfOk result (IsAddedNew (kept_in self.old) (kept_in self.new) key.now extra.now) }
        ensures err { OnErr result (kept_in self.new ≡ kept_in self.old) }
        ensures form { form_in self.new ≡ form_in self.old }
    {
        match self {
            Container::Hash(map) => map.add_new(key, extra),
            Container::Ordered(map) => map.add_new(key, extra),
            Container::List(map) => map.add_new(key, extra),
            Container::Singleton(map) => map.add_new(key, extra),
        }
    }

    /// Lowers the count at the key by 1, and answers the count before.
    pub fn sub(&mut self, key: &[u64]) -> u64
        requires { IsSome (found (kept_in self.old) key.now) }
        ensures now { kept_in self.new ≡ once_less (kept_in self.old) key.now }
        ensures before { result ≡ count_at (kept_in self.old) key.now }
        ensures form { form_in self.new ≡ form_in self.old }
    {
        match self {
            Container::Hash(map) => map.sub(key),
            Container::Ordered(map) => map.sub(key),
            Container::List(map) => map.sub(key),
            Container::Singleton(map) => map.sub(key),
        }
    }

    /// Makes the row or tombstone at the key the row with these extra values and this count.
    pub fn put_back(&mut self, key: &[u64], extra: &[u64], count: u64)
        requires { HasAsMany (fin.get (kept_in self.old) key.now) extra.now }
        ensures now { kept_in self.new ≡ fin.insert (kept_in self.old) key.now (extra.now, count) }
        ensures form { form_in self.new ≡ form_in self.old }
    {
        match self {
            Container::Hash(map) => map.put_back(key, extra, count),
            Container::Ordered(map) => map.put_back(key, extra, count),
            Container::List(map) => map.put_back(key, extra, count),
            Container::Singleton(map) => map.put_back(key, extra, count),
        }
    }

    /// Lets a tombstone at the key go.
    pub fn sweep(&mut self, key: &[u64])
        ensures now { kept_in self.new ≡ swept (kept_in self.old) key.now }
        ensures form { form_in self.new ≡ form_in self.old }
    {
        match self {
            Container::Hash(map) => map.sweep(key),
            Container::Ordered(map) => map.sweep(key),
            Container::List(map) => map.sweep(key),
            Container::Singleton(map) => map.sweep(key),
        }
    }

    /// The extra values of the row at the key, if it is there.
    pub fn get(&self, key: &[u64]) -> Option<&[u64]>
        ensures { option_copied result ≡ extra_of (found (kept_in self.now) key.now) }
    {
        match self {
            Container::Hash(map) => map.get(key),
            Container::Ordered(map) => map.get(key),
            Container::List(map) => map.get(key),
            Container::Singleton(map) => map.get(key),
        }
    }

    /// Adds of each row that is there its key and then its extra values at the end of the list, rising by the keys.
    pub fn scan(&self, out: &mut Vec<u64>) -> Result<(), Memory>
        ensures ok { OnOk result (out.new.items ≡ out.old.items ++ listed (kept_in self.now)) }
        ensures err { OnErr result (out.new.items ≡ out.old.items) }
    {
        match self {
            Container::Hash(map) => map.scan(out),
            Container::Ordered(map) => map.scan(out),
            Container::List(map) => map.scan(out),
            Container::Singleton(map) => map.scan(out),
        }
    }

    /// How many rows there are.
    pub fn len(&self) -> u64
        ensures { result ≡ fin.len (now_in self.now) }
    {
        match self {
            Container::Hash(map) => map.len(),
            Container::Ordered(map) => map.len(),
            Container::List(map) => map.len(),
            Container::Singleton(map) => map.len(),
        }
    }

    /// Whether there is a row. Costs a step for each tombstone met before one.
    pub fn has_row(&self) -> bool
        ensures { IsTrue result ↔ (0 < fin.len (now_in self.now)) }
    {
        match self {
            Container::Hash(map) => map.has_row(),
            Container::Ordered(map) => map.has_row(),
            Container::List(map) => map.has_row(),
            Container::Singleton(map) => map.has_row(),
        }
    }

    /// Whether nothing is kept, not even a tombstone.
    pub fn is_gone(&self) -> bool
        ensures { IsTrue result ↔ (kept_in self.now ≡ fin.empty) }
    {
        match self {
            Container::Hash(map) => map.is_gone(),
            Container::Ordered(map) => map.is_gone(),
            Container::List(map) => map.is_gone(),
            Container::Singleton(map) => map.is_gone(),
        }
    }

    /// Another container that keeps the same rows and tombstones.
    pub fn copy(&self) -> Result<Self, Memory>
        ensures rows { IfOk result (λ copy. kept_in copy ≡ kept_in self.now) }
        ensures form { IfOk result (λ copy. form_in copy ≡ form_in self.now) }
    {
        match self {
            Container::Hash(map) => {
                let copy = map.copy()?;
                Ok(Container::Hash(Box::new(*Box::allocator(map), copy)?))
            }
            Container::Ordered(map) => Ok(Container::Ordered(map.copy()?)),
            Container::List(map) => Ok(Container::List(map.copy()?)),
            Container::Singleton(map) => Ok(Container::Singleton(map.copy()?)),
        }
    }
}
