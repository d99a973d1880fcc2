//! The container of kind list.

ghost use Rattle.std.specs.Prelude.{◌≡◌, ◌<◌, ◌≤◌, ◌++◌, false, length, take, IfOk, IfErr, IfSome, IfNone, OnOk, OnErr, [], ◌∷◌};
ghost use Rattle.std.specs.List.{list_any};
ghost use Rattle.std.specs.FinMap as fin;
ghost use Rattle.rc_edges.specs.Values.{values_cmp};
ghost use Rattle.rc_edges.specs.ListMap.{IsAt, IsGap, count_in, is_filled, rows_in, values_in};

use crate::{EdgeMap, Entry, Key};
use rc_tuple::Memory;
use std::alloc::Global;
use std::cmp::Ordering;
use std::marker::Model;

/// A list of entries that rises by their keys, in which a key is looked for from the front. It
/// suits an edge with few keys at each row of its source.
#[derive(Drop, Debug)]
pub struct ListMap {
    items: Vec<(Key, Entry)>,
}

impl Model for ListMap {
    ghost use Rattle.rc_edges.specs.EdgeMap.{Rows, rows_code};

    ghost Value = { Rows };

    ghost coded = { rows_code };

    ghost use Rattle.rc_edges.specs.ListMap.{IsKeyed, rows_in};

    ghost view = { λ a. rows_in a.items.items };

    ghost invariant = { λ a. IsKeyed a.items.items };
}

impl ListMap {
    /// The container with no row, which takes no memory.
    pub fn new(alloc: Global) -> Self
        ensures { result ≡ fin.empty }
    {
        ListMap {
            items: Vec::new(alloc),
        }
    }

    /// A container with a copy of this entry alone.
    pub(crate) fn alone(alloc: Global, key: &Key, entry: &Entry) -> Result<Self, Memory>
        ensures { IfOk result (λ list. list ≡ rows_in ((key.now, entry.now) ∷ [])) }
    {
        let mut items = Vec::with_capacity(alloc, 2)?;
        items.push((key.copy()?, entry.copy()?))?;
        Ok(ListMap { items })
    }

    /// Takes out the only entry, if there is just one.
    pub(crate) fn take_only(&mut self) -> Option<(Key, Entry)>
        ensures only { IfSome result (λ i. rows_in (i ∷ []) ≡ self.old) }
        ensures none { IfNone result (self.new ≡ self.old) }
    {
        if self.items.len() == 1 {
            self.items.pop()
        } else {
            None
        }
    }
}

impl EdgeMap for ListMap {
    ghost rows = { λ map. map };

    ghost one_column = { λ _. false };

    ghost may_take = { λ _ _. Unit {0} };

    fn add(&mut self, key: &[u64], extra: &[u64]) -> Result<u64, Memory> {
        let alloc = *self.items.allocator();
        match place(&self.items, key) {
            Ok(at) => {
                let item = &mut self.items[at];
                item.1.raise(alloc, extra)
            }
            Err(at) => {
                let entry = Entry::new(alloc, extra)?;
                let key = Key::new(alloc, key)?;
                self.items.insert(at, (key, entry))?;
                Ok(0)
            }
        }
    }

    fn add_new(&mut self, key: &[u64], extra: &[u64]) -> Result<bool, Memory> {
        let alloc = *self.items.allocator();
        match place(&self.items, key) {
            Ok(at) => {
                let item = &mut self.items[at];
                item.1.start(alloc, extra)
            }
            Err(at) => {
                let entry = Entry::new(alloc, extra)?;
                let key = Key::new(alloc, key)?;
                self.items.insert(at, (key, entry))?;
                Ok(true)
            }
        }
    }

    fn sub(&mut self, key: &[u64]) -> u64 {
        let Ok(at) = place(&self.items, key) else {
            unreachable!();
        };
        let item = &mut self.items[at];
        item.1.lower()
    }

    fn put_back(&mut self, key: &[u64], extra: &[u64], count: u64) {
        let Ok(at) = place(&self.items, key) else {
            unreachable!();
        };
        let item = &mut self.items[at];
        item.1.put_back(extra, count);
    }

    fn sweep(&mut self, key: &[u64]) {
        let Ok(at) = place(&self.items, key) else {
            return;
        };
        let item = &self.items[at];
        if item.1.is_tombstone() {
            self.items.remove(at);
        }
    }

    fn get(&self, key: &[u64]) -> Option<&[u64]> {
        match place(&self.items, key) {
            Ok(at) => {
                let item = &self.items[at];
                item.1.extra()
            }
            Err(_) => None,
        }
    }

    fn scan(&self, out: &mut Vec<u64>) -> Result<(), Memory> {
        let len = out.len();
        match push_rows(&self.items, out) {
            Ok(()) => Ok(()),
            Err(memory) => {
                out.truncate(len);
                Err(memory)
            }
        }
    }

    fn len(&self) -> u64 {
        count_rows(&self.items)
    }

    fn has_row(&self) -> bool {
        has_filled(&self.items)
    }

    fn is_gone(&self) -> bool {
        self.items.as_slice().is_empty()
    }

    fn copy(&self) -> Result<Self, Memory> {
        let items = copy_of(*self.items.allocator(), &self.items)?;
        Ok(ListMap { items })
    }
}

/// Compares a key with these values.
fn order(key: &Key, values: &[u64]) -> Ordering
    ensures { result ≡ values_cmp key.now values.now }
{
    key.values().cmp(&values)
}

/// The place of the item with the key that has these values, or else that where it would go.
fn place(items: &[(Key, Entry)], key: &[u64]) -> Result<usize, usize>
    ensures found { IfOk result (λ at. IsAt key.now items.now at) }
    ensures within { IfOk result (λ at. at < length items.now) }
    ensures gap { IfErr result (λ at. IsGap key.now items.now at) }
    ensures end { IfErr result (λ at. at ≤ length items.now) }
{
    for (at, item) in items.iter().enumerate() {
        match order(&item.0, key) {
            Ordering::Less => {}
            Ordering::Equal => return Ok(at),
            Ordering::Greater => return Err(at),
        }
    }
    Err(items.len())
}

/// Adds each row's key and extra values at the end; where memory is wanted some may have been added.
pub(crate) fn push_rows(items: &[(Key, Entry)], out: &mut Vec<u64>) -> Result<(), Memory>
    ensures ok { OnOk result (out.new.items ≡ out.old.items ++ values_in items.now) }
    ensures err { OnErr result (take (length out.old.items) out.new.items ≡ out.old.items) }
{
    for item in items {
        item.1.push_row(item.0.values(), out)?;
    }
    Ok(())
}

/// How many of the items' rows are there.
fn count_rows(items: &[(Key, Entry)]) -> u64
    ensures { result ≡ count_in items.now }
{
    let mut count = 0;
    for item in items {
        let Some(_) = item.1.extra() else {
            continue;
        };
        count += 1;
    }
    count
}

/// Whether one of the items has a row.
fn has_filled(items: &[(Key, Entry)]) -> bool
    ensures { result ≡ list_any is_filled items.now }
{
    items.iter().any(|item| !item.1.is_tombstone())
}

/// A copy of each item.
fn copy_of(alloc: Global, items: &[(Key, Entry)]) -> Result<Vec<(Key, Entry)>, Memory>
    ensures { IfOk result (λ copy. copy.items ≡ items.now) }
{
    let mut copy = Vec::new(alloc);
    for item in items {
        let key = item.0.copy()?;
        let entry = item.1.copy()?;
        copy.push((key, entry))?;
    }
    Ok(copy)
}
