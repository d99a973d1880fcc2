//! Rows of one width, side by side.

ghost use Rattle.std.specs.Prelude.{◌≡◌, ◌+◌, ◌*◌, ◌/◌, ◌<◌, ◌≤◌, ◌^◌, ◌++◌, ◌∷◌, ◌↔◌, [], IsTrue, None, true, length, take, OnOk, OnErr, IfOk, IfErr, IfSome, IfNone, IsSome, option_copied};
ghost use Rattle.std.specs.List.{list_any};
ghost use Rattle.std.specs.Vec.{vec_len, vec_capacity};
ghost use Rattle.std.specs.FinMap as fin;
ghost use Rattle.rc_edges.specs.EdgeMap.{HasAsMany, IsAddedNew, count_at, current, extra_of, found, listed, once_less, once_more, swept};
ghost use Rattle.rc_edges.specs.ListMap.{IsAt, IsGap, IsKeyed, count_in, is_filled, rows_in, values_in};
ghost use Rattle.rc_maps.specs.Block.{item_of, items_of};
ghost use Rattle.rc_maps.specs.Blocks.{begins_by};
ghost use Rattle.rc_maps.specs.OrderedTable.{entries_of, has_one_column};

use crate::keyed::only;
use crate::{OrderedTable, TreeEdge};
use rc_edges::Entry;
use rc_tuple::Memory;
use std::alloc::Global;
use std::fmt::{Debug, Formatter, Write};
use std::marker::Model;
use std::{fmt, slice};

/// The most rows of a block. A new row moves those behind it: filled with keys in no order, blocks of
/// up to some 160 rows of three words were measured to cost less than a search tree, and larger ones
/// more. Look-ups and listings cost less at any size.
const MOST_ROWS: usize = 128;

/// A row at a key of one column, with so many extra values, and its count.
#[derive(Clone, Copy, Debug)]
pub struct Row<const EXTRA: usize> {
    key: u64,
    extra: [u64; EXTRA],
    count: u64,
}

/// Rows at keys of one column with so many extra values each, rising by their keys, side by side.
///
/// A look-up is a binary search in one block of memory, and takes none; a new row moves those
/// behind its place. A row whose count is 0 is a tombstone.
#[derive(Drop)]
pub struct Block<const EXTRA: usize> {
    rows: Vec<Row<EXTRA>>,
}

impl<const EXTRA: usize> Model for Block<EXTRA> {
    ghost use Rattle.rc_edges.specs.EdgeMap.{Rows, rows_code};

    ghost Value = { Rows };

    ghost coded = { rows_code };

    ghost use Rattle.rc_edges.specs.ListMap.{rows_in};
    ghost use Rattle.rc_maps.specs.Block.{IsBlock, items_of};

    ghost view = { λ a. rows_in (items_of a.rows.items) };

    ghost invariant = { λ a. IsBlock EXTRA a.rows.items };
}

impl<const EXTRA: usize> Block<EXTRA> {
    /// The block with no row, which takes no memory.
    pub fn new(alloc: Global) -> Self
        requires { EXTRA < 32 }
        ensures { result ≡ fin.empty }
    {
        Block {
            rows: Vec::new(alloc),
        }
    }

    /// Whether a row with these extra values may be added: they are as many as each row has, and the
    /// block isn't full.
    pub fn takes(&self, extra: &[u64]) -> bool
        ensures { IsTrue result ↔ ((length extra.now ≡ EXTRA) × (fin.len self.now < 128)) }
    {
        extra.len() == EXTRA && self.kept() < MOST_ROWS
    }

    /// How many rows and tombstones the block keeps.
    pub(crate) fn kept(&self) -> usize
        ensures { result ≡ fin.len self.now }
    {
        self.rows.len()
    }

    /// Whether the block is full, of rows with as many extra values as these.
    pub(crate) fn is_full_of(&self, extra: &[u64]) -> bool
        ensures { IsTrue result ↔ ((length extra.now ≡ EXTRA) × (fin.len self.now ≡ 128)) }
    {
        extra.len() == EXTRA && self.is_full()
    }

    /// Whether the block keeps 128 rows, with the tombstones.
    pub(crate) fn is_full(&self) -> bool
        ensures { IsTrue result ↔ (fin.len self.now ≡ 128) }
    {
        self.kept() == MOST_ROWS
    }

    /// Whether the first of the block's keys is at or below this key.
    pub(crate) fn begins_by(&self, key: &[u64]) -> bool
        ensures { result ≡ begins_by self.now key.now }
    {
        match (self.rows.first(), key.first()) {
            (Some(row), Some(value)) => row.key <= *value,
            _ => false,
        }
    }

    /// Two new blocks, which have the first half of the rows and tombstones, and the others.
    pub(crate) fn halves(&self) -> Result<(Self, Self), Memory>
        ensures parts { IfOk result (λ halves. fin.entries halves.0 ++ fin.entries halves.1 ≡ fin.entries self.now) }
        ensures half { IfOk result (λ halves. fin.len halves.0 ≡ fin.len self.now / 2) }
    {
        let alloc = *self.rows.allocator();
        let (lower, upper) = self.rows.split_at(self.rows.len() / 2);
        let lower = Vec::from_slice(alloc, lower)?;
        let upper = Vec::from_slice(alloc, upper)?;
        Ok((Block { rows: lower }, Block { rows: upper }))
    }

    /// Adds the rows and tombstones of the block behind, whose keys are above. Where memory is wanted
    /// nothing changes.
    pub(crate) fn append(&mut self, behind: &Self) -> Result<(), Memory>
        requires { IsKeyed (fin.entries self.old ++ fin.entries behind.now) }
        ensures ok { OnOk result (fin.entries self.new ≡ fin.entries self.old ++ fin.entries behind.now) }
        ensures err { OnErr result (self.new ≡ self.old) }
    {
        self.rows.extend_from_slice(behind.rows.as_slice())?;
        Ok(())
    }

    /// The allocator of the rows' memory.
    pub(crate) fn allocator(&self) -> Global {
        *self.rows.allocator()
    }

    /// Adds the row at the key with the count 1, or raises its count by 1, and answers the count
    /// before. Where memory is wanted nothing changes.
    pub fn add(&mut self, key: &[u64], extra: &[u64]) -> Result<u64, Memory>
        requires one { length key.now ≡ 1 }
        requires width { length extra.now ≡ EXTRA }
        requires room { count_at self.old key.now < 2 ^ 63 }
        ensures ok { OnOk result (self.new ≡ once_more self.old key.now extra.now) }
        ensures before { IfOk result (λ before. before ≡ count_at self.old key.now) }
        ensures err { OnErr result (self.new ≡ self.old) }
    {
        let Some(key) = only(key) else {
            unreachable!();
        };
        let Some(extra) = extra.as_array() else {
            unreachable!();
        };
        let (key, extra) = (*key, *extra);
        match place(&self.rows, key) {
            Ok(at) => {
                let before = self.rows[at].count;
                let count = before + 1;
                self.rows[at] = Row { key, extra, count };
                Ok(before)
            }
            Err(at) => {
                let count = 1;
                self.rows.insert(at, Row { key, extra, count })?;
                Ok(0)
            }
        }
    }

    /// Adds the row at the key with the count 1, where no row is there, and answers whether it did.
    /// Where one is there, or memory is wanted, nothing changes.
    pub fn add_new(&mut self, key: &[u64], extra: &[u64]) -> Result<bool, Memory>
        requires one { found self.old key.now ≡ None → length key.now ≡ 1 }
        requires width { length extra.now ≡ EXTRA }
        ensures ok { IfOk result (IsAddedNew self.old self.new key.now extra.now) }
        ensures err { OnErr result (self.new ≡ self.old) }
    {
        let rows = self.rows.as_slice();
        let Some(key) = only(key) else {
            unreachable!();
        };
        let Some(extra) = extra.as_array() else {
            unreachable!();
        };
        let (key, extra, count) = (*key, *extra, 1);
        match place(rows, key) {
            Ok(at) => {
                if self.rows[at].count > 0 {
                    return Ok(false);
                }
                self.rows[at] = Row { key, extra, count };
            }
            Err(at) => self.rows.insert(at, Row { key, extra, count })?,
        }
        Ok(true)
    }

    /// Lowers the count of the row that is there at the key by 1, and answers the count before.
    pub fn sub(&mut self, key: &[u64]) -> u64
        requires { IsSome (found self.old key.now) }
        ensures now { self.new ≡ once_less self.old key.now }
        ensures before { result ≡ count_at self.old key.now }
    {
        let Some(at) = place_of(&self.rows, key) else {
            unreachable!();
        };
        let row = self.rows[at];
        let count = row.count - 1;
        self.rows[at] = Row { count, ..row };
        row.count
    }

    /// Makes the row or tombstone at the key the row with these extra values, as many as it has, and
    /// this count.
    pub fn put_back(&mut self, key: &[u64], extra: &[u64], count: u64)
        requires { HasAsMany (fin.get self.old key.now) extra.now }
        ensures { self.new ≡ fin.insert self.old key.now (extra.now, count) }
    {
        let Some(at) = place_of(&self.rows, key) else {
            unreachable!();
        };
        let mut row = self.rows[at];
        row.extra.copy_from_slice(extra);
        row.count = count;
        self.rows[at] = row;
    }

    /// Lets a tombstone at the key go.
    pub fn sweep(&mut self, key: &[u64])
        ensures { self.new ≡ swept self.old key.now }
    {
        let Some(at) = place_of(&self.rows, key) else {
            return;
        };
        if self.rows[at].count == 0 {
            self.rows.remove(at);
        }
    }

    /// The extra values of the row at the key, if it is there.
    pub fn get(&self, key: &[u64]) -> Option<&[u64]>
        ensures { option_copied result ≡ extra_of (found self.now key.now) }
    {
        let Some(at) = place_of(&self.rows, key) else {
            return None;
        };
        let row = &self.rows[at];
        if row.count > 0 {
            Some(row.extra.as_slice())
        } else {
            None
        }
    }

    /// Adds for each row that is there its key and then its extra values at the end of the list,
    /// rising by the keys. Where memory is wanted the list stays as it was.
    pub fn scan(&self, out: &mut Vec<u64>) -> Result<(), Memory>
        ensures ok { OnOk result (out.new.items ≡ out.old.items ++ listed self.now) }
        ensures err { OnErr result (out.new.items ≡ out.old.items) }
    {
        let Some(room) = self.rows.len().checked_mul(EXTRA + 1) else {
            return Err(Memory);
        };
        out.reserve(room)?;
        push_rows(&self.rows, out);
        Ok(())
    }

    /// How many rows are there. Costs a step for each, and for each tombstone.
    pub fn len(&self) -> u64
        ensures { result ≡ fin.len (current self.now) }
    {
        let mut count = 0;
        for row in &self.rows {
            if row.count > 0 {
                count += 1;
            }
        }
        count
    }

    /// Whether a row is there. Costs a step for each tombstone before one.
    pub fn has_row(&self) -> bool
        ensures { IsTrue result ↔ (0 < fin.len (current self.now)) }
    {
        has_filled(&self.rows)
    }

    /// Whether nothing is kept, not even a tombstone.
    pub fn is_gone(&self) -> bool
        ensures { IsTrue result ↔ (self.now ≡ fin.empty) }
    {
        self.rows.as_slice().is_empty()
    }

    /// Another block with the same rows and tombstones.
    pub fn copy(&self) -> Result<Self, Memory>
        ensures { IfOk result (λ copy. copy ≡ self.now) }
    {
        let alloc = *self.rows.allocator();
        let rows = Vec::from_slice(alloc, self.rows.as_slice())?;
        Ok(Block { rows })
    }

    /// A container over a search tree with the same rows and tombstones.
    pub fn tree(&self) -> Result<TreeEdge, Memory>
        ensures rows { IfOk result (λ tree. tree.rows ≡ self.now) }
        ensures width { IfOk result (λ tree. tree.one_column ≡ true) }
    {
        let alloc = *self.rows.allocator();
        let table = table_of(alloc, &self.rows)?;
        Ok(TreeEdge::over(alloc, table))
    }
}

impl<const EXTRA: usize> Debug for Block<EXTRA> {
    fn fmt<W: Write>(&self, f: &mut Formatter<W>) -> fmt::Result {
        f.debug_struct("Block").finish_non_exhaustive()
    }
}

/// The place of the row at the key, or else that where one would go.
fn place<const EXTRA: usize>(rows: &[Row<EXTRA>], key: u64) -> Result<usize, usize>
    requires { IsKeyed (items_of rows.now) }
    ensures found { IfOk result (λ at. IsAt (key ∷ []) (items_of rows.now) at) }
    ensures within { IfOk result (λ at. at < length rows.now) }
    ensures gap { IfErr result (λ at. IsGap (key ∷ []) (items_of rows.now) at) }
    ensures end { IfErr result (λ at. at ≤ length rows.now) }
{
    rows.binary_search_by_key(
        &key,
        |row| -> u64
            ensures { result ≡ row.now.key }
        { row.key },
    )
}

/// The place of the row or tombstone at the key, if there is one.
fn place_of<const EXTRA: usize>(rows: &[Row<EXTRA>], key: &[u64]) -> Option<usize>
    requires { IsKeyed (items_of rows.now) }
    ensures found { IfSome result (λ at. IsAt key.now (items_of rows.now) at) }
    ensures within { IfSome result (λ at. at < length rows.now) }
    ensures none { IfNone result (fin.get (rows_in (items_of rows.now)) key.now ≡ None) }
{
    let Some(key) = only(key) else {
        return None;
    };
    match place(rows, *key) {
        Ok(at) => Some(at),
        Err(_) => None,
    }
}

/// Adds each row's key and extra values at the end, where there is room for all.
fn push_rows<const EXTRA: usize>(rows: &[Row<EXTRA>], out: &mut Vec<u64>)
    requires { vec_len out.old + (EXTRA + 1) * length rows.now ≤ vec_capacity out.old }
    ensures { out.new.items ≡ out.old.items ++ values_in (items_of rows.now) }
{
    for row in rows {
        push_row(row, out);
    }
}

/// Adds the row's key and extra values at the end, if it is there, where there is room for them.
fn push_row<const EXTRA: usize>(row: &Row<EXTRA>, out: &mut Vec<u64>)
    requires { vec_len out.old + (EXTRA + 1) ≤ vec_capacity out.old }
    ensures items { out.new.items ≡ out.old.items ++ values_in (item_of row.now ∷ []) }
    ensures len { vec_len out.new ≤ vec_len out.old + (EXTRA + 1) }
    ensures capacity { vec_capacity out.new ≡ vec_capacity out.old }
{
    if row.count == 0 {
        return;
    }
    out.push_reserved(row.key);
    for value in row.extra.as_slice() {
        out.push_reserved(*value);
    }
}

/// Whether one of the rows is there.
fn has_filled<const EXTRA: usize>(rows: &[Row<EXTRA>]) -> bool
    ensures { result ≡ list_any (λ row. is_filled (item_of row)) rows.now }
{
    rows.iter().any(
        |row| -> bool
            ensures { result ≡ is_filled (item_of row.now) }
        { row.count > 0 },
    )
}

/// An ordered table with these rows and tombstones.
fn table_of<const EXTRA: usize>(
    alloc: Global,
    rows: &[Row<EXTRA>],
) -> Result<OrderedTable<Entry>, Memory>
    requires { IsKeyed (items_of rows.now) }
    ensures rows { IfOk result (λ table. entries_of table ≡ rows_in (items_of rows.now)) }
    ensures width { IfOk result (λ table. has_one_column table ≡ true) }
{
    let mut table = OrderedTable::new(alloc, true);
    for row in rows {
        let entry = entry_of(alloc, row)?;
        table.insert(slice::from_ref(&row.key), entry)?;
    }
    Ok(table)
}

/// The row's extra values and its count.
fn entry_of<const EXTRA: usize>(alloc: Global, row: &Row<EXTRA>) -> Result<Entry, Memory>
    ensures { IfOk result (λ entry. entry ≡ (row.now.extra, row.now.count)) }
{
    let extra = row.extra.as_slice();
    let mut entry = Entry::new(alloc, extra)?;
    entry.put_back(extra, row.count);
    Ok(entry)
}
