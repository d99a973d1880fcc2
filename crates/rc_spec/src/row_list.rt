//! Lists of rows.

ghost use Rattle.std.specs.Prelude.{◌≡◌, ◌==◌, ◌↔◌, ◌<◌, ◌≤◌, ◌-◌, ◌*◌, [], ◌∷◌, ◌++◌, drop, get_or, length, option_copied, slice_get, take, None, false, IsTrue, IfOk, IfSome, OnErr, OnOk, OnSome};
ghost use Rattle.std.specs.List.{All, flat_map};
ghost use Rattle.smallvec.specs.SmallVec.{HasRoomFor, IsSpilled};
ghost use Rattle.rc_spec.specs.RowLists.{rows_of_width};

use crate::row_ends::RowEnds;
use rc_tuple::Memory;
use smallvec::SmallVec;
use std::alloc::Global;
use std::marker::Model;
use std::mem;

/// The most values that a list keeps without a block: most queries for one row ask for no more.
const FEW: usize = 3;

/// Rows of values, each in the order of a query's outputs. The values of all rows stand one behind the other, up to three in the
/// list itself and more in one block, so that no row takes memory of its own. Where the rows differ in length, a second block has
/// where each ends.
#[derive(Drop, Debug)]
pub struct RowList {
    values: SmallVec<u64, FEW>,
    ends: RowEnds,
}

impl Model for RowList {
    ghost use Rattle.std.specs.Prelude.{ℕ, List, length};
    ghost use Rattle.rc_spec.specs.RowLists.{AreEnds, rows_from};

    ghost Value = { List (List ℕ) };

    ghost view = { λ l. rows_from 0 l.ends l.values.items };

    ghost invariant = { λ l. AreEnds 0 l.ends (length l.values.items) };
}

impl RowList {
    /// No row, which takes no memory.
    pub fn new(alloc: Global) -> RowList
        ensures { result ≡ [] }
    {
        RowList {
            values: SmallVec::new(alloc),
            ends: RowEnds::new(),
        }
    }

    /// So many rows of one width, whose values stand one behind the other. Takes no memory.
    pub fn of_width(values: Vec<u64>, rows: usize, width: usize) -> RowList
        requires { length values.items ≡ rows * width }
        ensures { result ≡ rows_of_width width rows values.items }
    {
        RowList {
            values: SmallVec::from_vec(values),
            ends: RowEnds::of_width(rows, width),
        }
    }

    /// The list of one row. Takes memory where the row has more than three values.
    pub fn of_row(alloc: Global, row: &[u64]) -> Result<RowList, Memory>
        ensures { IfOk result (λ list. list ≡ row.now ∷ []) }
    {
        Ok(RowList {
            values: values_of(alloc, row)?,
            ends: RowEnds::of_width(1, row.len()),
        })
    }

    /// How many rows there are.
    pub fn len(&self) -> usize
        ensures { result ≡ length self.now }
    {
        self.ends.len()
    }

    /// Whether there is none.
    pub fn is_empty(&self) -> bool
        ensures { result ≡ (length self.now == 0) }
    {
        self.len() == 0
    }

    /// The values of the row with this number, from 0. The cost is constant.
    pub fn row(&self, at: usize) -> &[u64]
        requires { at < length self.now }
        ensures { result.now ≡ get_or self.now at [] }
    {
        part(
            self.values.as_slice(),
            self.ends.start_of(at),
            self.ends.end_of(at),
        )
    }

    /// The values of the row with this number, from 0; `None` exactly where there is no such row. The cost is constant.
    pub fn get(&self, at: usize) -> Option<&[u64]>
        ensures { option_copied result ≡ slice_get self.now at }
    {
        if at < self.len() {
            Some(self.row(at))
        } else {
            None
        }
    }

    /// How many values each row has, where all have as many; `None` once a row of another length was added. The cost is constant.
    #[inline(always)]
    pub fn width(&self) -> Option<usize>
        ensures { IfSome result (λ width. All (λ row. length row ≡ width) self.now) }
    {
        self.ends.width()
    }

    /// The values of all rows, one row behind the other. The cost is constant.
    #[inline(always)]
    pub fn values(&self) -> &[u64]
        ensures { result.now ≡ flat_map (λ row. row) self.now }
    {
        self.values.as_slice()
    }

    /// Adds a row at the end. Where memory is wanted the list stays. Costs the row, and memory that the rows that follow share, once
    /// the values are more than three; the first row of another length than those before it costs as much as there are rows.
    pub fn push(&mut self, row: &[u64]) -> Result<(), Memory>
        ensures ok { OnOk result (self.new ≡ self.old ++ row.now ∷ []) }
        ensures err { OnErr result (self.new ≡ self.old) }
    {
        let alloc = *self.values.allocator();
        let start = self.values.len();
        self.values.extend_from_slice(row)?;
        match self.ends.push(alloc, self.values.len()) {
            Ok(()) => Ok(()),
            Err(memory) => {
                self.values.truncate(start);
                Err(memory)
            }
        }
    }

    /// Takes all rows out of a list that keeps their values in a block, and hands the block out, empty, so that the rows of another
    /// list can stand in it; `None`, and the list stays, where it has no block. Takes no memory.
    #[inline(always)]
    pub fn take_block(&mut self) -> Option<Vec<u64>>
        ensures taken { OnSome result (self.new ≡ []) }
        ensures kept { result ≡ None → self.new ≡ self.old }
        ensures block { IfSome result (λ block. block.items ≡ []) }
    {
        if !self.values.spilled() {
            return None;
        }
        self.ends = RowEnds::new();
        Some(emptied(&mut self.values))
    }

    /// Makes it the list of this one row in its own place, and takes no memory; false, and the list stays, where its values stand in
    /// a block or the row has more than three.
    #[inline(always)]
    pub fn refill_row(&mut self, row: &[u64]) -> bool
        ensures told { IsTrue result → self.new ≡ row.now ∷ [] }
        ensures kept { result ≡ false → self.new ≡ self.old }
    {
        if row.len() > FEW || self.values.spilled() {
            return false;
        }
        self.values.clear();
        push_few(&mut self.values, row);
        self.ends = RowEnds::of_width(1, row.len());
        true
    }

    /// Another list of the same rows. Costs all values, and a block where they are more than three, and one where the rows differ in
    /// length.
    pub fn copy(&self) -> Result<RowList, Memory>
        ensures { IfOk result (λ copy. copy ≡ self.now) }
    {
        let alloc = *self.values.allocator();
        Ok(RowList {
            values: SmallVec::from_slice(alloc, self.values.as_slice())?,
            ends: self.ends.copy(alloc)?,
        })
    }

    /// Whether the rows are the same, in the same order. Costs all values.
    pub fn equals(&self, other: &RowList) -> bool
        ensures { IsTrue result ↔ (self.now ≡ other.now) }
    {
        if self.len() != other.len() {
            return false;
        }
        for at in 0..self.len() {
            if self.row(at) != other.row(at) {
                return false;
            }
        }
        true
    }
}

/// The values of a slice. Takes memory where they are more than three.
// Most queries ask for one row of few values: these are pushed one by one, with no call.
#[inline(always)]
fn values_of(alloc: Global, row: &[u64]) -> Result<SmallVec<u64, FEW>, Memory>
    ensures { IfOk result (λ values. values.items ≡ row.now) }
{
    if row.len() > FEW {
        return Ok(SmallVec::from_slice(alloc, row)?);
    }
    let mut values = SmallVec::new(alloc);
    push_few(&mut values, row);
    Ok(values)
}

/// Adds the values of a slice, for which there is room.
#[inline(always)]
fn push_few(values: &mut SmallVec<u64, FEW>, row: &[u64])
    requires { HasRoomFor values.old (length row.now) }
    ensures { values.new.items ≡ values.old.items ++ row.now }
{
    for value in row {
        values.push_reserved(*value);
    }
}

/// Takes the values out of their block, and hands that out.
// It stands apart, since most replies have no block.
#[inline(never)]
fn emptied(values: &mut SmallVec<u64, FEW>) -> Vec<u64>
    requires { IsSpilled 3 values.old }
    ensures taken { values.new.items ≡ [] }
    ensures block { result.items ≡ [] }
{
    let none = SmallVec::new(*values.allocator());
    let Ok(mut block) = mem::replace(values, none).into_vec() else {
        unreachable!()
    };
    block.clear();
    block
}

/// The values from one place up to another.
fn part(values: &[u64], start: usize, end: usize) -> &[u64]
    requires order { start ≤ end }
    requires within { end ≤ length values.now }
    ensures { result.now ≡ take (end - start) (drop start values.now) }
{
    &values[start..end]
}
