//! Notes of the changes since a fragment was taken.

ghost use Rattle.std.specs.Prelude.{◌≡◌, ◌+◌, ◌<◌, ◌≤◌, ◌-◌, ◌++◌, drop, length, take, vec_len, vec_capacity};
ghost use Rattle.std.specs.List.{insert};
ghost use Rattle.rc_fragment.specs.Notes.{IsWithin, is_swept, key_of, noted_extra, place_of, source_of};
ghost use Rattle.rc_fragment.specs.RowValues.{IsParted, extra_columns, values_at};

use crate::EdgeShape;
use rc_tuple::{ColSet, Tuple};

/// How many values a note may take: those of a row, with at most 32 columns.
pub const VALUES_OF_NOTE: usize = 32;

/// A row in the list of the noted values: its edge, and where its values at the columns of the source
/// and of the key and its extra ones begin, one behind the other, and the last of them end.
#[derive(Clone, Copy, Debug)]
pub struct NotedRow {
    pub edge: u8,
    pub start: usize,
    pub key_start: usize,
    pub extra_start: usize,
    pub end: usize,
}

/// A change of a row's count: the row, whether the change took it out, and its count before.
#[derive(Clone, Copy, Debug)]
pub struct Note {
    pub row: NotedRow,
    pub took_out: bool,
    pub count: u64,
}

/// After what tombstones are swept.
#[derive(Clone, Copy, Debug)]
pub enum Sweep {
    /// A commit: they are of rows that a change took out.
    Committed,
    /// A rollback: they are of rows that weren't there before their first change.
    RolledBack,
}

impl Note {
    /// Whether a tombstone may be left of the noted row.
    pub fn is_swept(&self, after: Sweep) -> bool
        ensures { result ≡ is_swept after self.now }
    {
        match after {
            Sweep::Committed => self.took_out,
            Sweep::RolledBack => self.count == 0,
        }
    }
}

impl NotedRow {
    /// The values of the source.
    pub fn source<'a>(&self, values: &'a [u64]) -> &'a [u64]
        requires { IsWithin (length values.now) self.now }
        ensures { result.now ≡ source_of values.now self.now }
    {
        part(values, self.start, self.key_start)
    }

    /// The values of the key.
    pub fn key<'a>(&self, values: &'a [u64]) -> &'a [u64]
        requires { IsWithin (length values.now) self.now }
        ensures { result.now ≡ key_of values.now self.now }
    {
        part(values, self.key_start, self.extra_start)
    }

    /// The extra values.
    pub fn extra<'a>(&self, values: &'a [u64]) -> &'a [u64]
        requires { IsWithin (length values.now) self.now }
        ensures { result.now ≡ noted_extra values.now self.now }
    {
        part(values, self.extra_start, self.end)
    }
}

/// The values from one place up to another.
fn part(values: &[u64], start: usize, end: usize) -> &[u64]
    requires order { start ≤ end }
    requires within { end ≤ length values.now }
    ensures { result.now ≡ take (end - start) (drop start values.now) }
{
    &values[start..end]
}

/// The row in the list, whose values are put behind those that are there. Costs one walk over the tuple. Takes no memory.
// In its caller's place it tells the note where the row stands with no move.
#[inline(always)]
pub fn note_row(values: &mut Vec<u64>, edge: u8, row: &Tuple, shape: &EdgeShape) -> NotedRow
    requires room { vec_len values.old + 32 ≤ vec_capacity values.old }
    requires parted { IsParted shape.now }
    ensures place { place_of values.new.items result ≡ (edge, values_at shape.now.source row.now, values_at shape.now.key row.now) }
    ensures extra { noted_extra values.new.items result ≡ values_at (extra_columns shape.now) row.now }
    ensures within { IsWithin (length values.new.items) result }
    ensures start { result.start ≡ length values.old.items }
    ensures values { values.new.items ≡ values.old.items ++ (values_at shape.now.source row.now ++ (values_at shape.now.key row.now ++ values_at (extra_columns shape.now) row.now)) }
    ensures room { vec_len values.new ≤ vec_len values.old + 32 }
    ensures capacity { vec_capacity values.new ≡ vec_capacity values.old }
{
    let start = values.len();
    let (key_start, extra_start) = push_parts(values, row.pairs(), shape);
    NotedRow {
        edge,
        start,
        key_start,
        extra_start,
        end: values.len(),
    }
}

/// Adds the row's values at the columns of the source, then those at the key's and then the extra ones at the end, and
/// answers where the latter two begin. Takes no memory. Costs one walk over the row; a value whose column comes behind
/// one of a later part moves that part.
#[inline(always)]
fn push_parts(values: &mut Vec<u64>, row: &[(u8, u64)], shape: &EdgeShape) -> (usize, usize)
    requires room { vec_len values.old + length row.now ≤ vec_capacity values.old }
    requires parted { IsParted shape.now }
    ensures values { values.new.items ≡ values.old.items ++ (values_at shape.now.source row.now ++ (values_at shape.now.key row.now ++ values_at (extra_columns shape.now) row.now)) }
    ensures key { result.0 ≡ length values.old.items + length (values_at shape.now.source row.now) }
    ensures extra { result.1 ≡ result.0 + length (values_at shape.now.key row.now) }
    ensures len { vec_len values.new ≤ vec_len values.old + length row.now }
    ensures capacity { vec_capacity values.new ≡ vec_capacity values.old }
{
    let extra = shape.extra();
    let mut key_start = values.len();
    let mut extra_start = key_start;
    for pair in row {
        if shape.source.has(pair.0) {
            put_value(values, key_start, pair.1);
            key_start += 1;
            extra_start += 1;
        } else if shape.key.has(pair.0) {
            put_value(values, extra_start, pair.1);
            extra_start += 1;
        } else if extra.has(pair.0) {
            values.push_reserved(pair.1);
        }
    }
    (key_start, extra_start)
}

/// Puts the value at the place, and moves those from there on by one, where there is room for one more.
fn put_value(values: &mut Vec<u64>, place: usize, value: u64)
    requires place { place ≤ vec_len values.old }
    requires room { vec_len values.old < vec_capacity values.old }
    ensures items { values.new.items ≡ insert values.old.items place value }
    ensures len { vec_len values.new ≡ vec_len values.old + 1 }
    ensures capacity { vec_capacity values.new ≡ vec_capacity values.old }
{
    if place == values.len() {
        values.push_reserved(value);
    } else {
        insert_value(values, place, value);
    }
}

/// Does so where some are moved.
// Columns mostly come in the order of the parts: it stands apart, so that what puts a value at the end stays small.
#[inline(never)]
fn insert_value(values: &mut Vec<u64>, place: usize, value: u64)
    requires place { place ≤ vec_len values.old }
    requires room { vec_len values.old < vec_capacity values.old }
    ensures items { values.new.items ≡ insert values.old.items place value }
    ensures len { vec_len values.new ≡ vec_len values.old + 1 }
    ensures capacity { vec_capacity values.new ≡ vec_capacity values.old }
{
    let Ok(()) = values.insert(place, value) else {
        unreachable!()
    };
}

/// Adds the values at those of the row's columns that the set has at the end. Takes no memory, and no
/// walk for a set without columns, as the extra ones mostly are.
pub fn push_values(out: &mut Vec<u64>, row: &[(u8, u64)], cols: ColSet)
    requires { vec_len out.old + length (values_at cols row.now) ≤ vec_capacity out.old }
    ensures items { out.new.items ≡ out.old.items ++ values_at cols row.now }
    ensures len { vec_len out.new ≡ vec_len out.old + length (values_at cols row.now) }
    ensures capacity { vec_capacity out.new ≡ vec_capacity out.old }
{
    if cols.is_empty() {
        return;
    }
    for pair in row {
        if cols.has(pair.0) {
            out.push_reserved(pair.1);
        }
    }
}
