//! Replies, row by row.

ghost use Rattle.std.specs.Prelude.{◌≡◌, ◌<◌, ◌≤◌, ◌+◌, [], ◌∷◌, ◌++◌, drop, length, take};
ghost use Rattle.std.specs.List.{All, slice_get};
ghost use Rattle.rc_embed.specs.Replies.{AreCopied, IsCopied, IsCopiedAt, IsCopiedIf, rows_told, values_of};
ghost use Rattle.rc_embed.specs.Session.{reply_of};

use crate::session::Session;
use rc_spec::{Reply, RowList};
use rc_tuple::Tuple;

impl Session {
    /// How many rows the session's reply has: those of a query that tells them, or one for the
    /// tuple that was removed, or in whose place another came.
    pub fn row_count(&self) -> usize
        ensures { result ≡ length (rows_told (reply_of self.now)) }
    {
        match self.reply() {
            Some(Reply::Rows(rows)) => rows.len(),
            Some(Reply::Removed(_) | Reply::Updated(_)) => 1,
            _ => 0,
        }
    }

    /// Copies the row with this number, counted from 0, over the first places of `out`, and answers
    /// how many values it has; the values of a tuple that was there before are in the order of its
    /// columns. `None`, with `out` as before, exactly where the reply has no such row, or `out` no
    /// room for it.
    pub fn copy_row(&self, at: usize, out: &mut [u64]) -> Option<usize>
        ensures { IsCopiedIf (slice_get (rows_told (reply_of self.now)) at) out.old out.new result }
    {
        match self.reply() {
            Some(Reply::Rows(rows)) => copy_over(rows.get(at)?, out),
            Some(Reply::Removed(tuple) | Reply::Updated(tuple)) if at == 0 => {
                copy_tuple(tuple, out)
            }
            _ => None,
        }
    }

    /// Copies the rows from this number on, counted from 0, over the first places of `out`, one
    /// behind the other, as many as there is room for, and answers how many. Behind them `out` is
    /// as before.
    pub fn copy_rows(&self, from: usize, out: &mut [u64]) -> usize
        ensures { AreCopied (drop from (rows_told (reply_of self.now))) out.old out.new result }
    {
        match self.reply() {
            Some(Reply::Rows(rows)) => copy_list(rows, from, out),
            Some(Reply::Removed(tuple) | Reply::Updated(tuple)) if from == 0 => copy_one(
                tuple, out,
            ),
            _ => 0,
        }
    }
}

/// Copies the rows of a list from this number on, as many as there is room for, and answers how
/// many. Rows of one length, which a query's are, are copied in one piece.
fn copy_list(rows: &RowList, from: usize, out: &mut [u64]) -> usize
    ensures { AreCopied (drop from rows.now) out.old out.new result }
{
    match rows.width() {
        Some(width) if width > 0 => copy_even(rows, width, from, out),
        _ => copy_each(rows, from, out),
    }
}

/// Does so with rows that have so many values each.
fn copy_even(rows: &RowList, width: usize, from: usize, out: &mut [u64]) -> usize
    requires some { 0 < width }
    requires even { All (λ row. length row ≡ width) rows.now }
    ensures { AreCopied (drop from rows.now) out.old out.new result }
{
    if from >= rows.len() {
        return 0;
    }
    let values = rows.values();
    let count = (rows.len() - from).min(out.len() / width);
    copy_piece(values, from * width, count * width, out);
    count
}

/// Copies so many values, from one place on, over the first places.
fn copy_piece(values: &[u64], start: usize, size: usize, out: &mut [u64])
    requires within { start + size ≤ length values.now }
    requires room { size ≤ length out.old }
    ensures { out.new ≡ take size (drop start values.now) ++ drop size out.old }
{
    out[..size].copy_from_slice(&values[start..start + size]);
}

/// Copies the rows one by one.
fn copy_each(rows: &RowList, from: usize, out: &mut [u64]) -> usize
    ensures { AreCopied (drop from rows.now) out.old out.new result }
{
    let mut count = 0;
    let mut filled = 0;
    for at in from..rows.len() {
        let Some(end) = copy_at(rows.row(at), filled, out) else {
            return count;
        };
        filled = end;
        count += 1;
    }
    count
}

/// Copies a row over the places from `start` on, and answers where it ends; `None` exactly where
/// there is no room for it.
fn copy_at(row: &[u64], start: usize, out: &mut [u64]) -> Option<usize>
    requires { start ≤ length out.old }
    ensures { IsCopiedAt row.now start out.old out.new result }
{
    let width = copy_over(row, &mut out[start..])?;
    Some(start + width)
}

/// Copies the values of a tuple, where there is room for them, and answers whether there is: 1 or
/// 0.
fn copy_one(tuple: &Tuple, out: &mut [u64]) -> usize
    ensures { AreCopied (values_of tuple.now ∷ []) out.old out.new result }
{
    match copy_tuple(tuple, out) {
        Some(_) => 1,
        None => 0,
    }
}

/// Copies a row over the first places, and answers how many values it has; `None` exactly where
/// there is no room for it.
pub(crate) fn copy_over<T: Copy>(row: &[T], out: &mut [T]) -> Option<usize>
    ensures { IsCopied row.now out.old out.new result }
{
    if row.len() > out.len() {
        return None;
    }
    out[..row.len()].copy_from_slice(row);
    Some(row.len())
}

/// Does so with the values of a tuple.
fn copy_tuple(tuple: &Tuple, out: &mut [u64]) -> Option<usize>
    ensures { IsCopied (values_of tuple.now) out.old out.new result }
{
    let pairs = tuple.pairs();
    if pairs.len() > out.len() {
        return None;
    }
    for (at, pair) in pairs.iter().enumerate() {
        out[at] = pair.1;
    }
    Some(pairs.len())
}
