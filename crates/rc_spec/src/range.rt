//! The bounds that a call gives for a range column.

ghost use Rattle.std.specs.Prelude.{◌≡◌, ◌↔◌, [], ◌∷◌, ◌++◌, IfOk, OnOk, OnErr, IsTrue, map};
ghost use Rattle.rc_spec.specs.Ranges.{AreBounded, in_ranges, is_within_range, range_column};

use rc_tuple::{Memory, SmallList, Tuple};
use std::alloc::Global;
use std::marker::Model;

/// Bounds for the values of a column, both included. Where the lower one is above the upper one no value is between them.
#[derive(Clone, Copy, Debug, PartialEq, Eq)]
pub struct Range {
    /// The column.
    pub col: u8,
    /// The least value.
    pub lo: u64,
    /// The greatest value.
    pub hi: u64,
}

/// Bounds for some columns, in an operation's written order. Contracts see them as their list.
#[derive(Drop, Debug)]
pub struct Ranges {
    items: SmallList<Range>,
}

impl Model for Ranges {
    ghost use Rattle.std.specs.Prelude.{List};
    ghost use Rattle.rc_spec.specs.declared.range.Range.{Range};
    ghost use Rattle.rc_spec.specs.Ranges.{AreBounded};

    ghost Value = { List Range };

    ghost view = { λ r. r.items };

    ghost invariant = { λ r. AreBounded r.items };
}

impl Ranges {
    /// No bounds, which take no memory.
    pub fn new(alloc: Global) -> Self
        ensures { result ≡ [] }
    {
        Ranges {
            items: SmallList::new(alloc),
        }
    }

    /// Adds the bounds for one column more. Where memory is wanted the bounds stay.
    pub fn push(&mut self, col: u8, lo: u64, hi: u64) -> Result<(), Memory>
        ensures ok { OnOk result (self.new ≡ self.old ++ record { col = col; lo = lo; hi = hi } ∷ []) }
        ensures err { OnErr result (self.new ≡ self.old) }
    {
        self.items.push(Range { col, lo, hi })
    }

    /// Takes all bounds out, and keeps the memory.
    pub fn clear(&mut self)
        ensures { self.new ≡ [] }
    {
        self.items.clear()
    }

    /// The bounds, in order.
    pub fn list(&self) -> &[Range]
        ensures value { result.now ≡ self.now }
        ensures bounds { AreBounded result.now }
    {
        self.items.list()
    }

    /// The same bounds again. Without bounds it takes no memory.
    pub fn copy(&self) -> Result<Self, Memory>
        ensures { IfOk result (λ ranges. ranges ≡ self.now) }
    {
        Ok(Ranges {
            items: self.items.copy()?,
        })
    }
}

/// Whether the tuple's value at the column is between the bounds; a column that it hasn't counts as 0.
fn is_within(range: Range, tuple: &Tuple) -> bool
    ensures { result ≡ is_within_range tuple.now range }
{
    let value = tuple.get(range.col).unwrap_or(0);
    range.lo <= value && value <= range.hi
}

/// Whether the tuple's value at each column is between its bounds.
pub fn in_ranges(ranges: &[Range], tuple: &Tuple) -> bool
    ensures { result ≡ in_ranges ranges.now tuple.now }
{
    ranges.iter().all(|range| is_within(*range, tuple))
}

/// Whether the bounds are for these columns, in this order.
pub(crate) fn are_over(ranges: &[Range], cols: &[u8]) -> bool
    ensures { IsTrue result ↔ (map range_column ranges.now ≡ cols.now) }
{
    if ranges.len() != cols.len() {
        return false;
    }
    for (at, range) in ranges.iter().enumerate() {
        if range.col != cols[at] {
            return false;
        }
    }
    true
}
