//! Rows made of the values that are kept of them.

ghost use Rattle.std.specs.Prelude.{◌≡◌, ◌<◌, ◌++◌, List, Some, IfOk, OnOk, length, map};
ghost use Rattle.std.specs.FinMap as fin;
ghost use Rattle.std.specs.List.{flat_map, zip};
ghost use Rattle.rc_tuple.specs.ColSet.{IsColSet};
ghost use Rattle.rc_tuple.specs.RisingSet.{In};
ghost use Rattle.rc_tuple.specs.Tuple.{value};
ghost use Rattle.rc_edges.specs.Values.{Values};
ghost use Rattle.rc_edges.specs.EdgeMap.{Counted};
ghost use Rattle.rc_fragment.specs.Container.{now_in};
ghost use Rattle.rc_fragment.specs.Listing.{rows_with};
ghost use Rattle.rc_fragment.specs.RowValues.{HasValues, HaveWidth, IsParted, row_from};

use crate::EdgeShape;
use crate::container::Container;
use rc_tuple::{ColSet, MAX_COLS, Memory, Tuple, Tuples, Vals};
use std::alloc::Global;

/// Adds the rows of a source's container at the end of the list, rising by their keys. The scratch
/// holds their values.
pub fn push_rows(
    shape: &EdgeShape,
    source: &[u64],
    container: &Container,
    scratch: &mut Vec<u64>,
    rows: &mut Tuples,
) -> Result<(), Memory>
    requires parted { IsParted shape.now }
    requires filed { (k : Values) (c : Counted) → fin.get (now_in container.now) k ≡ Some c → HasValues shape.now (row_from shape.now source.now k c.0) source.now k c.0 }
    ensures { OnOk result (rows.new ≡ rows.old ++ rows_with shape.now source.now (fin.entries (now_in container.now))) }
{
    scratch.clear();
    container.scan(scratch)?;
    let key_width = shape.key.len() as usize;
    let extra_width = shape.extra().len() as usize;
    let mut rest = scratch.as_slice();
    for row in 0..container.len() {
        let (key, behind) = rest.split_at(key_width);
        let (extra, behind) = behind.split_at(extra_width);
        rows.push(row_of(rows.alloc(), shape, source, key, extra)?)?;
        rest = behind;
    }
    Ok(())
}

/// The row with these values. Takes a block for them, and the row's.
pub fn row_of(
    alloc: Global,
    shape: &EdgeShape,
    source: &[u64],
    key: &[u64],
    extra: &[u64],
) -> Result<Tuple, Memory>
    requires parted { IsParted shape.now }
    requires values { HasValues shape.now (row_from shape.now source.now key.now extra.now) source.now key.now extra.now }
    ensures { IfOk result (λ row. row ≡ row_from shape.now source.now key.now extra.now) }
{
    let mut vals = Vec::with_capacity(alloc, shape.target.len() as usize)?;
    for col in 0..MAX_COLS {
        if shape.target.has(col) {
            vals.push(value_of(shape, source, key, extra, col))?;
        }
    }
    Tuple::new(shape.target, Vals::from_vec(vals))
}

/// The tuple that gives the columns these values.
pub fn row_over(alloc: Global, cols: ColSet, values: &[u64]) -> Result<Tuple, Memory>
    requires { length values.now ≡ length cols }
    ensures { IfOk result (λ row. row ≡ zip cols values.now) }
{
    Tuple::new(cols, Vals::from_slice(alloc, values)?)
}

/// The tuples over the columns, of which there are some, that give them these values, one tuple's behind the other's.
pub fn rows_over(alloc: Global, cols: ColSet, values: &[u64]) -> Result<Tuples, Memory>
    requires { 0 < length cols }
    ensures { IfOk result (λ rows. (lists : List Values) → values.now ≡ flat_map (λ s. s) lists → HaveWidth (length cols) lists → rows ≡ map (zip cols) lists) }
{
    let mut rows = Tuples::new(alloc);
    for row in values.chunks_exact(cols.len() as usize) {
        rows.push(row_over(alloc, cols, row)?)?;
    }
    Ok(rows)
}

/// The row's value at a column of its edge's target.
fn value_of(shape: &EdgeShape, source: &[u64], key: &[u64], extra: &[u64], col: u8) -> u64
    requires parted { IsParted shape.now }
    requires values { HasValues shape.now (row_from shape.now source.now key.now extra.now) source.now key.now extra.now }
    requires there { In col shape.now.target }
    ensures { result ≡ value (row_from shape.now source.now key.now extra.now) col }
{
    if shape.source.has(col) {
        return value_beside(shape.source, source, col);
    }
    if shape.key.has(col) {
        return value_beside(shape.key, key, col);
    }
    value_beside(shape.extra(), extra, col)
}

/// The value beside the column.
fn value_beside(cols: ColSet, values: &[u64], col: u8) -> u64
    requires set { IsColSet cols }
    requires there { In col cols }
    requires fits { length values.now ≡ length cols }
    ensures { result ≡ value (zip cols values.now) col }
{
    values[cols.rank(col) as usize]
}
