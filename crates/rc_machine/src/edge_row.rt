//! The row of an edge that has a tuple's values of source and key.

ghost use Rattle.std.specs.Prelude.{◌≡◌, ◌++◌, length, IfOk, OnOk};
ghost use Rattle.std.specs.List.{zip};
ghost use Rattle.std.specs.Option.{option_copied};
ghost use Rattle.rc_tuple.specs.ColSet.{Within};
ghost use Rattle.rc_tuple.specs.RisingSet.{In};
ghost use Rattle.rc_tuple.specs.Tuple.{IsTuple, cols_of, pick, value};
ghost use Rattle.rc_spec.specs.Decomposition.{bound, edge_at, source_and_key};
ghost use Rattle.rc_spec.specs.Fragments.{EdgeRow};
ghost use Rattle.rc_fragment.specs.Fragment.{shape_of};
ghost use Rattle.rc_fragment.specs.RowValues.{values_at};
ghost use Rattle.rc_machine.specs.Access.{IsRowFound, IsTupleFound};
ghost use Rattle.rc_machine.specs.EdgeRead.{IsReadOver};

use crate::edge_read::EdgeRead;
use crate::workspace::Finder;
use rc_fragment::Fragment;
use rc_tuple::{ColSet, Memory, Tuple};
use std::alloc::Global;
use std::mem;

/// Of the row that has the tuple's values of source and key the values at the extra columns, if there is one. Costs a walk
/// over the tuple, and a look-up.
// Most calls begin with it: in its caller's place it hands on what it found with no move.
#[inline(always)]
pub(crate) fn find_row<'a>(
    fragment: &'a Fragment,
    read: &EdgeRead,
    tuple: &Tuple,
    finder: &mut Finder,
) -> Result<Option<&'a [u64]>, Memory>
    requires { IsReadOver fragment.now.table read.now }
    ensures { IfOk result (λ found. IsRowFound (shape_of read.now.spec.now read.now.edge) fragment.now.now read.now.edge tuple.now (option_copied found)) }
{
    part_values(
        tuple,
        read.resolved.source,
        read.resolved.key,
        &mut finder.source,
        &mut finder.key,
    )?;
    Ok(fragment.lookup(read.edge, &finder.source, &finder.key))
}

/// Makes the two lists the tuple's values at the columns of the source and at those of the key, each in column order. Costs
/// a walk over the tuple, and memory only where a list had room for fewer values than the tuple has.
#[inline(always)]
fn part_values(
    tuple: &Tuple,
    source: ColSet,
    key: ColSet,
    source_values: &mut Vec<u64>,
    key_values: &mut Vec<u64>,
) -> Result<(), Memory>
    ensures source { OnOk result (source_values.new.items ≡ values_at source tuple.now) }
    ensures key { OnOk result (key_values.new.items ≡ values_at key tuple.now) }
{
    let pairs = tuple.pairs();
    source_values.clear();
    source_values.reserve(pairs.len())?;
    key_values.clear();
    key_values.reserve(pairs.len())?;
    for pair in pairs {
        if source.has(pair.0) {
            source_values.push_reserved(pair.1);
        }
        if key.has(pair.0) {
            key_values.push_reserved(pair.1);
        }
    }
    Ok(())
}

/// The row that has the tuple's values of source and key, if there is one; what else the tuple has is of no matter. It takes
/// the spare tuple's memory. Costs what `find_row` does, another walk over the tuple, and a block only where the spare tuple
/// had room for fewer pairs.
pub(crate) fn find_tuple(
    alloc: Global,
    fragment: &Fragment,
    read: &EdgeRead,
    tuple: &Tuple,
    finder: &mut Finder,
) -> Result<Option<Tuple>, Memory>
    requires read { IsReadOver fragment.now.table read.now }
    requires columns { (w : EdgeRow) → In w fragment.now.now → cols_of w.1 ≡ bound read.now.spec.now (edge_at read.now.spec.now w.0).to }
    requires tuple { IsTuple tuple.now }
    requires given { Within (source_and_key read.now.spec.now (edge_at read.now.spec.now read.now.edge)) (cols_of tuple.now) }
    ensures { IfOk result (IsTupleFound (shape_of read.now.spec.now read.now.edge) fragment.now.now read.now.edge tuple.now) }
{
    let Some(values) = find_row(fragment, read, tuple, finder)? else {
        return Ok(None);
    };
    let resolved = read.resolved;
    let kept = resolved.source.union(resolved.key);
    let row = &mut finder.spare.tuple;
    row.refill_with(tuple, kept, resolved.extra, values)?;
    Ok(Some(mem::replace(row, Tuple::empty(alloc))))
}

/// Adds the values at the columns, in the order of the list: those of the extra columns, or else the tuple's.
pub(crate) fn push_picked(
    row: &mut Vec<u64>,
    cols: &[u8],
    tuple: &Tuple,
    extra: ColSet,
    values: &[u64],
) -> Result<(), Memory>
    requires { length values.now ≡ length extra }
    ensures { OnOk result (row.new.items ≡ row.old.items ++ pick cols.now (zip extra values.now ++ tuple.now)) }
{
    for col in cols {
        row.push(value_at(tuple, extra, values, *col))?;
    }
    Ok(())
}

/// The value at the column: that of an extra column, or else the tuple's, or 0.
fn value_at(tuple: &Tuple, extra: ColSet, values: &[u64], col: u8) -> u64
    requires { length values.now ≡ length extra }
    ensures { result ≡ value (zip extra values.now ++ tuple.now) col }
{
    if extra.has(col) {
        values[extra.rank(col) as usize]
    } else {
        tuple.get(col).unwrap_or(0)
    }
}

/// Adds the tuple's values at those of the columns that it has, in column order, at the end of a list.
pub(crate) fn push_values(tuple: &Tuple, cols: ColSet, values: &mut Vec<u64>) -> Result<(), Memory>
    ensures { OnOk result (values.new.items ≡ values.old.items ++ values_at cols tuple.now) }
{
    for pair in tuple.pairs() {
        if cols.has(pair.0) {
            values.push(pair.1)?;
        }
    }
    Ok(())
}
