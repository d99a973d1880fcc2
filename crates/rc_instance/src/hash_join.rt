//! The natural join.

ghost use Rattle.std.specs.Prelude.{◌≡◌, ◌++◌, IfOk, OnOk};
ghost use Rattle.rc_tuple.specs.RisingSet.{In};
ghost use Rattle.rc_tuple.specs.ColSet.{Within};
ghost use Rattle.rc_tuple.specs.Tuple.{IsTuple, Pairs, cols_of, merges_of, project};
ghost use Rattle.rc_spec.specs.Contents.{join};
ghost use Rattle.rc_instance.specs.Index.{found_at, tuples_of};

use crate::index::{Index, index_by};
use rc_maps::Seed;
use rc_tuple::{ColSet, Memory, Tuple, Tuples, distinct};
use std::alloc::Global;

/// The natural join of two lists of tuples: the merges of each pair that agrees, rising, each once.
/// Tuples are brought together by their values at the columns that all of both lists have, so where
/// the lists have one column set each, only tuples that agree are merged. (A hash join.)
/// The seed is that of its hash table.
pub fn join(alloc: Global, seed: Seed, left: &[Tuple], right: &[Tuple]) -> Result<Tuples, Memory>
    ensures { IfOk result (λ joined. joined ≡ join left.now right.now) }
{
    let columns = shared_columns(left).inter(shared_columns(right));
    let index = index_by(alloc, seed, right, columns)?;
    let mut merges = Vec::new(alloc);
    for tuple in left {
        push_found(&mut merges, &index, tuple, columns)?;
    }
    Ok(Tuples::from_vec(distinct(merges)))
}

/// The columns that all of the tuples have.
fn shared_columns(tuples: &[Tuple]) -> ColSet
    ensures shared { (t : Pairs) → In t tuples.now → Within result (cols_of t) }
    ensures tuples { (t : Pairs) → In t tuples.now → IsTuple t }
{
    let Some(first) = tuples.first() else {
        return ColSet::empty();
    };
    let mut columns = first.cols();
    for tuple in tuples {
        columns = columns.inter(tuple.cols());
    }
    columns
}

/// Appends the merges of the tuple with those that have its pairs at the columns and agree with it.
fn push_found(
    merges: &mut Vec<Tuple>,
    index: &Index,
    tuple: &Tuple,
    columns: ColSet,
) -> Result<(), Memory>
    ensures { OnOk result (merges.new.items ≡ merges.old.items ++ merges_of tuple.now (found_at index.now.entries (project columns tuple.now))) }
{
    let key = tuple.project(columns)?;
    match index.get(key.pairs()) {
        Some(others) => push_merges(merges, tuple, others),
        None => Ok(()),
    }
}

/// Appends the merges of the tuple with those that agree with it.
fn push_merges(merges: &mut Vec<Tuple>, tuple: &Tuple, others: &[&Tuple]) -> Result<(), Memory>
    ensures { OnOk result (merges.new.items ≡ merges.old.items ++ merges_of tuple.now (tuples_of others.now)) }
{
    for other in others {
        if let Some(merge) = tuple.merge(other)? {
            merges.push(merge)?;
        }
    }
    Ok(())
}
