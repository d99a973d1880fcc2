//! Tuples by their values at some columns.

ghost use Rattle.std.specs.Prelude.{◌≡◌, IfOk, OnOk};
ghost use Rattle.rc_instance.specs.Index.{IsAdded, IsIndexed};

use rc_maps::Seed;
use rc_tuple::{ColSet, Memory, Tuple};
use std::alloc::Global;
use std::collections::HashMap;

/// The tuples that have the same pairs at the columns by which they are looked up.
pub(crate) type Index<'a> = HashMap<Vec<(u8, u64)>, Vec<&'a Tuple>, Seed>;

/// The tuples by their pairs at the columns.
pub(crate) fn index_by(
    alloc: Global,
    seed: Seed,
    tuples: &[Tuple],
    columns: ColSet,
) -> Result<Index<'_>, Memory>
    ensures { IfOk result (λ index. IsIndexed columns tuples.now index.entries) }
{
    let mut index = HashMap::with_hasher(alloc, seed);
    for tuple in tuples {
        let key = tuple.project(columns)?;
        add(alloc, &mut index, key.pairs(), tuple)?;
    }
    Ok(index)
}

/// Adds a tuple at the key.
fn add<'a>(
    alloc: Global,
    index: &mut Index<'a>,
    key: &[(u8, u64)],
    tuple: &'a Tuple,
) -> Result<(), Memory>
    ensures { OnOk result (IsAdded key.now tuple.now index.old.entries index.new.entries) }
{
    if let Some(tuples) = index.get_mut(key) {
        tuples.push(tuple)?;
        return Ok(());
    }
    let mut tuples = Vec::new(alloc);
    tuples.push(tuple)?;
    index.insert(Vec::from_slice(alloc, key)?, tuples)?;
    Ok(())
}
