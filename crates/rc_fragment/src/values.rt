//! The values of a tuple at some columns.

ghost use Rattle.std.specs.Prelude.{◌≡◌, IfOk};
ghost use Rattle.rc_fragment.specs.RowValues.{values_at};

use crate::note::push_values;
use rc_tuple::{ColSet, Memory, Tuple};

/// The values at those of the columns that the tuple has, in column order.
pub fn values_at(tuple: &Tuple, cols: ColSet) -> Result<Vec<u64>, Memory>
    ensures { IfOk result (λ values. values.items ≡ values_at cols tuple.now) }
{
    let pairs = tuple.pairs();
    let mut values = Vec::with_capacity(tuple.alloc(), pairs.len())?;
    push_values(&mut values, pairs, cols);
    Ok(values)
}
