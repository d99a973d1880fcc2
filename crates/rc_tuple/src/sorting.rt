//! Tuples in their order, each once.

ghost use Rattle.std.specs.Prelude.{◌≡◌};
ghost use Rattle.rc_tuple.specs.RisingSet.{gather};
ghost use Rattle.rc_tuple.specs.Tuple.{tuple_cmp};

use crate::Tuple;

/// The tuples rising, without repeats. Takes no memory.
pub fn distinct(mut tuples: Vec<Tuple>) -> Vec<Tuple>
    ensures { result.items ≡ gather tuple_cmp tuples.items }
{
    tuples.sort_unstable_by(|tuple, other| tuple.order(other));
    tuples.dedup_by(|tuple, last| tuple.order(last).is_eq());
    tuples
}
