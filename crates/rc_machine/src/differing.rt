//! The columns in which two tuples differ.

ghost use Rattle.std.specs.Prelude.{◌≡◌, ◌==◌, List, ℕ, length};
ghost use Rattle.rc_tuple.specs.ColSet.{inter};
ghost use Rattle.rc_tuple.specs.Tuple.{agree_on, cols_of};

use rc_tuple::{ColSet, Tuple};

/// The columns at which two tuples over the same columns have different values: those that they agree on are those of
/// which none is in the set.
pub(crate) fn differing(tuple: &Tuple, other: &Tuple) -> ColSet
    requires { cols_of tuple.now ≡ cols_of other.now }
    ensures { (cols : List ℕ) → agree_on cols tuple.now other.now ≡ (length (inter cols result) == 0) }
{
    let pairs = tuple.pairs();
    let others = other.pairs();
    let mut cols = ColSet::empty();
    for (at, pair) in pairs.iter().enumerate() {
        if pair.1 != others[at].1 {
            cols = cols.with(pair.0);
        }
    }
    cols
}
