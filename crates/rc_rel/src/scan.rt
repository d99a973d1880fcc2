//! The reply of a query on a list of tuples.

ghost use Rattle.std.specs.Prelude.{◌≡◌, filter, IfOk};
ghost use Rattle.rc_spec.specs.Plain.{rows_of, at_most};
ghost use Rattle.rc_spec.specs.Ranges.{is_asked};

use rc_spec::{QueryRows, Range, Reply, in_ranges};
use rc_tuple::{Cols, Memory, Tuple};
use std::alloc::Global;

/// Whether the tuple has the pattern's values, and lies between the bounds.
fn is_asked(pattern: &Tuple, ranges: &[Range], tuple: &Tuple) -> bool
    ensures { result ≡ is_asked pattern.now ranges.now tuple.now }
{
    tuple.matches(pattern) && in_ranges(ranges, tuple)
}

/// The reply of a query: the distinct values of the outputs in the tuples that match the call, where there are
/// so many at most, and else their number.
pub(crate) fn query(
    alloc: Global,
    most: u64,
    tuples: &[Tuple],
    outs: &Cols,
    pattern: &Tuple,
    ranges: &[Range],
) -> Result<Reply, Memory>
    ensures { IfOk result (λ reply. reply ≡ at_most most (rows_of outs.now (filter (is_asked pattern.now ranges.now) tuples.now))) }
{
    let mut rows = QueryRows::new(alloc);
    for tuple in tuples {
        if is_asked(pattern, ranges, tuple) {
            rows.add(outs, tuple)?;
        }
    }
    rows.reply(alloc, most)
}
