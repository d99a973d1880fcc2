//! Whether a call fits a specification.

ghost use Rattle.std.specs.Prelude.{◌≡◌, ◌↔◌, IsTrue, map};
ghost use Rattle.std.specs.Ordering.{nat_cmp};
ghost use Rattle.rc_tuple.specs.RisingSet.{In, gather};
ghost use Rattle.rc_spec.specs.Calls.{Fits, value_columns};
ghost use Rattle.rc_spec.specs.InRange.{IsInRange};
ghost use Rattle.rc_spec.specs.Ranges.{range_column, range_columns};

use crate::range::are_over;
use crate::{Call, Op, OpKind, Range, Spec};
use rc_tuple::ColSet;

/// The set of the columns whose values a call of the operation gives.
fn columns_given(spec: &Spec, op: &Op) -> ColSet
    requires range { IsInRange spec.now }
    requires known { In op.now spec.now.ops }
    ensures { result ≡ gather nat_cmp (value_columns spec.now op.now.pattern op.now.kind) }
{
    match op.kind {
        OpKind::Insert => spec.all_columns(),
        OpKind::Update => spec.all_columns(),
        OpKind::Query { .. } | OpKind::Remove => ColSet::from_list(op.pattern.list()),
    }
}

/// Whether the bounds are those that a call of the operation gives: one pair for each range column of a query, in order.
fn ranges_fit(op: &Op, ranges: &[Range]) -> bool
    ensures { IsTrue result ↔ (map range_column ranges.now ≡ range_columns op.now.kind) }
{
    match &op.kind {
        OpKind::Query {
            outs: _,
            ranges: cols,
        } => are_over(ranges, cols.list()),
        OpKind::Insert | OpKind::Remove | OpKind::Update => are_over(ranges, &[]),
    }
}

/// Whether the call's operation is one of the specification's, and its arguments have a value for each column that a
/// call of the operation gives, and no other, and bounds for its range columns. Takes no memory.
pub fn fits(spec: &Spec, call: &Call) -> bool
    requires { IsInRange spec.now }
    ensures { IsTrue result ↔ Fits spec.now call.now }
{
    if call.op as usize >= spec.ops.list().len() {
        return false;
    }
    let op = spec.op(call.op);
    let given = columns_given(spec, op);
    call.args.cols().equals(given) && ranges_fit(op, call.ranges.list())
}
