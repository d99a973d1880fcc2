//! The call that an operation's number and values make.

ghost use Rattle.std.specs.Prelude.{◌≡◌, ◌<◌, ◌*◌, length, OnOk};
ghost use Rattle.rc_spec.specs.Ranges.{AreBounded};
ghost use Rattle.rc_spec.specs.Placement.{op_at};
ghost use Rattle.rc_work.specs.CallColumns.{HasKnownColumns, call_of, ranges_of, written_columns_at};
ghost use Rattle.rc_work.specs.Fitting.{IsOfWords};
ghost use Rattle.rc_work.specs.Shapes.{with_operations};

use crate::columns::range_columns;
use rc_spec::{Call, Op, Ranges, Spec};
use rc_tuple::Memory;

/// Makes the ranges those of the columns, with a lower and an upper bound for each, in the memory that they have.
fn refill_ranges(ranges: &mut Ranges, cols: &[u8], bounds: &[u64]) -> Result<(), Memory>
    requires { length bounds.now ≡ 2 * length cols.now }
    ensures ranges { OnOk result (ranges.new ≡ ranges_of cols.now bounds.now) }
    ensures bounded { OnOk result (AreBounded ranges.new) }
{
    ranges.clear();
    for (at, col) in cols.iter().enumerate() {
        ranges.push(*col, bounds[2 * at], bounds[2 * at + 1])?;
    }
    // A call of `list` tells the check that they are bounded.
    let _ = ranges.list();
    Ok(())
}

/// The operation with this number of a specification with further operations.
fn op_over<'a>(spec: &'a Spec, shapes: &'a [Op], number: u8) -> &'a Op
    requires { number < length (with_operations spec.now shapes.now).ops }
    ensures { result.now ≡ op_at (with_operations spec.now shapes.now) number }
{
    let own = spec.ops.list();
    let number = number as usize;
    if number < own.len() {
        &own[number]
    } else {
        &shapes[number - own.len()]
    }
}

/// Makes the call that of the operation with this number, of a specification with further operations, and these values, as
/// `refill_call` does.
pub(crate) fn refill_over(
    call: &mut Call,
    spec: &Spec,
    shapes: &[Op],
    op: u8,
    cols: &[u8],
    values: &[u64],
) -> Result<(), Memory>
    requires columns { HasKnownColumns (with_operations spec.now shapes.now) }
    requires known { op < length (with_operations spec.now shapes.now).ops }
    requires cols { cols.now ≡ written_columns_at (with_operations spec.now shapes.now) op }
    requires count { length values.now ≡ length cols.now }
    ensures call { OnOk result (call.new ≡ call_of (with_operations spec.now shapes.now) op values.now) }
    ensures words { OnOk result (IsOfWords call.new) }
{
    let ranges = range_columns(&op_over(spec, shapes, op).kind);
    let given = cols.len() - 2 * ranges.len();
    call.op = op;
    call.args.refill(&cols[..given], &values[..given])?;
    refill_ranges(&mut call.ranges, ranges, &values[given..])?;
    // A call of `pairs` tells the check that they are a tuple.
    let _ = call.args.pairs();
    Ok(())
}

/// Makes the call that of the operation with this number and these values, for the columns that it is written with.
/// Its tuple and its bounds are made in the memory that the call has, and take more only where it had room for fewer. After
/// want of memory it is of no use.
pub fn refill_call(
    call: &mut Call,
    spec: &Spec,
    op: u8,
    cols: &[u8],
    values: &[u64],
) -> Result<(), Memory>
    requires columns { HasKnownColumns spec.now }
    requires known { op < length spec.now.ops }
    requires cols { cols.now ≡ written_columns_at spec.now op }
    requires count { length values.now ≡ length cols.now }
    ensures call { OnOk result (call.new ≡ call_of spec.now op values.now) }
    ensures words { OnOk result (IsOfWords call.new) }
{
    refill_over(call, spec, &[], op, cols, values)
}
