//! Emit: a query's reply from its bindings.

ghost use Rattle.std.specs.Prelude.{◌≡◌, ◌↔◌, ℕ, List, IfOk, IsTrue, filter, map};
ghost use Rattle.rc_tuple.specs.RisingSet.{IsRising};
ghost use Rattle.rc_tuple.specs.Tuple.{pick};
ghost use Rattle.rc_spec.specs.Plain.{row_cmp};
ghost use Rattle.rc_spec.specs.Ranges.{in_ranges};
ghost use Rattle.rc_spec.specs.declared.items.OpKind.TheVariants.{Query};
ghost use Rattle.rc_plan.specs.Evaluation.{answer};
ghost use Rattle.rc_plan.specs.PlanRules.{IsQuery};

use rc_bindings::Bindings;
use rc_spec::{OpKind, Range, Reply, RowList};
use rc_tuple::{Cols, Memory};
use std::alloc::Global;

/// The reply of a query's Emit, with so many rows at most. Of the bindings those between the bounds are kept.
pub(crate) fn emit(
    alloc: Global,
    most: u64,
    kind: &OpKind,
    ranges: &[Range],
    bindings: &mut Bindings,
) -> Result<Reply, Memory>
    requires { IsQuery kind.now }
    ensures { IfOk result (λ reply. (outs cols : List ℕ) → kind.now ≡ Query outs cols
        → reply ≡ answer most outs (filter (in_ranges ranges.now) bindings.old.tuples)) }
{
    match kind {
        OpKind::Query { outs, .. } => {
            keep_asked(ranges, bindings);
            answer(alloc, most, outs, bindings)
        }
        OpKind::Insert | OpKind::Remove | OpKind::Update => unreachable!(),
    }
}

/// Keeps the bindings that are between the bounds, if there are bounds.
fn keep_asked(ranges: &[Range], bindings: &mut Bindings)
    ensures { bindings.new.tuples ≡ filter (in_ranges ranges.now) bindings.old.tuples }
{
    if !ranges.is_empty() {
        bindings.keep_in_ranges(ranges);
    }
}

/// The reply of a query from its bindings: the distinct rows of the outputs where there are so many at most, and else
/// their number. Mostly the rows rise as the bindings do; where they don't, they are gathered.
fn answer(alloc: Global, most: u64, outs: &Cols, bindings: &Bindings) -> Result<Reply, Memory>
    ensures { IfOk result (λ reply. reply ≡ answer most outs.now bindings.now.tuples) }
{
    if !rows_rise(outs, bindings) {
        return rc_plan::answer(alloc, most, outs, &[], &bindings.tuples(alloc)?);
    }
    let count = bindings.len() as u64;
    if count > most {
        return Ok(Reply::Many(count));
    }
    Ok(Reply::Rows(rows(alloc, outs, bindings)?))
}

/// Whether each binding's row is below the next one's.
fn rows_rise(outs: &Cols, bindings: &Bindings) -> bool
    ensures { IsTrue result ↔ IsRising row_cmp (map (pick outs.now) bindings.now.tuples) }
{
    for at in 1..bindings.len() {
        if !bindings
            .get(at - 1)
            .order_by(outs, &bindings.get(at))
            .is_lt()
        {
            return false;
        }
    }
    true
}

/// The row of each binding, in one block.
fn rows(alloc: Global, outs: &Cols, bindings: &Bindings) -> Result<RowList, Memory>
    ensures { IfOk result (λ rows. rows ≡ map (pick outs.now) bindings.now.tuples) }
{
    let width = outs.list().len();
    let mut values = Vec::with_capacity(alloc, bindings.len().saturating_mul(width))?;
    for at in 0..bindings.len() {
        bindings.get(at).push_picked(outs, &mut values)?;
    }
    Ok(RowList::of_width(values, bindings.len(), width))
}
