//! What the statements of a plan find, over any bindings and rows.

ghost use Rattle.std.specs.Prelude.{◌≡◌, ◌<◌, ◌≤◌, ◌&&◌, ◌++◌, ◌∷◌, [], filter, length, not, IfOk, OnOk};
ghost use Rattle.std.specs.List.{list_any};
ghost use Rattle.rc_tuple.specs.Tuple.{agree_on, merges_of};
ghost use Rattle.rc_spec.specs.InRange.{AreBelow};
ghost use Rattle.rc_spec.specs.Ranges.{in_ranges};
ghost use Rattle.rc_plan.specs.Evaluation.{answer, some_differs, stays_beside};

use rc_spec::{Op, OpKind, QueryRows, Range, Reply, Spec, in_ranges};
use rc_tuple::{ColSet, Cols, Memory, Tuple};
use std::alloc::Global;

/// The reply of a query from its bindings that are between the bounds: the distinct rows of the outputs where there are so many
/// at most, and else their number.
pub fn answer(
    alloc: Global,
    most: u64,
    outs: &Cols,
    ranges: &[Range],
    bindings: &[Tuple],
) -> Result<Reply, Memory>
    ensures { IfOk result (λ reply. reply ≡ answer most outs.now (filter (in_ranges ranges.now) bindings.now)) }
{
    let mut rows = QueryRows::new(alloc);
    for binding in bindings {
        if in_ranges(ranges, binding) {
            rows.add(outs, binding)?;
        }
    }
    rows.reply(alloc, most)
}

/// Whether a binding that stays beside the call's tuple differs from it on the right side of a dependency, which is numbered
/// from 1. In an update the old tuple doesn't stay: the binding that has the new one's pattern values.
pub fn some_differs(
    spec: &Spec,
    op: &Op,
    dep: u32,
    args: &Tuple,
    bindings: &[Tuple],
) -> Result<bool, Memory>
    requires some { 0 < dep }
    requires known { dep ≤ length spec.now.deps }
    requires pattern { AreBelow 32 op.now.pattern }
    ensures { IfOk result (λ found. found ≡ some_differs spec.now op.now dep args.now bindings.now) }
{
    differs_on(op, spec.deps.list()[dep as usize - 1].right, args, bindings)
}

/// Whether a binding that stays beside the call's tuple differs from it at the columns.
fn differs_on(op: &Op, cols: ColSet, args: &Tuple, bindings: &[Tuple]) -> Result<bool, Memory>
    requires { AreBelow 32 op.now.pattern }
    ensures { IfOk result (λ found. found ≡ list_any (λ b. stays_beside op.now.kind op.now.pattern args.now b && not (agree_on cols b args.now)) bindings.now) }
{
    for binding in bindings {
        if conflicts(op, cols, args, binding)? {
            return Ok(true);
        }
    }
    Ok(false)
}

/// Whether the binding stays beside the call's tuple and differs from it at the columns.
fn conflicts(op: &Op, cols: ColSet, args: &Tuple, binding: &Tuple) -> Result<bool, Memory>
    requires { AreBelow 32 op.now.pattern }
    ensures { IfOk result (λ found. found ≡ (stays_beside op.now.kind op.now.pattern args.now binding.now && not (agree_on cols binding.now args.now))) }
{
    if !stays_beside(op, args, binding)? {
        return Ok(false);
    }
    Ok(!is_same_on(cols, binding, args)?)
}

/// Whether the binding stays beside the call's tuple.
fn stays_beside(op: &Op, args: &Tuple, binding: &Tuple) -> Result<bool, Memory>
    requires { AreBelow 32 op.now.pattern }
    ensures { IfOk result (λ stays. stays ≡ stays_beside op.now.kind op.now.pattern args.now binding.now) }
{
    match &op.kind {
        OpKind::Update => {
            let pattern = ColSet::from_list(op.pattern.list());
            Ok(!is_same_on(pattern, binding, args)?)
        }
        OpKind::Query { .. } | OpKind::Insert | OpKind::Remove => Ok(true),
    }
}

/// Whether the two have the same projection on the columns.
fn is_same_on(cols: ColSet, binding: &Tuple, args: &Tuple) -> Result<bool, Memory>
    ensures { IfOk result (λ same. same ≡ agree_on cols binding.now args.now) }
{
    let pairs = binding.project(cols)?;
    let others = args.project(cols)?;
    Ok(pairs.order(&others).is_eq())
}

/// Appends the merges of a binding with those of the tuples that agree with it, in their order.
pub fn push_merges(merges: &mut Vec<Tuple>, binding: &Tuple, tuples: &[Tuple]) -> Result<(), Memory>
    ensures { OnOk result (merges.new.items ≡ merges.old.items ++ merges_of binding.now tuples.now) }
{
    for tuple in tuples {
        push_merge(merges, binding, tuple)?;
    }
    Ok(())
}

/// Appends the merge of a binding with a tuple, if they agree.
pub fn push_merge(merges: &mut Vec<Tuple>, binding: &Tuple, tuple: &Tuple) -> Result<(), Memory>
    ensures { OnOk result (merges.new.items ≡ merges.old.items ++ merges_of binding.now (tuple.now ∷ [])) }
{
    if let Some(merge) = binding.merge(tuple)? {
        merges.push(merge)?;
    }
    Ok(())
}
