//! The checks of an insert and of an update.

ghost use Rattle.std.specs.Prelude.{◌≡◌, ℕ, ◌<◌, ◌≤◌, ◌&&◌, length, not, if◌then◌else◌, IfOk, IfSome, Some, None};
ghost use Rattle.std.specs.List.{list_any};
ghost use Rattle.rc_tuple.specs.Tuple.{IsTuple, agree_on};
ghost use Rattle.rc_spec.specs.Acceptance.{IsSealed};
ghost use Rattle.rc_spec.specs.InRange.{AreBelow, IsSetBelow};
ghost use Rattle.rc_spec.specs.declared.call.Reply.TheVariants.{Conflict, Present};
ghost use Rattle.rc_plan.specs.Evaluation.{some_differs, some_left, stays_beside};
ghost use Rattle.rc_machine.specs.Checks.{is_beside, told_by};
ghost use Rattle.rc_machine.specs.Run.{HasKeptLeast};

use rc_bindings::{Binding, Bindings};
use rc_spec::{Op, OpKind, Reply, Spec};
use rc_tuple::{ColSet, Memory, Tuple};
use std::alloc::Global;

/// The reply of CheckAbsent: Present, where a binding is left.
pub(crate) fn present(bindings: &Bindings) -> Option<Reply>
    ensures { result ≡ (if some_left bindings.now.tuples then Some Present else None) }
{
    if bindings.is_empty() {
        None
    } else {
        Some(Reply::Present)
    }
}

/// The reply of CheckFound: Absent, where no binding is left; else the least of them is the old tuple from now on.
pub(crate) fn found(
    alloc: Global,
    bindings: &Bindings,
    old: &mut Option<Tuple>,
) -> Result<Option<Reply>, Memory>
    ensures { IfOk result (HasKeptLeast bindings.now.tuples old.new) }
{
    if bindings.is_empty() {
        return Ok(Some(Reply::Absent));
    }
    *old = Some(bindings.get(0).tuple(alloc)?);
    Ok(None)
}

/// The reply of CheckDep: Conflict, where a binding differs on the right side of the dependency, numbered from 1.
pub(crate) fn conflict(
    spec: &Spec,
    op: &Op,
    dep: u32,
    args: &Tuple,
    bindings: &Bindings,
) -> Option<Reply>
    requires sealed { IsSealed spec.now }
    requires some { 0 < dep }
    requires known { dep ≤ length spec.now.deps }
    requires pattern { AreBelow (length spec.now.columns) op.now.pattern }
    requires tuple { IsTuple args.now }
    requires wide { bindings.now.width ≡ length spec.now.columns }
    ensures { result ≡ (if some_differs spec.now op.now dep args.now bindings.now.tuples then Some (Conflict dep) else None) }
{
    if some_differs(spec, op, dep, args, bindings) {
        Some(Reply::Conflict(dep))
    } else {
        None
    }
}

/// Whether a binding that stays beside the call's tuple differs from it on the right side of a dependency.
fn some_differs(spec: &Spec, op: &Op, dep: u32, args: &Tuple, bindings: &Bindings) -> bool
    requires sealed { IsSealed spec.now }
    requires some { 0 < dep }
    requires known { dep ≤ length spec.now.deps }
    requires pattern { AreBelow (length spec.now.columns) op.now.pattern }
    requires tuple { IsTuple args.now }
    requires wide { bindings.now.width ≡ length spec.now.columns }
    ensures { result ≡ some_differs spec.now op.now dep args.now bindings.now.tuples }
{
    differ_on(op, spec.deps.list()[dep as usize - 1].right, args, bindings)
}

/// Whether a binding that stays beside the call's tuple differs from it at the columns.
fn differ_on(op: &Op, cols: ColSet, args: &Tuple, bindings: &Bindings) -> bool
    requires columns { IsSetBelow bindings.now.width cols }
    requires few { bindings.now.width ≤ 32 }
    requires pattern { AreBelow bindings.now.width op.now.pattern }
    requires tuple { IsTuple args.now }
    ensures { result ≡ list_any (λ b. stays_beside op.now.kind op.now.pattern args.now b && not (agree_on cols b args.now)) bindings.now.tuples }
{
    let telling = told_by(op);
    for at in 0..bindings.len() {
        if conflicts(&telling, cols, args, &bindings.get(at)) {
            return true;
        }
    }
    false
}

/// The columns that tell an update's old tuple by the call's values. No other operation has an old tuple.
fn told_by(op: &Op) -> Option<ColSet>
    requires { AreBelow 32 op.now.pattern }
    ensures value { result ≡ told_by op.now.kind op.now.pattern }
    ensures below { (width : ℕ) → AreBelow width op.now.pattern → IfSome result (IsSetBelow width) }
{
    match &op.kind {
        OpKind::Update => Some(ColSet::from_list(op.pattern.list())),
        OpKind::Query { .. } | OpKind::Insert | OpKind::Remove => None,
    }
}

/// Whether the binding stays beside the call's tuple and differs from it at the columns.
fn conflicts(telling: &Option<ColSet>, cols: ColSet, args: &Tuple, binding: &Binding) -> bool
    requires columns { IsSetBelow binding.now.width cols }
    requires telling { IfSome telling.now (IsSetBelow binding.now.width) }
    requires tuple { IsTuple args.now }
    ensures { result ≡ (is_beside telling.now args.now binding.now.tuple && not (agree_on cols binding.now.tuple args.now)) }
{
    is_beside(telling, args, binding) && !binding.agrees_on(cols, args)
}

/// Whether the binding stays beside the call's tuple, which the old tuple doesn't.
fn is_beside(telling: &Option<ColSet>, args: &Tuple, binding: &Binding) -> bool
    requires telling { IfSome telling.now (IsSetBelow binding.now.width) }
    requires tuple { IsTuple args.now }
    ensures { result ≡ is_beside telling.now args.now binding.now.tuple }
{
    match telling {
        Some(cols) => !binding.agrees_on(*cols, args),
        None => true,
    }
}
