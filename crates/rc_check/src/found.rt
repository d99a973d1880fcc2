//! K6: what was found before an answer, a check or a write.

ghost use Rattle.std.specs.Prelude.{◌≡◌, ◌<◌, ◌≤◌, ◌↔◌, length, IsTrue, Some};
ghost use Rattle.rc_tuple.specs.ColSet.{Within};
ghost use Rattle.rc_spec.specs.Calls.{all_columns};
ghost use Rattle.rc_spec.specs.InRange.{IsInRange, IsOpAmong};
ghost use Rattle.rc_spec.specs.Ranges.{range_columns};
ghost use Rattle.rc_plan.specs.Evaluation.{dep_at};
ghost use Rattle.rc_plan.specs.PlanRules.{Progress, FindsTuples, IsKnown, KeepsK6, OutputsAreVisited, TellsOld, pattern_columns};
ghost use Rattle.rc_check.specs.Sets.{sets_of};

use crate::progress::{ProgressSets, pattern_of};
use rc_plan::Statement;
use rc_spec::{Op, OpKind, Spec};
use rc_tuple::ColSet;

/// Whether the outputs of a query are visited.
fn outputs_are_visited(spec: &Spec, op: &Op, visited: ColSet) -> bool
    requires range { IsInRange spec.now }
    requires known { IsOpAmong (length spec.now.columns) op.now }
    ensures { IsTrue result ↔ OutputsAreVisited op.now.kind visited }
{
    match &op.kind {
        OpKind::Query { outs, .. } => ColSet::from_list(outs.list()).within(visited),
        OpKind::Insert | OpKind::Remove | OpKind::Update => true,
    }
}

/// Whether the range columns of a query are visited.
fn ranges_are_visited(spec: &Spec, op: &Op, visited: ColSet) -> bool
    requires range { IsInRange spec.now }
    requires known { IsOpAmong (length spec.now.columns) op.now }
    ensures { IsTrue result ↔ Within (range_columns op.now.kind) visited }
{
    match &op.kind {
        OpKind::Query { ranges, .. } => ColSet::from_list(ranges.list()).within(visited),
        OpKind::Insert | OpKind::Remove | OpKind::Update => true,
    }
}

/// Whether the outputs and the range columns of a query are visited.
fn asked_is_visited(spec: &Spec, op: &Op, visited: ColSet) -> bool
    requires range { IsInRange spec.now }
    requires known { IsOpAmong (length spec.now.columns) op.now }
    ensures { IsTrue result ↔ (OutputsAreVisited op.now.kind visited × Within (range_columns op.now.kind) visited) }
{
    outputs_are_visited(spec, op, visited) && ranges_are_visited(spec, op, visited)
}

/// Whether a query has found its pattern, its outputs and its range columns.
fn has_found_answer(spec: &Spec, op: &Op, visited: ColSet) -> bool
    requires range { IsInRange spec.now }
    requires known { IsOpAmong (length spec.now.columns) op.now }
    ensures { IsTrue result ↔ (Within (pattern_columns op.now) visited × OutputsAreVisited op.now.kind visited × Within (range_columns op.now.kind) visited) }
{
    pattern_of(spec, op).within(visited) && asked_is_visited(spec, op, visited)
}

/// Whether a dependency was searched by its left side, and both its sides are visited.
fn has_found_dep(spec: &Spec, before: &ProgressSets, dep: u32) -> bool
    requires some { 0 < dep }
    requires known { dep ≤ length spec.now.deps }
    ensures { (p : Progress) → before.now ≡ sets_of p
        → IsTrue result ↔ ((p.probe ≡ Some (dep_at spec.now dep).left) × Within (dep_at spec.now dep).left p.visited
        × Within (dep_at spec.now dep).right p.visited) }
{
    let dep = &spec.deps.list()[dep as usize - 1];
    before.has_found(dep.left) && dep.right.within(before.visited)
}

/// Whether an update's search tells the old tuple: its pattern is visited.
fn tells_old(spec: &Spec, op: &Op, visited: ColSet) -> bool
    requires range { IsInRange spec.now }
    requires known { IsOpAmong (length spec.now.columns) op.now }
    ensures { IsTrue result ↔ TellsOld op.now op.now.kind visited }
{
    match op.kind {
        OpKind::Update => pattern_of(spec, op).within(visited),
        OpKind::Query { .. } | OpKind::Insert | OpKind::Remove => true,
    }
}

/// Whether a dependency's search finds all that its check compares.
fn is_dep_told(spec: &Spec, op: &Op, before: &ProgressSets, dep: u32) -> bool
    requires range { IsInRange spec.now }
    requires operation { IsOpAmong (length spec.now.columns) op.now }
    requires some { 0 < dep }
    requires known { dep ≤ length spec.now.deps }
    ensures { (p : Progress) → before.now ≡ sets_of p
        → IsTrue result ↔ ((p.probe ≡ Some (dep_at spec.now dep).left) × Within (dep_at spec.now dep).left p.visited
        × Within (dep_at spec.now dep).right p.visited × TellsOld op.now op.now.kind p.visited) }
{
    has_found_dep(spec, before, dep) && tells_old(spec, op, before.visited)
}

/// Whether the pattern was searched, and all columns are visited.
fn has_found_tuple(spec: &Spec, op: &Op, before: &ProgressSets) -> bool
    requires range { IsInRange spec.now }
    requires known { IsOpAmong (length spec.now.columns) op.now }
    ensures { (p : Progress) → before.now ≡ sets_of p
        → IsTrue result ↔ ((p.probe ≡ Some (pattern_columns op.now)) × Within (all_columns spec.now) p.visited) }
{
    before.has_probed_for(pattern_of(spec, op)) && spec.all_columns().within(before.visited)
}

/// Whether a remove has visited all columns.
fn finds_tuples(spec: &Spec, op: &Op, visited: ColSet) -> bool
    requires { IsInRange spec.now }
    ensures { IsTrue result ↔ FindsTuples spec.now op.now.kind visited }
{
    match op.kind {
        OpKind::Remove => spec.all_columns().within(visited),
        OpKind::Query { .. } | OpKind::Insert | OpKind::Update => true,
    }
}

/// Whether what the statement speaks of was visited (K6).
pub(crate) fn keeps_k6(spec: &Spec, op: &Op, before: &ProgressSets, statement: &Statement) -> bool
    requires range { IsInRange spec.now }
    requires operation { IsOpAmong (length spec.now.columns) op.now }
    requires known { IsKnown spec.now statement.now }
    ensures { (p : Progress) → before.now ≡ sets_of p → IsTrue result ↔ KeepsK6 spec.now op.now p statement.now }
{
    match *statement {
        Statement::Emit => has_found_answer(spec, op, before.visited),
        Statement::CheckAbsent => before.has_found(pattern_of(spec, op)),
        Statement::CheckFound => has_found_tuple(spec, op, before),
        Statement::CheckDep { dep } => is_dep_told(spec, op, before, dep),
        Statement::Apply => finds_tuples(spec, op, before.visited),
        _ => true,
    }
}
