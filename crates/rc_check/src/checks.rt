//! K7: the checks of an insert and of an update.

ghost use Rattle.std.specs.Prelude.{◌≡◌, ℕ, ◌<◌, ◌≤◌, ◌↔◌, length, IsTrue, true};
ghost use Rattle.rc_tuple.specs.RisingSet.{In};
ghost use Rattle.rc_spec.specs.InRange.{IsInRange, IsOpAmong};
ghost use Rattle.rc_plan.specs.PlanRules.{Progress, ChecksAreDone, IsAtRisk, KeepsK7};
ghost use Rattle.rc_check.specs.Sets.{sets_of};

use crate::progress::{ProgressSets, pattern_of};
use rc_plan::Statement;
use rc_spec::{Op, OpKind, Spec};

/// Whether each dependency that an insert or an update may break is checked: one whose left side doesn't hold the whole pattern.
fn all_are_checked(spec: &Spec, op: &Op, before: &ProgressSets) -> bool
    requires range { IsInRange spec.now }
    requires known { IsOpAmong (length spec.now.columns) op.now }
    ensures { (p : Progress) → before.now ≡ sets_of p
        → IsTrue result ↔ ((dep : ℕ) → 0 < dep → dep ≤ length spec.now.deps → IsAtRisk spec.now op.now dep → In dep p.checked) }
{
    let pattern = pattern_of(spec, op);
    for (place, dep) in spec.deps.list().iter().enumerate() {
        if !pattern.within(dep.left) && !before.checked.has(place as u8) {
            return false;
        }
    }
    true
}

/// Whether the check of the pattern and those of the dependencies that may break have come.
fn has_checked(spec: &Spec, op: &Op, before: &ProgressSets) -> bool
    requires range { IsInRange spec.now }
    requires known { IsOpAmong (length spec.now.columns) op.now }
    ensures { (p : Progress) → before.now ≡ sets_of p
        → IsTrue result ↔ ((p.sought ≡ true) × ((dep : ℕ) → 0 < dep → dep ≤ length spec.now.deps → IsAtRisk spec.now op.now dep → In dep p.checked)) }
{
    before.sought && all_are_checked(spec, op, before)
}

/// Whether all checks that an operation needs have come.
fn checks_are_done(spec: &Spec, op: &Op, before: &ProgressSets) -> bool
    requires range { IsInRange spec.now }
    requires known { IsOpAmong (length spec.now.columns) op.now }
    ensures { (p : Progress) → before.now ≡ sets_of p → IsTrue result ↔ ChecksAreDone spec.now op.now op.now.kind p }
{
    match op.kind {
        OpKind::Insert | OpKind::Update => has_checked(spec, op, before),
        OpKind::Query { .. } | OpKind::Remove => true,
    }
}

/// Whether a dependency's check comes in its turn, and an insert's or an update's write after all checks (K7).
pub(crate) fn keeps_k7(spec: &Spec, op: &Op, before: &ProgressSets, statement: &Statement) -> bool
    requires range { IsInRange spec.now }
    requires known { IsOpAmong (length spec.now.columns) op.now }
    ensures { (p : Progress) → before.now ≡ sets_of p → IsTrue result ↔ KeepsK7 spec.now op.now p statement.now }
{
    match *statement {
        Statement::CheckDep { dep } => before.sought && before.next_dep <= dep,
        Statement::Apply => checks_are_done(spec, op, before),
        _ => true,
    }
}
