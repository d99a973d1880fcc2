//! K2 to K4: the order of locks, and which of them cover reads and writes.

ghost use Rattle.std.specs.Prelude.{◌≡◌, ℕ, ◌<◌, ◌↔◌, length, IsTrue};
ghost use Rattle.rc_tuple.specs.RisingSet.{In};
ghost use Rattle.rc_tuple.specs.ColSet.{Within};
ghost use Rattle.rc_spec.specs.InRange.{IsOpAmong};
ghost use Rattle.rc_spec.specs.Placement.{class_at, class_of};
ghost use Rattle.rc_plan.specs.declared.statement.Which.{Which};
ghost use Rattle.rc_plan.specs.declared.statement.Which.TheVariants as which;
ghost use Rattle.rc_plan.specs.PlanRules.{Progress, Covers, CoversOld, IsKeyBound, IsKnown, IsLocked, KeepsK2, KeepsK3, KeepsK4, pattern_columns};
ghost use Rattle.rc_check.specs.Sets.{sets_of};

use crate::progress::{ProgressSets, pattern_of};
use rc_plan::{Statement, Which};
use rc_spec::{Accepted, Op, OpKind, Spec};
use rc_tuple::ColSet;

/// Whether a Lock's class is after every class locked before (K2).
pub(crate) fn keeps_k2(before: &ProgressSets, statement: &Statement) -> bool
    ensures { (p : Progress) → before.now ≡ sets_of p → IsTrue result ↔ KeepsK2 p statement.now }
{
    match *statement {
        Statement::Lock { class, .. } => before.next_class <= class,
        _ => true,
    }
}

/// The columns that choose a stripe of the class.
fn striping(spec: &Spec, class: u8) -> ColSet
    requires { class < length spec.now.classes }
    ensures { result ≡ (class_at spec.now class).cols }
{
    spec.class(class).cols
}

/// Whether the columns that choose a stripe are bound, where a Lock takes those of the bindings.
fn is_key_bound(spec: &Spec, before: &ProgressSets, class: u8, which: Which) -> bool
    requires { class < length spec.now.classes }
    ensures { (p : Progress) → before.now ≡ sets_of p → IsTrue result ↔ IsKeyBound spec.now class which p.columns }
{
    match which {
        Which::Keyed => striping(spec, class).within(before.columns),
        Which::All => true,
    }
}

/// Whether a class that is locked keyed covers a search: the last Probe's columns choose its stripe.
fn covers_search(spec: &Spec, before: &ProgressSets, class: u8) -> bool
    requires { class < length spec.now.classes }
    ensures { (p : Progress) → before.now ≡ sets_of p → IsTrue result ↔ Covers spec.now p class which.Keyed }
{
    match before.probe {
        Some(cols) => striping(spec, class).within(cols),
        None => true,
    }
}

/// Whether the rows of a class's edges may be read: the class is locked, and the lock covers the search.
fn is_covered(spec: &Spec, before: &ProgressSets, class: u8) -> bool
    requires { class < length spec.now.classes }
    ensures { (p : Progress) → before.now ≡ sets_of p
        → IsTrue result ↔ ((choice : Which) × In (class, choice) p.locked × Covers spec.now p class choice) }
{
    before.whole.has(class) || (before.keyed.has(class) && covers_search(spec, before, class))
}

/// Whether a Lock's columns are bound, and the lock of an edge's class covers its Read (K3).
pub(crate) fn keeps_k3(accepted: &Accepted, before: &ProgressSets, statement: &Statement) -> bool
    requires { IsKnown accepted.now statement.now }
    ensures { (p : Progress) → before.now ≡ sets_of p → IsTrue result ↔ KeepsK3 accepted.now p statement.now }
{
    match *statement {
        Statement::Lock { class, which, .. } => {
            is_key_bound(accepted.spec(), before, class, which)
        }
        Statement::Read { edge, .. } => {
            is_covered(accepted.spec(), before, accepted.class_of(edge))
        }
        _ => true,
    }
}

/// Whether each class that has an edge is locked.
fn all_are_locked(accepted: &Accepted, before: &ProgressSets) -> bool
    ensures { (p : Progress) → before.now ≡ sets_of p
        → IsTrue result ↔ ((e : ℕ) → e < length accepted.now.edges → IsLocked p (class_of accepted.now e)) }
{
    for edge in 0..accepted.spec().edges.list().len() as u8 {
        if !before.has_locked(accepted.class_of(edge)) {
            return false;
        }
    }
    true
}

/// Whether the pattern has the columns of a class that is locked keyed.
fn has_old_stripe(spec: &Spec, before: &ProgressSets, class: u8, pattern: ColSet) -> bool
    requires { class < length spec.now.classes }
    ensures { (p : Progress) → before.now ≡ sets_of p
        → IsTrue result ↔ (In (class, which.Keyed) p.locked → Within (class_at spec.now class).cols pattern) }
{
    if before.keyed.has(class) {
        return striping(spec, class).within(pattern);
    }
    true
}

/// Whether the pattern has the columns of each class that has an edge and is locked keyed.
fn has_old_stripes(accepted: &Accepted, op: &Op, before: &ProgressSets) -> bool
    requires { IsOpAmong (length accepted.now.columns) op.now }
    ensures { (p : Progress) → before.now ≡ sets_of p
        → IsTrue result ↔ ((e : ℕ) → e < length accepted.now.edges → In (class_of accepted.now e, which.Keyed) p.locked
        → Within (class_at accepted.now (class_of accepted.now e)).cols (pattern_columns op.now)) }
{
    let spec = accepted.spec();
    let pattern = pattern_of(spec, op);
    for edge in 0..spec.edges.list().len() as u8 {
        if !has_old_stripe(spec, before, accepted.class_of(edge), pattern) {
            return false;
        }
    }
    true
}

/// Whether an update's locks cover the rows of the old tuple.
fn covers_old(accepted: &Accepted, op: &Op, before: &ProgressSets) -> bool
    requires { IsOpAmong (length accepted.now.columns) op.now }
    ensures { (p : Progress) → before.now ≡ sets_of p → IsTrue result ↔ CoversOld accepted.now op.now op.now.kind p }
{
    match op.kind {
        OpKind::Update => has_old_stripes(accepted, op, before),
        OpKind::Query { .. } | OpKind::Insert | OpKind::Remove => true,
    }
}

/// Whether the locks cover all rows that a write changes.
fn covers_write(accepted: &Accepted, op: &Op, before: &ProgressSets) -> bool
    requires { IsOpAmong (length accepted.now.columns) op.now }
    ensures { (p : Progress) → before.now ≡ sets_of p
        → IsTrue result ↔ (((e : ℕ) → e < length accepted.now.edges → IsLocked p (class_of accepted.now e)) × CoversOld accepted.now op.now op.now.kind p) }
{
    all_are_locked(accepted, before) && covers_old(accepted, op, before)
}

/// Whether the locks cover a write (K4).
pub(crate) fn keeps_k4(
    accepted: &Accepted,
    op: &Op,
    before: &ProgressSets,
    statement: &Statement,
) -> bool
    requires { IsOpAmong (length accepted.now.columns) op.now }
    ensures { (p : Progress) → before.now ≡ sets_of p → IsTrue result ↔ KeepsK4 accepted.now op.now p statement.now }
{
    match *statement {
        Statement::Apply => covers_write(accepted, op, before),
        _ => true,
    }
}
