//! K1: the phases of a plan.

ghost use Rattle.std.specs.Prelude.{◌≡◌, ◌↔◌, IsTrue, None};
ghost use Rattle.rc_tuple.specs.RisingSet.{In};
ghost use Rattle.rc_spec.specs.Calls.{GivesTuple};
ghost use Rattle.rc_plan.specs.PlanRules.{Phase, Progress, HasLockMode, HasProbed, IsInsert, IsLocked, IsQuery, IsUpdate, KeepsK1, MayApply, MayRead};
ghost use Rattle.rc_check.specs.Sets.{sets_of};

use crate::progress::{ProgressSets, Stage};
use rc_plan::Statement;
use rc_spec::{Mode, OpKind};

/// Whether the locks of an operation may have the mode: all but a query's are Exclusive.
fn has_lock_mode(kind: &OpKind, mode: Mode) -> bool
    ensures { IsTrue result ↔ HasLockMode kind.now mode }
{
    match kind {
        OpKind::Query { .. } => true,
        OpKind::Insert | OpKind::Remove | OpKind::Update => mode == Mode::Exclusive,
    }
}

fn is_insert(kind: &OpKind) -> bool
    ensures { IsTrue result ↔ IsInsert kind.now }
{
    matches!(kind, OpKind::Insert)
}

fn is_update(kind: &OpKind) -> bool
    ensures { IsTrue result ↔ IsUpdate kind.now }
{
    matches!(kind, OpKind::Update)
}

/// Whether a call of the operation gives a whole tuple.
pub(crate) fn gives_tuple(kind: &OpKind) -> bool
    ensures { IsTrue result ↔ GivesTuple kind.now }
{
    matches!(kind, OpKind::Insert | OpKind::Update)
}

fn is_query(kind: &OpKind) -> bool
    ensures { IsTrue result ↔ IsQuery kind.now }
{
    matches!(kind, OpKind::Query { .. })
}

/// Whether a Probe has come.
fn has_probed(before: &ProgressSets) -> bool
    ensures { (p : Progress) → before.now ≡ sets_of p → IsTrue result ↔ HasProbed p }
{
    before.probe.is_some()
}

/// Whether rows may be read: an insert and an update read behind a Probe.
fn may_read(kind: &OpKind, before: &ProgressSets) -> bool
    ensures { (p : Progress) → before.now ≡ sets_of p → IsTrue result ↔ MayRead kind.now p }
{
    match kind {
        OpKind::Insert | OpKind::Update => has_probed(before),
        OpKind::Query { .. } | OpKind::Remove => true,
    }
}

/// Whether a write may come: a query has none, and an insert's and an update's stand behind a Probe.
fn may_apply(kind: &OpKind, before: &ProgressSets) -> bool
    ensures { (p : Progress) → before.now ≡ sets_of p → IsTrue result ↔ MayApply kind.now p }
{
    match kind {
        OpKind::Query { .. } => false,
        OpKind::Insert | OpKind::Update => has_probed(before),
        OpKind::Remove => true,
    }
}

/// Whether locks may be taken: no Probe has come, and neither the write nor the answer.
fn may_lock(before: &ProgressSets) -> bool
    ensures { (p : Progress) → before.now ≡ sets_of p → IsTrue result ↔ ((p.phase ≡ Phase.Searching) × (p.probe ≡ None)) }
{
    before.is_searching() && before.probe.is_none()
}

/// Whether CheckAbsent may come: of an insert, behind a Probe.
fn may_be_absent(kind: &OpKind, before: &ProgressSets) -> bool
    ensures { (p : Progress) → before.now ≡ sets_of p → IsTrue result ↔ (IsInsert kind.now × HasProbed p) }
{
    is_insert(kind) && has_probed(before)
}

/// Whether CheckFound may come: of an update, behind a Probe.
fn may_be_found(kind: &OpKind, before: &ProgressSets) -> bool
    ensures { (p : Progress) → before.now ≡ sets_of p → IsTrue result ↔ (IsUpdate kind.now × HasProbed p) }
{
    is_update(kind) && has_probed(before)
}

/// Whether a dependency's check may come: of an insert or an update, behind a Probe.
fn may_check(kind: &OpKind, before: &ProgressSets) -> bool
    ensures { (p : Progress) → before.now ≡ sets_of p → IsTrue result ↔ (GivesTuple kind.now × HasProbed p) }
{
    gives_tuple(kind) && has_probed(before)
}

/// Whether the class is locked and not released.
fn may_release(before: &ProgressSets, class: u8) -> bool
    ensures { (p : Progress) → before.now ≡ sets_of p → IsTrue result ↔ (IsLocked p class × (In class p.released → ⊥)) }
{
    before.has_locked(class) && !before.released.has(class)
}

/// Whether the statement comes in its phase (K1).
pub(crate) fn keeps_k1(kind: &OpKind, before: &ProgressSets, statement: &Statement) -> bool
    ensures { (p : Progress) → before.now ≡ sets_of p → IsTrue result ↔ KeepsK1 kind.now p statement.now }
{
    match *statement {
        Statement::Lock { mode, .. } => may_lock(before) && has_lock_mode(kind, mode),
        Statement::Probe { .. } => before.is_searching() && gives_tuple(kind),
        Statement::Read { .. } => before.is_searching() && may_read(kind, before),
        Statement::CheckAbsent => before.is_searching() && may_be_absent(kind, before),
        Statement::CheckFound => before.is_searching() && may_be_found(kind, before),
        Statement::CheckDep { .. } => before.is_searching() && may_check(kind, before),
        Statement::Apply => before.is_searching() && may_apply(kind, before),
        Statement::Emit => before.is_searching() && is_query(kind),
        Statement::Commit => before.stage == Stage::Decided,
        Statement::Release { class } => before.is_committed() && may_release(before, class),
    }
}
