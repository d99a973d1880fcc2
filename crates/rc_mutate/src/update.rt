//! The plans of updates.

ghost use Rattle.std.specs.Prelude.{◌≡◌, ◌++◌, ℕ, ◌<◌, length, IfOk, OnOk};
ghost use Rattle.rc_tuple.specs.RisingSet.{In};
ghost use Rattle.rc_tuple.specs.ColSet.{Within};
ghost use Rattle.rc_spec.specs.declared.items.OpKind.TheVariants.{Update};
ghost use Rattle.rc_spec.specs.declared.lock.Mode.TheVariants.{Exclusive};
ghost use Rattle.rc_spec.specs.Calls.{all_columns};
ghost use Rattle.rc_query.specs.Laws.{IsAcceptedFor};
ghost use Rattle.rc_query.specs.Ops.{MayBePlanned};
ghost use Rattle.rc_query.specs.Planned.{ChoosesRoutes, IsPlanned, Routing, locks, update_plan, update_probes, update_which};

use crate::classes::written_classes;
use crate::insert::{push_probes, which_under};
use crate::probes::update_probes;
use rc_plan::{Plan, Statement, Which};
use rc_query::{ClassSet, PlannedProbe, pattern_of, push_ending};
use rc_spec::{Accepted, Mode, Op, Spec};
use rc_tuple::{ColSet, Memory};
use std::alloc::Global;

/// The stripes of a class that an update's lock takes: those of the new tuple, where the pattern chooses them, and the probes
/// read under these alone.
fn update_which(spec: &Spec, pattern: ColSet, probes: &[PlannedProbe], class: u8) -> Which
    requires { class < length spec.now.classes }
    ensures { result ≡ update_which spec.now pattern probes.now class }
{
    if spec.class(class).cols.within(pattern) {
        which_under(spec, probes, class)
    } else {
        Which::All
    }
}

/// Appends an Exclusive lock of each class, rising.
fn push_update_locks(
    plan: &mut Plan,
    spec: &Spec,
    pattern: ColSet,
    probes: &[PlannedProbe],
    classes: ClassSet,
) -> Result<(), Memory>
    requires { (c : ℕ) → In c classes → c < length spec.now.classes }
    ensures { OnOk result (plan.new ≡ plan.old ++ locks Exclusive (update_which spec.now pattern probes.now) classes) }
{
    for place in 0..classes.len() {
        let class = classes.nth(place).unwrap();
        let which = update_which(spec, pattern, probes, class);
        let mode = Mode::Exclusive;
        plan.push(Statement::Lock { class, which, mode })?;
    }
    Ok(())
}

/// The plan of an update over the chosen routes of its probes.
fn plan_replacement(alloc: Global, accepted: &Accepted, pattern: ColSet) -> Result<Plan, Memory>
    requires known { Within pattern (all_columns accepted.now) }
    ensures { IfOk result (λ plan. (route : Routing) → ChoosesRoutes accepted.now route
        → plan ≡ update_plan accepted.now pattern (update_probes accepted.now route pattern)) }
{
    let spec = accepted.spec();
    let probes = update_probes(alloc, accepted, pattern)?;
    let classes = written_classes(spec);
    let mut plan = Plan::new(alloc);
    push_update_locks(&mut plan, spec, pattern, &probes, classes)?;
    push_probes(&mut plan, spec, &probes)?;
    push_ending(&mut plan, Statement::Apply, classes)?;
    Ok(plan)
}

/// The plan of an update. It locks all classes that have an edge Exclusive: the stripes of the new
/// tuple where the pattern has the class's columns, so that the old tuple's rows fall there too, and no probe reads beyond them, and
/// else all. Then it searches for the whole tuple that has the pattern values of the new one, and for each dependency whose left
/// side doesn't hold the whole pattern for those with its left side; and then it takes the old tuple out and adds the new one.
/// (PLDI 2011, update by a key; PLDI 2012, locks of mutations.)
pub fn plan_update(alloc: Global, accepted: &Accepted, op: &Op) -> Result<Plan, Memory>
    requires op { MayBePlanned accepted.now op.now }
    requires update { op.now.kind ≡ Update }
    ensures planned { IfOk result (IsPlanned accepted.now op.now) }
    ensures accepted { IfOk result (IsAcceptedFor accepted.now op.now) }
{
    plan_replacement(alloc, accepted, pattern_of(accepted, op))
}
