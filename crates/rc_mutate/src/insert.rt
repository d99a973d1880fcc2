//! The plans of inserts.

ghost use Rattle.std.specs.Prelude.{◌≡◌, ◌++◌, ℕ, ◌<◌, [], length, map, IfOk, OnOk};
ghost use Rattle.std.specs.List.{flat_map};
ghost use Rattle.rc_tuple.specs.RisingSet.{In};
ghost use Rattle.rc_tuple.specs.ColSet.{Within, has};
ghost use Rattle.rc_spec.specs.declared.items.OpKind.TheVariants.{Insert};
ghost use Rattle.rc_spec.specs.declared.lock.Mode.TheVariants.{Exclusive};
ghost use Rattle.rc_spec.specs.Calls.{all_columns};
ghost use Rattle.rc_spec.specs.InRange.{IsInRange};
ghost use Rattle.rc_spec.specs.Placement.{IsPlaced, class_of};
ghost use Rattle.rc_query.specs.declared.probe.PlannedProbe.{PlannedProbe};
ghost use Rattle.rc_query.specs.Laws.{IsAcceptedFor};
ghost use Rattle.rc_query.specs.Ops.{MayBePlanned};
ghost use Rattle.rc_query.specs.Planned.{ChoosesRoutes, IsPlanned, Routing, insert_plan, insert_probes, locks, probe_statements, reads_unbound, which_under};

use crate::classes::written_classes;
use crate::probes::insert_probes;
use rc_plan::{Plan, Statement, Which};
use rc_query::{ClassSet, PlannedProbe, pattern_of, push_ending, push_locks_and_reads};
use rc_spec::{Accepted, Mode, Op, Spec};
use rc_tuple::{ColSet, Memory};
use std::alloc::Global;

/// Whether an edge of the route is of the class.
fn reads_class(spec: &Spec, route: &[u8], class: u8) -> bool
    ensures { result ≡ has (map (class_of spec.now) route.now) class }
{
    route
        .iter()
        .map(|edge| spec.class_of(*edge))
        .any(|other| other == class)
}

/// Whether the probe reads an edge of the class, and its columns don't choose a stripe of it.
fn reads_unbound(spec: &Spec, class: u8, probe: &PlannedProbe) -> bool
    requires { class < length spec.now.classes }
    ensures { result ≡ reads_unbound spec.now class probe.now }
{
    let cols = spec.class(class).cols;
    reads_class(spec, probe.route.list(), class) && !cols.within(probe.columns)
}

/// The stripes of a class that the lock takes under which the probes read.
pub(crate) fn which_under(spec: &Spec, probes: &[PlannedProbe], class: u8) -> Which
    requires { class < length spec.now.classes }
    ensures { result ≡ which_under spec.now probes.now class }
{
    for probe in probes {
        if reads_unbound(spec, class, probe) {
            return Which::All;
        }
    }
    Which::Keyed
}

/// Appends an Exclusive lock of each class, rising, under which the probes read.
fn push_locks(
    plan: &mut Plan,
    spec: &Spec,
    probes: &[PlannedProbe],
    classes: ClassSet,
) -> Result<(), Memory>
    requires { (c : ℕ) → In c classes → c < length spec.now.classes }
    ensures { OnOk result (plan.new ≡ plan.old ++ locks Exclusive (which_under spec.now probes.now) classes) }
{
    for place in 0..classes.len() {
        let class = classes.nth(place).unwrap();
        let which = which_under(spec, probes, class);
        let mode = Mode::Exclusive;
        plan.push(Statement::Lock { class, which, mode })?;
    }
    Ok(())
}

/// Appends a probe, its reads and its check.
fn push_probe(plan: &mut Plan, spec: &Spec, probe: &PlannedProbe) -> Result<(), Memory>
    requires edges { (e : ℕ) → In e probe.now.route → e < length spec.now.edges }
    requires range { IsInRange spec.now }
    requires placed { IsPlaced spec.now }
    ensures { OnOk result (plan.new ≡ plan.old ++ probe_statements spec.now probe.now) }
{
    let cols = probe.columns;
    plan.push(Statement::Probe { cols })?;
    push_locks_and_reads(
        plan,
        spec,
        Mode::Exclusive,
        cols,
        ClassSet::empty(),
        probe.route.list(),
    )?;
    plan.push(probe.check)?;
    Ok(())
}

/// Appends the probes, each with its reads and its check.
pub(crate) fn push_probes(
    plan: &mut Plan,
    spec: &Spec,
    probes: &[PlannedProbe],
) -> Result<(), Memory>
    requires edges { (probe : PlannedProbe) → In probe probes.now → (e : ℕ) → In e probe.route → e < length spec.now.edges }
    requires range { IsInRange spec.now }
    requires placed { IsPlaced spec.now }
    ensures { OnOk result (plan.new ≡ plan.old ++ flat_map (probe_statements spec.now) probes.now) }
{
    for probe in probes {
        push_probe(plan, spec, probe)?;
    }
    Ok(())
}

/// The plan of an insert over the chosen routes of its probes.
fn plan_insertion(alloc: Global, accepted: &Accepted, pattern: ColSet) -> Result<Plan, Memory>
    requires some { pattern ≡ [] → ⊥ }
    requires known { Within pattern (all_columns accepted.now) }
    ensures { IfOk result (λ plan. (route : Routing) → ChoosesRoutes accepted.now route
        → plan ≡ insert_plan accepted.now (insert_probes accepted.now route pattern)) }
{
    let spec = accepted.spec();
    let probes = insert_probes(alloc, accepted, pattern)?;
    let classes = written_classes(spec);
    let mut plan = Plan::new(alloc);
    push_locks(&mut plan, spec, &probes, classes)?;
    push_probes(&mut plan, spec, &probes)?;
    push_ending(&mut plan, Statement::Apply, classes)?;
    Ok(plan)
}

/// The plan of an insert. It locks all classes that have an edge Exclusive: all stripes of a class
/// under which a probe reads without its columns, and else those of the new tuple. Then it searches for a tuple with the
/// pattern values of the new one, and for each dependency whose left side doesn't hold the whole pattern for those with
/// its left side, over the chosen routes; and then it adds the tuple. (PLDI 2011, insertion; PLDI 2012, put if absent.)
pub fn plan_insert(alloc: Global, accepted: &Accepted, op: &Op) -> Result<Plan, Memory>
    requires op { MayBePlanned accepted.now op.now }
    requires insert { op.now.kind ≡ Insert }
    ensures planned { IfOk result (IsPlanned accepted.now op.now) }
    ensures accepted { IfOk result (IsAcceptedFor accepted.now op.now) }
{
    plan_insertion(alloc, accepted, pattern_of(accepted, op))
}
