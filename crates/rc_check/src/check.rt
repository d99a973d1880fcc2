ghost use Rattle.std.specs.Prelude.{◌≡◌, ◌<◌, ◌^◌, ◌↔◌, length, IfErr, IsOk, IsTrue};
ghost use Rattle.rc_spec.specs.First.{Judges};
ghost use Rattle.rc_spec.specs.InRange.{IsOpAmong};
ghost use Rattle.rc_spec.specs.Placement.{op_at};
ghost use Rattle.rc_plan.specs.PlanRules.{AreKnown, IsFirstBrokenPlanRule, IsKeptInPlan, IsKnown};
ghost use Rattle.rc_plan.specs.PlanRules.{KeepsPlanRules, Progress, StatementKeeps, checks_at, progress_at};
ghost use Rattle.rc_check.specs.Sets.{sets_of};

use crate::checks::keeps_k7;
use crate::cover::{keeps_k2, keeps_k3, keeps_k4};
use crate::found::keeps_k6;
use crate::phases::keeps_k1;
use crate::progress::ProgressSets;
use crate::steps::keeps_k5;
use rc_plan::{Plan, PlanRefusal, PlanRule, Statement};
use rc_spec::{Accepted, Op};

/// The rules of plans, in the order in which a statement is tested by them.
const RULES: [PlanRule; 7] = [
    PlanRule::K1,
    PlanRule::K2,
    PlanRule::K3,
    PlanRule::K4,
    PlanRule::K5,
    PlanRule::K6,
    PlanRule::K7,
];

/// Whether the statement keeps the rule, after the statements that left `before`.
fn keeps(
    accepted: &Accepted,
    op: &Op,
    rule: PlanRule,
    before: &ProgressSets,
    statement: &Statement,
) -> bool
    requires operation { IsOpAmong (length accepted.now.columns) op.now }
    requires known { IsKnown accepted.now statement.now }
    ensures { (p : Progress) → before.now ≡ sets_of p
        → IsTrue result ↔ StatementKeeps accepted.now op.now rule p statement.now }
{
    let spec = accepted.spec();
    match rule {
        PlanRule::K1 => keeps_k1(&op.kind, before, statement),
        PlanRule::K2 => keeps_k2(before, statement),
        PlanRule::K3 => keeps_k3(accepted, before, statement),
        PlanRule::K4 => keeps_k4(accepted, op, before, statement),
        PlanRule::K5 => keeps_k5(spec, before, statement),
        PlanRule::K6 => keeps_k6(spec, op, before, statement),
        PlanRule::K7 => keeps_k7(spec, op, before, statement),
    }
}

/// Tests the statement `at` of a plan for the operation `number` by all rules, one after another.
fn check_statement(
    accepted: &Accepted,
    number: u8,
    plan: &Plan,
    at: u32,
    before: &ProgressSets,
) -> Result<(), PlanRefusal>
    requires operation { number < length accepted.now.ops }
    requires known { AreKnown accepted.now plan.now }
    requires there { at < length plan.now }
    requires before { before.now
        ≡ sets_of (progress_at accepted.now (op_at accepted.now number) plan.now at) }
    ensures { Judges (IsKeptInPlan accepted.now (op_at accepted.now number) plan.now)
        (checks_at at) result }
{
    let op = accepted.spec().op(number);
    let statement = &plan.list()[at as usize];
    for rule in RULES {
        if !keeps(accepted, op, rule, before, statement) {
            return Err(PlanRefusal { rule, at });
        }
    }
    Ok(())
}

/// Tests a plan for the operation with this number by K1 to K7: its statements in order, each by the
/// rules in order, and then its end, where K1 alone speaks: a plan that ends too early breaks it at
/// the number that is its length. The answer is Ok exactly where the plan keeps the rules, else the
/// first broken rule at the first such statement. The plan has fewer than 2^32 statements, and its
/// numbers are the specification's. Takes no memory. (PLDI 2011, valid query plans; PLDI 2012,
/// well-locked plans.)
pub fn check_plan(accepted: &Accepted, op: u8, plan: &Plan) -> Result<(), PlanRefusal>
    requires short { length plan.now < 2 ^ 32 }
    requires operation { op < length accepted.now.ops }
    requires known { AreKnown accepted.now plan.now }
    ensures accepted { IsOk result ↔ KeepsPlanRules accepted.now (op_at accepted.now op) plan.now }
    ensures first { IfErr result
        (IsFirstBrokenPlanRule accepted.now (op_at accepted.now op) plan.now) }
{
    let spec = accepted.spec();
    let statements = plan.list();
    let mut known = ProgressSets::at_start(spec, spec.op(op));
    for (at, statement) in statements.iter().enumerate() {
        check_statement(accepted, op, plan, at as u32, &known)?;
        known = known.after(spec, statement);
    }
    if !known.is_complete() {
        return Err(PlanRefusal {
            rule: PlanRule::K1,
            at: statements.len() as u32,
        });
    }
    Ok(())
}
