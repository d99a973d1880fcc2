//! How plans are printed, and the line that refuses one that is written.

ghost use Rattle.std.specs.Prelude.{◌≡◌, ◌<◌, length, IfOk, IsOk};
ghost use Rattle.rc_handplan.specs.Hands.{HasSet, HaveSets};
ghost use Rattle.rc_handplan.specs.PlansText.{OpsHaveSets, plans_text};
ghost use Rattle.rc_handplan.specs.RuleText.{plan_refusal_text};

use rc_plan::{Compiled, PlanRefusal, Statement, print_plan};
use rc_spec::{Named, Spec};
use rc_tuple::Memory;
use std::alloc::Global;

/// The line that refuses the plan of an operation, without a line feed: `refused`, the rule, `plan`,
/// the operation's name, `statement`, and the number of the statement.
pub fn print_plan_refusal(
    alloc: Global,
    spec: &Spec,
    op: u8,
    refusal: &PlanRefusal,
) -> Result<Vec<u8>, Memory>
    requires { op < length spec.now.ops }
    ensures { IfOk result (λ line. line.items ≡ plan_refusal_text spec.now op refusal.now) }
{
    let start = format!(in alloc; "refused {} plan ", refusal.rule)?;
    let mut line = start.into_bytes();
    line.extend_from_slice(spec.op(op).name())?;
    let end = format!(in alloc; " statement {}", refusal.at)?;
    line.extend_from_slice(end.as_bytes())?;
    Ok(line)
}

/// Tells the check that the columns of a Probe are a set.
fn has_set(statement: &Statement)
    ensures { HasSet statement.now }
{
    if let Statement::Probe { cols } = statement {
        let _ = cols.has(0);
    }
}

/// Tells the check so of each statement of a plan.
fn have_sets(plan: &[Statement])
    ensures { HaveSets plan.now }
{
    for statement in plan {
        has_set(statement);
    }
}

/// The plans of all operations, in the order in which these are written: of each the line `plan` with
/// its name, and a line for each statement. It also tells the check that the columns of their Probes are
/// sets, so that what is printed is read again.
pub fn print_plans(alloc: Global, compiled: &Compiled) -> Result<Vec<u8>, Memory>
    ensures text { IfOk result (λ text.
        text.items ≡ plans_text compiled.now.spec compiled.now.plans) }
    ensures sets { IsOk result → OpsHaveSets compiled.now.spec compiled.now.plans }
{
    let spec = compiled.accepted().spec();
    let mut text = Vec::new(alloc);
    for op in 0..spec.ops.list().len() as u8 {
        have_sets(compiled.plan(op).list());
        let plan = print_plan(alloc, spec, op, compiled.plan(op))?;
        text.extend_from_slice(&plan)?;
    }
    Ok(text)
}
