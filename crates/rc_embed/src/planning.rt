//! How the operations of a store are planned: by plans that are written, and else by the planning rules.

ghost use Rattle.std.specs.Prelude.{◌≡◌, ◌≤◌, ◌^◌, Ok, IfErr, IfOk, length};
ghost use Rattle.std.specs.List.{AllByRecursion};
ghost use Rattle.rc_spec.specs.Names.{IsWellNamed};
ghost use Rattle.rc_work.specs.CallColumns.{HasKnownColumns};
ghost use Rattle.rc_work.specs.Shapes.{IsShapeOf, with_operations};
ghost use Rattle.rc_handplan.specs.HandGrammar.{plans_of};
ghost use Rattle.rc_handplan.specs.Hands.{AreHands};
ghost use Rattle.rc_embed.specs.Opened.{AreUnreadFor, IsPlannedWith, IsUnplannedFor};

use crate::fault::OpenFault;
use rc_handplan::{Hand, HandFault, HandRefusal, compile_with, read_plans_only};
use rc_inline::embed;
use rc_open::with_operations;
use rc_plan::Compiled;
use rc_spec::{Accepted, Ops};
use std::alloc::Global;

/// Inlines an accepted specification's singletons, places its edges together, and plans its operations
/// and these behind them: one that has a plan in the text gets it, and each other its planned plan. The
/// text may have plans of the specification's own operations, since it is read before there are others.
pub(crate) fn plan_embedded(
    alloc: Global,
    accepted: Accepted,
    further: Ops,
    plans: &[u8],
) -> Result<Compiled, OpenFault>
    requires named { IsWellNamed accepted }
    requires own { length accepted.ops ≤ 32 }
    requires few { length further ≤ 32 }
    requires shapes { AllByRecursion (IsShapeOf accepted) further }
    requires short { length plans.now ≤ 2 ^ 24 }
    ensures planned { IfOk result
        (IsPlannedWith accepted (with_operations accepted further) plans.now) }
    ensures columns { IfOk result (λ compiled. HasKnownColumns compiled.spec) }
    ensures refused { IfErr result
        (IsUnplannedFor accepted (with_operations accepted further) plans.now) }
{
    let embedded = embed(alloc, accepted)?;
    let hands = read_hands(alloc, plans, &embedded)?;
    let extended = with_operations(embedded, further)?;
    match compile_with(alloc, extended, hands) {
        Ok(compiled) => Ok(compiled),
        Err(HandFault::Memory) => Err(OpenFault::Memory),
        Err(
            HandFault::Refused {
                accepted,
                op,
                refusal,
            },
        ) => Err(OpenFault::Plan {
            spec: accepted.into_spec(),
            op,
            refusal,
        }),
    }
}

/// Reads the plans that stand alone in a text.
fn read_hands(alloc: Global, plans: &[u8], embedded: &Accepted) -> Result<Vec<Hand>, OpenFault>
    requires { length plans.now ≤ 2 ^ 24 }
    ensures read { IfOk result (λ hands. plans_of embedded.now plans.now ≡ Ok hands.items) }
    ensures hands { IfOk result (λ hands. AreHands embedded.now hands.items) }
    ensures unread { IfErr result (AreUnreadFor embedded.now plans.now) }
{
    match read_plans_only(alloc, plans, embedded) {
        Ok(hands) => Ok(hands),
        Err(HandRefusal::Memory) => Err(OpenFault::Memory),
        Err(HandRefusal::Line { rule, line }) => Err(OpenFault::PlanLine { rule, line }),
    }
}
