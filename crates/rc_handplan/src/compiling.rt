//! The plans of all operations, of which some are written.

ghost use Rattle.std.specs.Prelude.{◌≡◌, ℕ, ◌<◌, List, Some, length, IsOk, IfOk, IfErr};
ghost use Rattle.std.specs.List.{position};
ghost use Rattle.rc_plan.specs.Compiled.{ArePlansOf, IsPlanOf};
ghost use Rattle.rc_plan.specs.declared.statement.Statement.{Statement};
ghost use Rattle.rc_handplan.specs.declared.compiling.HandFault.TheVariants as faults;
ghost use Rattle.rc_handplan.specs.Chosen.{plan_for, IsChosenBy, AreChosen, AllKeepRules};
ghost use Rattle.rc_handplan.specs.Chosen.{IsFirstRefused, IsRefusedFor};
ghost use Rattle.rc_handplan.specs.Hands.{is_of, AreHands};

use crate::hand::Hand;
use rc_check::check_plan;
use rc_mutate::plan_op;
use rc_plan::{Compiled, Plan, PlanRefusal};
use rc_spec::Accepted;
use rc_tuple::Memory;
use std::alloc::Global;
use std::mem;

/// Why operations are not planned.
#[derive(Debug, Drop)]
pub enum HandFault {
    /// Memory was wanted and not given. The specification is gone.
    Memory,
    /// A written plan breaks a rule.
    Refused {
        /// The specification, handed back.
        accepted: Accepted,
        /// The operation of the plan, by its number.
        op: u8,
        /// The first broken rule, and the statement that breaks it.
        refusal: PlanRefusal,
    },
}

impl From<Memory> for HandFault {
    ghost from_gives = { λ _ fault. fault ≡ faults.Memory };

    fn from(_: Memory) -> Self {
        HandFault::Memory
    }
}

/// A written plan that breaks a rule.
#[derive(Clone, Copy, Debug)]
struct RefusedPlan {
    /// The operation of the plan, by its number.
    op: u8,
    refusal: PlanRefusal,
}

/// Tests plans by K1 to K7, in written order.
fn check_hands(accepted: &Accepted, hands: &[Hand]) -> Result<(), RefusedPlan>
    requires { AreHands accepted.now hands.now }
    ensures kept { IsOk result → AllKeepRules accepted.now hands.now }
    ensures refused { IfErr result (λ refused.
        IsFirstRefused accepted.now hands.now refused.op refused.refusal) }
{
    for hand in hands {
        if let Err(refusal) = check_plan(accepted, hand.op, &hand.plan) {
            return Err(RefusedPlan {
                op: hand.op,
                refusal,
            });
        }
    }
    Ok(())
}

/// Where the plan of an operation stands.
fn place_of(hands: &[Hand], op: u8) -> Option<usize>
    ensures { result ≡ position (is_of op) hands.now }
{
    hands.iter().position(|hand| hand.is_of(op))
}

/// Takes the plan of an operation out, and leaves an empty one in its place.
fn take_plan(alloc: Global, hands: &mut Vec<Hand>, op: u8) -> Option<Plan>
    ensures plan { result ≡ plan_for hands.old.items op }
    ensures others { (other : ℕ) → (other ≡ op → ⊥)
        → plan_for hands.new.items other ≡ plan_for hands.old.items other }
{
    let at = place_of(hands, op)?;
    let none = Plan::new(alloc);
    Some(mem::replace(&mut hands[at].plan, none))
}

/// The plan of an operation: the one that is written, which is taken out, or else the planned one.
fn chosen_plan(
    alloc: Global,
    accepted: &Accepted,
    hands: &mut Vec<Hand>,
    op: u8,
) -> Result<Plan, Memory>
    requires operation { op < length accepted.now.ops }
    requires written { (plan : List Statement) → plan_for hands.old.items op ≡ Some plan
        → IsPlanOf accepted.now op plan }
    ensures chosen { IfOk result (IsChosenBy accepted.now op (plan_for hands.old.items op)) }
    ensures accepted { IfOk result (IsPlanOf accepted.now op) }
    ensures others { IsOk result → (other : ℕ) → (other ≡ op → ⊥)
        → plan_for hands.new.items other ≡ plan_for hands.old.items other }
{
    match take_plan(alloc, hands, op) {
        Some(plan) => Ok(plan),
        None => plan_op(alloc, accepted, op),
    }
}

/// The plans of all operations, by their numbers. Those that are written are taken out.
fn chosen_plans(
    alloc: Global,
    accepted: &Accepted,
    hands: &mut Vec<Hand>,
) -> Result<Vec<Plan>, Memory>
    requires hands { AreHands accepted.now hands.old.items }
    requires kept { AllKeepRules accepted.now hands.old.items }
    ensures chosen { IfOk result (λ plans. AreChosen accepted.now hands.old.items plans.items) }
    ensures accepted { IfOk result (λ plans. ArePlansOf accepted.now plans.items) }
{
    let mut plans = Vec::new(alloc);
    for op in 0..accepted.spec().ops.list().len() as u8 {
        plans.push(chosen_plan(alloc, accepted, hands, op)?)?;
    }
    Ok(plans)
}

/// Plans every operation of an accepted specification: one that has a plan among these gets it, and
/// each other the plan that the planning rules give it. A written plan is first tested by K1 to K7,
/// as all are in written order, and for the first that breaks one the specification is handed back;
/// where memory is wanted, it is gone.
pub fn compile_with(
    alloc: Global,
    accepted: Accepted,
    mut hands: Vec<Hand>,
) -> Result<Compiled, HandFault>
    requires hands { AreHands accepted hands.items }
    ensures same { IfOk result (λ compiled. compiled.spec ≡ accepted) }
    ensures chosen { IfOk result (λ compiled. AreChosen accepted hands.items compiled.plans) }
    ensures kept { IsOk result → AllKeepRules accepted hands.items }
    ensures refused { IfErr result (IsRefusedFor accepted hands.items) }
{
    if let Err(refused) = check_hands(&accepted, &hands) {
        return Err(HandFault::Refused {
            accepted,
            op: refused.op,
            refusal: refused.refusal,
        });
    }
    let plans = chosen_plans(alloc, &accepted, &mut hands)?;
    Ok(Compiled::seal(accepted, plans))
}
