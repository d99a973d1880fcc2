//! Plans, tested by the rules of plans.

ghost use Rattle.std.specs.Prelude.{All};
ghost use Rattle.rc_handplan.specs.declared.hand.Hand.{Hand};
ghost use Rattle.rc_handplan.specs.Hands.{AreHands};

use crate::stop::Stop;
use rc_check::check_plan;
use rc_handplan::{Hand, HandRefusal, read_plans_only};
use rc_plan::PlanRefusal;
use rc_spec::Accepted;
use rc_text::{MAX_TEXT_BYTES, push_bytes};
use std::alloc::Global;

/// `checks OP`: whether the plan of the lines keeps the rules for the operation, or the first rule that it breaks, with the number
/// of the statement.
pub(crate) fn check(
    accepted: &Accepted,
    op: &str,
    lines: &str,
    out: &mut Vec<u8>,
) -> Result<(), Stop> {
    let alloc = *out.allocator();
    let text = format!(in alloc; "plan {op}\n{lines}")?;
    if text.len() > MAX_TEXT_BYTES {
        return Err(Stop::Many);
    }
    match read_plans_only(alloc, text.as_bytes(), accepted) {
        Ok(hands) => push_verdicts(accepted, &hands, out),
        Err(HandRefusal::Memory) => Err(Stop::Memory),
        Err(HandRefusal::Line { .. }) => Err(Stop::Line),
    }
}

/// Appends what the rules say of each plan.
fn push_verdicts(accepted: &Accepted, hands: &[Hand], out: &mut Vec<u8>) -> Result<(), Stop>
    requires { AreHands accepted.now hands.now }
{
    for hand in hands {
        push_verdict(check_plan(accepted, hand.op, &hand.plan), out)?;
    }
    Ok(())
}

/// Appends what the rules say of a plan.
fn push_verdict(verdict: Result<(), PlanRefusal>, out: &mut Vec<u8>) -> Result<(), Stop> {
    match verdict {
        Ok(()) => Ok(push_bytes(out, b"accepted\n")?),
        Err(refusal) => push_refusal(refusal, out),
    }
}

/// Appends the rule that a plan breaks, and where.
fn push_refusal(refusal: PlanRefusal, out: &mut Vec<u8>) -> Result<(), Stop> {
    let PlanRefusal { rule, at } = refusal;
    let line = format!(in *out.allocator(); "refused {rule} statement {at}\n")?;
    push_bytes(out, line.as_bytes())?;
    Ok(())
}
