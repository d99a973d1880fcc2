//! Reads the lines of plans, each by the rules in their order.

ghost use Rattle.std.specs.Prelude.{◌≡◌, ◌<◌, length};
ghost use Rattle.rc_spec.specs.InRange.{IsInRange};
ghost use Rattle.rc_handplan.specs.Answers.{Gives, TakesLine};
ghost use Rattle.rc_handplan.specs.HandGrammar.{statement_in, after_statement, after_line};
ghost use Rattle.rc_handplan.specs.Starts.{line_start};
ghost use Rattle.rc_handplan.specs.declared.starts.LineStart.TheVariants as starts;

use crate::forms::form_of;
use crate::hand::Hand;
use crate::heads::take_head;
use crate::refusal::{HandRule, LineFault};
use crate::starts::LineStart;
use crate::statements::statement_of;
use crate::words::plain_words;
use rc_plan::Statement;
use rc_spec::Spec;
use std::alloc::Global;

/// The statement that a line writes.
fn statement_in(alloc: Global, spec: &Spec, bytes: &[u8]) -> Result<Statement, LineFault>
    requires { IsInRange spec.now }
    ensures { Gives result (statement_in spec.now bytes.now) }
{
    let Some(words) = plain_words(alloc, bytes)? else {
        return Err(LineFault::Broken(HandRule::H2));
    };
    let Some(form) = form_of(&words) else {
        return Err(LineFault::Broken(HandRule::H2));
    };
    match statement_of(spec, form) {
        Some(statement) => Ok(statement),
        None => Err(LineFault::Broken(HandRule::H3)),
    }
}

/// Reads the line of a statement: the last plan gets one more.
fn take_statement(
    alloc: Global,
    spec: &Spec,
    hands: &mut Vec<Hand>,
    bytes: &[u8],
) -> Result<(), LineFault>
    requires range { IsInRange spec.now }
    requires begun { 0 < length hands.old.items }
    ensures { TakesLine result hands.new.items
        (after_statement spec.now hands.old.items bytes.now) }
{
    let statement = statement_in(alloc, spec, bytes)?;
    let last = hands.len() - 1;
    if hands[last].is_full() {
        return Err(LineFault::Broken(HandRule::H4));
    }
    hands[last].push(statement)?;
    Ok(())
}

/// Reads a line into the plans. After a fault they are of no use.
pub(crate) fn take_line(
    alloc: Global,
    spec: &Spec,
    hands: &mut Vec<Hand>,
    start: LineStart,
    bytes: &[u8],
) -> Result<(), LineFault>
    requires range { IsInRange spec.now }
    requires start { start ≡ line_start bytes.now }
    requires begun { (start ≡ starts.Plan → ⊥) → 0 < length hands.old.items }
    ensures { TakesLine result hands.new.items (after_line spec.now hands.old.items bytes.now) }
{
    match start {
        LineStart::Plan => take_head(alloc, spec, hands, bytes),
        _ => take_statement(alloc, spec, hands, bytes),
    }
}
