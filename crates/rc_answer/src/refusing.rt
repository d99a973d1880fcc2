//! Writes refusals.

ghost use Rattle.std.specs.Prelude.{◌≡◌, ◌∷◌, [], IfOk};
ghost use Rattle.rc_text.specs.Lines.{printed_lines};
ghost use Rattle.rc_spec.specs.Acceptance.{IsItemOf};
ghost use Rattle.rc_place.specs.Fault.{IfHandedBack};
ghost use Rattle.rc_answer.specs.Answers.{hand_refusal_text, refusal_line, IsOperationRefusal, IsSizeRefusal};
ghost use Rattle.rc_answer.specs.Ran.{LeavesNone, status_in};
ghost use Rattle.rc_answer.specs.Writes.{CountsFaults, Writes};
ghost use Rattle.rc_answer.specs.Refusals.{IsOfAnOperation, WritesHandRefusal, WritesPlanRefusal, WritesRefusal, WritesRuleRefusal};

use crate::outcome::Outcome;
use crate::status::{Status, Stop};
use crate::writing::write_line;
use rc_handplan::{HandFault, HandRefusal, HandRule, print_plan_refusal};
use rc_io::{Sink, write_all};
use rc_place::AcceptFault;
use rc_reader::{LineRule, ReadRefusal};
use rc_spec::print_refusal;
use rc_tuple::Memory;
use std::alloc::Global;

/// The line that refuses a text for its first broken line rule.
fn refusal_line(alloc: Global, rule: LineRule, line: u32) -> Result<Vec<u8>, Memory>
    ensures { IfOk result (λ bytes. bytes.items ≡ refusal_line (record { rule = rule; line = line })) }
{
    let text = format!(in alloc; "refused {rule} line {line}")?;
    Ok(text.into_bytes())
}

/// Writes the refusal of a text.
pub(crate) fn refuse<K: Sink>(
    alloc: Global,
    sink: &mut K,
    refusal: ReadRefusal,
) -> Result<Status, Stop>
    ensures written { WritesRefusal (K.held sink.old) (K.held sink.new) refusal result }
    ensures refused { IfOk result (λ status. status ≡ Status.Refused) }
    ensures faults { CountsFaults (K.faults sink.old) (K.faults sink.new) result }
{
    match refusal {
        ReadRefusal::Memory => Err(Stop::Memory),
        ReadRefusal::Line { rule, line } => {
            let line = refusal_line(alloc, rule, line)?;
            write_line(sink, line)?;
            Ok(Status::Refused)
        }
    }
}

/// Writes the refusal of a specification that isn't accepted.
pub(crate) fn refuse_spec<K: Sink>(
    alloc: Global,
    sink: &mut K,
    fault: AcceptFault,
) -> Result<Status, Stop>
    requires { IfHandedBack (λ spec refusal. IsItemOf spec refusal.item) fault }
    ensures written { WritesRuleRefusal (K.held sink.old) (K.held sink.new) fault result }
    ensures refused { IfOk result (λ status. status ≡ Status.Refused) }
    ensures faults { CountsFaults (K.faults sink.old) (K.faults sink.new) result }
{
    match fault {
        AcceptFault::Memory => Err(Stop::Memory),
        AcceptFault::Refused(spec, refusal) => {
            let line = print_refusal(alloc, &spec, &refusal);
            // Dropped by its type's own `drop`, which is proved, and not field by field.
            drop(spec);
            write_line(sink, line?)?;
            Ok(Status::Refused)
        }
    }
}

/// Writes the refusal of a text of which no run is made.
pub(crate) fn refuse_run<K: Sink>(
    alloc: Global,
    sink: &mut K,
    refusal: ReadRefusal,
) -> Result<Outcome, Stop>
    ensures written { WritesRefusal (K.held sink.old) (K.held sink.new) refusal (status_in result) }
    ensures none { IfOk result LeavesNone }
    ensures faults { CountsFaults (K.faults sink.old) (K.faults sink.new) result }
{
    match refuse(alloc, sink, refusal) {
        Ok(_) => Ok(Outcome::without_run(Status::Refused)),
        Err(stop) => Err(stop),
    }
}

/// Writes the refusal of a specification that isn't accepted, so that no run is made.
pub(crate) fn refuse_run_of<K: Sink>(
    alloc: Global,
    sink: &mut K,
    fault: AcceptFault,
) -> Result<Outcome, Stop>
    requires { IfHandedBack (λ spec refusal. IsItemOf spec refusal.item) fault }
    ensures written { WritesRuleRefusal (K.held sink.old) (K.held sink.new) fault (status_in result) }
    ensures none { IfOk result LeavesNone }
    ensures faults { CountsFaults (K.faults sink.old) (K.faults sink.new) result }
{
    match refuse_spec(alloc, sink, fault) {
        Ok(_) => Ok(Outcome::without_run(Status::Refused)),
        Err(stop) => Err(stop),
    }
}

/// The line that refuses plans for their first broken line rule.
fn hand_refusal_line(alloc: Global, rule: HandRule, line: u32) -> Result<Vec<u8>, Memory>
    ensures { IfOk result (λ bytes. printed_lines (bytes.items ∷ []) ≡ hand_refusal_text (record { rule = rule; line = line })) }
{
    let text = format!(in alloc; "refused {rule} line {line}")?;
    Ok(text.into_bytes())
}

/// Writes the refusal of the lines of plans, so that no run is made.
pub(crate) fn refuse_hands<K: Sink>(
    alloc: Global,
    sink: &mut K,
    refusal: HandRefusal,
) -> Result<Outcome, Stop>
    ensures written { WritesHandRefusal (K.held sink.old) (K.held sink.new) refusal (status_in result) }
    ensures none { IfOk result LeavesNone }
    ensures faults { CountsFaults (K.faults sink.old) (K.faults sink.new) result }
{
    match refusal {
        HandRefusal::Memory => Err(Stop::Memory),
        HandRefusal::Line { rule, line } => {
            let line = hand_refusal_line(alloc, rule, line)?;
            write_line(sink, line)?;
            Ok(Outcome::without_run(Status::Refused))
        }
    }
}

/// Writes the refusal of the plan of an operation, so that no run is made.
pub(crate) fn refuse_plan<K: Sink>(
    alloc: Global,
    sink: &mut K,
    fault: HandFault,
) -> Result<Outcome, Stop>
    requires { IsOfAnOperation fault }
    ensures written { WritesPlanRefusal (K.held sink.old) (K.held sink.new) fault (status_in result) }
    ensures none { IfOk result LeavesNone }
    ensures faults { CountsFaults (K.faults sink.old) (K.faults sink.new) result }
{
    match fault {
        HandFault::Memory => Err(Stop::Memory),
        HandFault::Refused {
            accepted,
            op,
            refusal,
        } => {
            let line = print_plan_refusal(alloc, accepted.spec(), op, &refusal);
            drop(accepted);
            write_line(sink, line?)?;
            Ok(Outcome::without_run(Status::Refused))
        }
    }
}

/// Writes the refusal of a name that no operation has. `Err` where a write fails, with a first part
/// written.
pub(crate) fn refuse_operation<K: Sink>(sink: &mut K) -> Result<Status, Stop>
    ensures written { Writes IsOperationRefusal (K.held sink.old) (K.held sink.new) result }
    ensures faults { CountsFaults (K.faults sink.old) (K.faults sink.new) result }
{
    write_all(sink, b"refused operation\n")?;
    Ok(Status::Refused)
}

/// Writes the refusal of a text that is too long; `Err` where a write fails, with a first part written.
pub fn refuse_size<K: Sink>(sink: &mut K) -> Result<Status, Stop>
    ensures written { Writes IsSizeRefusal (K.held sink.old) (K.held sink.new) result }
    ensures faults { CountsFaults (K.faults sink.old) (K.faults sink.new) result }
{
    write_all(sink, b"refused size\n")?;
    Ok(Status::Refused)
}
