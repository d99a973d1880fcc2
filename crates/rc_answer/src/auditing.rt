//! Judges a report that stands behind a workload, and writes the verdict.

ghost use Rattle.std.specs.Prelude.{◌≡◌, ◌∷◌, [], ◌≤◌, ◌^◌, length, IfOk};
ghost use Rattle.rc_text.specs.Lines.{IsLineStart, content_from, past_end_of, printed_lines};
ghost use Rattle.rc_reader.specs.Answers.{rest_place};
ghost use Rattle.rc_reader.specs.Grammar.{spec_reading};
ghost use Rattle.rc_work.specs.Fitting.{HasThreads, RoundsFit};
ghost use Rattle.rc_work.specs.Limits.{KeepsLimits};
ghost use Rattle.rc_answer.specs.Answers.{AnswersAudit, IsJudgement, IsVerdictText, also_in, verdict_status, verdict_text};
ghost use Rattle.rc_answer.specs.Writes.{CountsFaults, Writes};

use crate::refusing::{refuse, refuse_spec};
use crate::status::{Status, Stop};
use crate::writing::write_line;
use rc_audit::{Form, Verdict, audit};
use rc_io::Sink;
use rc_maps::Seed;
use rc_mutate::compile;
use rc_place::accept;
use rc_reader::{Rest, read_spec};
use rc_spec::Accepted;
use rc_tuple::Memory;
use rc_work::{Also, Work, read_work_part};
use std::alloc::Global;

/// The line of a verdict.
fn verdict_line(alloc: Global, verdict: Verdict) -> Result<Vec<u8>, Memory>
    ensures { IfOk result (λ line. printed_lines (line.items ∷ []) ≡ verdict_text verdict) }
{
    let text = match verdict {
        Verdict::Legal { entries } => format!(in alloc; "legal {entries}")?,
        Verdict::Bad { line } => format!(in alloc; "bad line {line}")?,
    };
    Ok(text.into_bytes())
}

/// The status of a verdict.
fn verdict_status(verdict: Verdict) -> Status
    ensures { result ≡ verdict_status verdict }
{
    match verdict {
        Verdict::Legal { .. } => Status::Done,
        Verdict::Bad { .. } => Status::Bad,
    }
}

/// Writes a verdict.
fn write_verdict<K: Sink>(alloc: Global, sink: &mut K, verdict: Verdict) -> Result<Status, Stop>
    ensures written { Writes (IsVerdictText verdict) (K.held sink.old) (K.held sink.new) result }
    ensures faults { CountsFaults (K.faults sink.old) (K.faults sink.new) result }
{
    let line = verdict_line(alloc, verdict)?;
    write_line(sink, line)?;
    Ok(verdict_status(verdict))
}

/// Plans the operations of an accepted specification, judges the lines behind a workload, which are
/// of this form, by these plans, and writes the verdict.
fn write_judgement<K: Sink>(
    alloc: Global,
    hash_seed: Seed,
    form: Form,
    accepted: Accepted,
    work: &Work,
    text: &[u8],
    rest: Rest,
    sink: &mut K,
) -> Result<Status, Stop>
    requires short { length text.now ≤ 2 ^ 24 }
    requires start { IsLineStart (rest_place text.now rest) }
    requires limits { KeepsLimits work.now }
    requires threads { HasThreads work.now }
    requires fit { RoundsFit accepted work.now.rounds }
    ensures written { Writes (IsJudgement form accepted work.now (past_end_of text.now)
        (content_from (rest_place text.now rest))) (K.held sink.old) (K.held sink.new) result }
    ensures faults { CountsFaults (K.faults sink.old) (K.faults sink.new) result }
{
    let compiled = compile(alloc, accepted)?;
    let _ = compiled.accepted();
    let verdict = audit(alloc, hash_seed, form, &compiled, work, text, rest);
    // Dropped by its type's own `drop`, which is proved, and not field by field.
    drop(compiled);
    write_verdict(alloc, sink, verdict?)
}

/// What may stand in the workload of a report of this form.
fn also_in(form: Form) -> Also
    ensures { result ≡ also_in form }
{
    match form {
        Form::Run | Form::Journal => Also::Nothing,
        Form::Group => Also::Groups,
    }
}

/// Answers a specification, a workload behind it and the lines behind that, which are said to be what
/// `run` or `group` printed, or a journal alone: writes the verdict on them, or the refusal of the
/// first broken rule.
pub(crate) fn answer_audit<K: Sink>(
    alloc: Global,
    hash_seed: Seed,
    form: Form,
    text: &[u8],
    sink: &mut K,
) -> Result<Status, Stop>
    requires { length text.now ≤ 2 ^ 24 }
    ensures written { Writes (AnswersAudit form text.now (spec_reading text.now))
        (K.held sink.old) (K.held sink.new) result }
    ensures faults { CountsFaults (K.faults sink.old) (K.faults sink.new) result }
{
    let (spec, rest) = match read_spec(alloc, text) {
        Ok(read) => read,
        Err(refusal) => return refuse(alloc, sink, refusal),
    };
    let accepted = match accept(alloc, spec) {
        Ok(accepted) => accepted,
        Err(fault) => return refuse_spec(alloc, sink, fault),
    };
    match read_work_part(alloc, text, rest, accepted.spec(), also_in(form)) {
        Ok((work, behind)) => {
            let status = write_judgement(
                alloc, hash_seed, form, accepted, &work, text, behind, sink,
            );
            drop(work);
            status
        }
        Err(refusal) => {
            drop(accepted);
            refuse(alloc, sink, refusal)
        }
    }
}
