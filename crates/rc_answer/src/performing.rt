//! Answers a text: reads it, tests its rules, plans its operations, makes its calls, and writes what the command asks or
//! a refusal.

ghost use Rattle.std.specs.Prelude.{◌≡◌, ◌≤◌, ◌^◌, ◌↔◌, length, IfOk, IfSome, IsSome, OnErr, OnOk};
ghost use Rattle.rc_io.specs.Bytes.{Adds, AddsPrefix};
ghost use Rattle.rc_reader.specs.Grammar.{spec_of, spec_reading};
ghost use Rattle.rc_rel.specs.History.{AllFit};
ghost use Rattle.rc_work.specs.Fitting.{RoundsFit, HasThreads};
ghost use Rattle.rc_work.specs.Limits.{KeepsLimits};
ghost use Rattle.rc_answer.specs.Answers.{Answers, AnswersAlone, AnswersRun, IsReport, IsReportBy, MakesCalls};
ghost use Rattle.rc_answer.specs.Ran.{HasRunText, HasTextOf, IsOfItsStore, IsRunBy, IsRunOf, done_in, entries_in, run_text, status_in};
ghost use Rattle.rc_answer.specs.Writes.{CountsFaults, Writes};
ghost use Rattle.rc_answer.specs.Asked.{IsAskedText};

use crate::auditing::answer_audit;
use crate::by_hand::answer_by_hand;
use crate::drawing::{write_drawing, write_drawn_plan};
use crate::open_run::answer_open;
use crate::outcome::{Outcome, Ran, with_run, without_run};
use crate::planning::{write_planned, write_plans};
use crate::refusing::{refuse, refuse_run, refuse_run_of, refuse_spec};
use crate::status::{Status, Stop};
use crate::writing::{write_accepted, write_report};
use rc_audit::Form;
use rc_command::TextCommand;
use rc_io::Sink;
use rc_maps::Seed;
use rc_mutate::compile;
use rc_place::accept;
use rc_plan::Compiled;
use rc_reader::{read_spec, read_spec_only};
use rc_runner::run_work;
use rc_spec::Accepted;
use rc_store::Gate;
use rc_tuple::{Memory, SmallList};
use rc_work::{Also, Report, Work, read_work};
use std::alloc::Global;
use std::sync::Wait;
use std::thread::Threads;

/// Makes the turns of a workload by the plans of a compiled specification, on a store of its own.
pub(crate) fn make_run<R: Threads + Wait + Sync, G: Gate + Sync>(
    rt: &R,
    alloc: Global,
    hash_seed: Seed,
    compiled: Compiled,
    work: &Work,
    gate: &G,
) -> Result<Ran, Memory>
    requires fit { RoundsFit compiled.spec work.now.rounds }
    requires threads { HasThreads work.now }
    requires limits { KeepsLimits work.now }
    ensures run { IfOk result (IsRunBy (λ plans. plans ≡ compiled.plans) compiled.spec work.now) }
    ensures fit { IfOk result (λ ran.
        AllFit ran.closed.compiled.spec (entries_in ran.closed.journal)) }
    ensures store { IfOk result IsOfItsStore }
{
    let _ = compiled.accepted();
    let closed = run_work(rt, alloc, hash_seed, compiled, work, gate)?;
    closed.has_one_history();
    let Ok(last) = closed.rows(alloc, hash_seed) else {
        // Dropped by its type's own `drop`, which is proved, and not field by field.
        drop(closed);
        return Err(Memory);
    };
    Ok(Ran { closed, last })
}

/// Writes the plans, and the report of a run.
pub(crate) fn write_run<K: Sink>(
    alloc: Global,
    sink: &mut K,
    ran: &Ran,
    work: &Work,
) -> Result<(), Stop>
    requires kept { IsSome ran.now.closed.journal }
    requires fit { AllFit ran.now.closed.compiled.spec (entries_in ran.now.closed.journal) }
    ensures ok { OnOk result (Adds (K.held sink.old) (run_text work.now.ranks ran.now)
        (K.held sink.new)) }
    ensures prefix { OnErr result (AddsPrefix (K.held sink.old) (run_text work.now.ranks ran.now)
        (K.held sink.new)) }
    ensures faults { CountsFaults (K.faults sink.old) (K.faults sink.new) result }
{
    let compiled = ran.closed.compiled();
    let Some(journal) = ran.closed.journal() else {
        unreachable!()
    };
    write_plans(alloc, sink, compiled)?;
    let printed = Report {
        spec: compiled.accepted().spec(),
        ranks: &work.ranks,
        entries: journal.entries(),
        rows: ran.last.list(),
    };
    write_report(alloc, sink, &printed)
}

/// Makes the turns of a workload by the plans of a compiled specification, and writes the plans and the report.
pub(crate) fn perform<R: Threads + Wait + Sync, K: Sink, G: Gate + Sync>(
    rt: &R,
    alloc: Global,
    hash_seed: Seed,
    sink: &mut K,
    compiled: Compiled,
    work: &Work,
    gate: &G,
) -> Result<Ran, Stop>
    requires fit { RoundsFit compiled.spec work.now.rounds }
    requires threads { HasThreads work.now }
    requires limits { KeepsLimits work.now }
    ensures run { IfOk result (IsRunBy (λ plans. plans ≡ compiled.plans) compiled.spec work.now) }
    ensures store { IfOk result IsOfItsStore }
    ensures text { IfOk result (λ ran.
        Adds (K.held sink.old) (run_text work.now.ranks ran) (K.held sink.new)) }
    ensures written { Writes (IsReportBy (λ plans. plans ≡ compiled.plans) compiled.spec work.now)
        (K.held sink.old) (K.held sink.new) (done_in result) }
    ensures faults { CountsFaults (K.faults sink.old) (K.faults sink.new) result }
{
    let ran = make_run(rt, alloc, hash_seed, compiled, work, gate)?;
    write_run(alloc, sink, &ran, work).and(Ok(ran))
}

/// Plans the operations of an accepted specification, makes the turns of a workload, and writes the plans and the report.
fn perform_planned<R: Threads + Wait + Sync, K: Sink, G: Gate + Sync>(
    rt: &R,
    alloc: Global,
    hash_seed: Seed,
    sink: &mut K,
    accepted: Accepted,
    work: &Work,
    gate: &G,
) -> Result<Ran, Stop>
    requires fit { RoundsFit accepted work.now.rounds }
    requires threads { HasThreads work.now }
    requires limits { KeepsLimits work.now }
    ensures run { IfOk result (IsRunOf accepted work.now) }
    ensures store { IfOk result IsOfItsStore }
    ensures text { IfOk result (λ ran.
        Adds (K.held sink.old) (run_text work.now.ranks ran) (K.held sink.new)) }
    ensures written { Writes (IsReport accepted work.now) (K.held sink.old) (K.held sink.new)
        (done_in result) }
    ensures faults { CountsFaults (K.faults sink.old) (K.faults sink.new) result }
{
    let compiled = compile(alloc, accepted)?;
    let _ = compiled.accepted();
    perform(rt, alloc, hash_seed, sink, compiled, work, gate)
}

/// What is to be written of a specification that stands alone, where it is accepted.
#[derive(Drop)]
enum Asked {
    /// The line `accepted`.
    Acceptance,
    /// The plans of its operations, and then the line `end`.
    Plans,
    /// Its drawing.
    Drawing,
    /// Its drawing with the plan of the operation of this name.
    DrawnPlan {
        /// The bytes of the name.
        op: SmallList<u8>,
    },
}

/// Writes what is asked of an accepted specification.
fn write_asked<K: Sink>(
    alloc: Global,
    asked: Asked,
    accepted: Accepted,
    sink: &mut K,
) -> Result<Status, Stop>
    ensures written { Writes (IsAskedText asked accepted) (K.held sink.old) (K.held sink.new) result }
    ensures faults { CountsFaults (K.faults sink.old) (K.faults sink.new) result }
{
    match asked {
        Asked::Acceptance => write_accepted(sink),
        Asked::Plans => write_planned(alloc, sink, accepted),
        Asked::Drawing => write_drawing(alloc, sink, &accepted),
        Asked::DrawnPlan { op } => write_drawn_plan(alloc, sink, accepted, op.list()),
    }
}

/// Answers a specification that stands alone: writes what is asked of it, or its refusal.
fn answer_alone<K: Sink>(
    alloc: Global,
    asked: Asked,
    text: &[u8],
    sink: &mut K,
) -> Result<Status, Stop>
    requires { length text.now ≤ 2 ^ 24 }
    ensures written { Writes (AnswersAlone (IsAskedText asked) (spec_of text.now)) (K.held sink.old) (K.held sink.new) result }
    ensures faults { CountsFaults (K.faults sink.old) (K.faults sink.new) result }
{
    let spec = match read_spec_only(alloc, text) {
        Ok(spec) => spec,
        Err(refusal) => return refuse(alloc, sink, refusal),
    };
    match accept(alloc, spec) {
        Ok(accepted) => write_asked(alloc, asked, accepted, sink),
        Err(fault) => refuse_spec(alloc, sink, fault),
    }
}

/// Answers a specification and the workload behind it, in which groups may stand or not: makes its turns where all rules are
/// kept.
fn run<R: Threads + Wait + Sync, K: Sink, G: Gate + Sync>(
    rt: &R,
    alloc: Global,
    hash_seed: Seed,
    also: Also,
    text: &[u8],
    sink: &mut K,
    gate: &G,
) -> Result<Outcome, Stop>
    requires { length text.now ≤ 2 ^ 24 }
    ensures written { Writes (AnswersRun also text.now (spec_reading text.now)) (K.held sink.old)
        (K.held sink.new) (status_in result) }
    ensures has_ran { IfOk result (λ outcome. IsSome outcome.ran ↔ outcome.status ≡ Status.Done) }
    ensures ran { IfOk result (λ outcome.
        IfSome outcome.ran (HasRunText also text.now (K.held sink.old) (K.held sink.new))) }
    ensures faults { CountsFaults (K.faults sink.old) (K.faults sink.new) result }
{
    let (spec, rest) = match read_spec(alloc, text) {
        Ok(read) => read,
        Err(refusal) => return refuse_run(alloc, sink, refusal),
    };
    let accepted = match accept(alloc, spec) {
        Ok(accepted) => accepted,
        Err(fault) => return refuse_run_of(alloc, sink, fault),
    };
    match read_work(alloc, text, rest, accepted.spec(), also) {
        Ok(work) => {
            let ran = perform_planned(rt, alloc, hash_seed, sink, accepted, &work, gate);
            drop(work);
            with_run(ran)
        }
        Err(refusal) => {
            drop(accepted);
            refuse_run(alloc, sink, refusal)
        }
    }
}

/// Answers a text of at most 2^24 bytes as the command asks, and writes the answer line by line: what the command asks of
/// a text that keeps its rules, else the refusal of the first broken one. `run` makes the calls of its workload by threads
/// that run beside each other, and hands out what they left; `group` does so too, and makes the calls of each group as one, and
/// `open`, with calls that may bring their own operation; and `hand` does as `run`, by plans that are written in the text.
/// `audit` makes the calls of a report one after another, on a relation of its own. The gate is told of each point that a turn
/// reaches, and the seed is that of the hash tables. Costs the text's length and, for these four, what the plans of the calls
/// cost.
///
/// `Err` where memory is wanted, with nothing or a first part of the answer written, and where a write fails, with a first
/// part written.
pub fn answer<R: Threads + Wait + Sync, K: Sink, G: Gate + Sync>(
    rt: &R,
    alloc: Global,
    hash_seed: Seed,
    command: TextCommand,
    text: &[u8],
    sink: &mut K,
    gate: &G,
) -> Result<Outcome, Stop>
    requires { length text.now ≤ 2 ^ 24 }
    ensures written { Writes (Answers command text.now) (K.held sink.old) (K.held sink.new)
        (status_in result) }
    ensures has_ran { IfOk result (λ outcome.
        IsSome outcome.ran ↔ MakesCalls command × (outcome.status ≡ Status.Done)) }
    ensures ran { IfOk result (λ outcome. IfSome outcome.ran
        (HasTextOf command text.now (K.held sink.old) (K.held sink.new))) }
    ensures faults { CountsFaults (K.faults sink.old) (K.faults sink.new) result }
{
    match command {
        TextCommand::Check => without_run(answer_alone(alloc, Asked::Acceptance, text, sink)),
        TextCommand::Plan => without_run(answer_alone(alloc, Asked::Plans, text, sink)),
        TextCommand::Run => run(rt, alloc, hash_seed, Also::Nothing, text, sink, gate),
        TextCommand::Group => run(rt, alloc, hash_seed, Also::Groups, text, sink, gate),
        TextCommand::Audit => without_run(answer_audit(alloc, hash_seed, Form::Run, text, sink)),
        TextCommand::AuditGroup => {
            without_run(answer_audit(alloc, hash_seed, Form::Group, text, sink))
        }
        TextCommand::AuditJournal => {
            without_run(answer_audit(alloc, hash_seed, Form::Journal, text, sink))
        }
        TextCommand::Hand => answer_by_hand(rt, alloc, hash_seed, text, sink, gate),
        TextCommand::Open => answer_open(rt, alloc, hash_seed, text, sink, gate),
        TextCommand::Dot => without_run(answer_alone(alloc, Asked::Drawing, text, sink)),
        TextCommand::DotPlan { op } => {
            without_run(answer_alone(alloc, Asked::DrawnPlan { op }, text, sink))
        }
    }
}
