//! Answers a specification and a workload whose calls may bring their own operation.

ghost use Rattle.std.specs.Prelude.{◌≡◌, ◌≤◌, ◌^◌, ◌+◌, ◌++◌, ◌↔◌, length, IfOk, IfSome, IsSome, OnErr, OnOk};
ghost use Rattle.std.specs.List.{AllByRecursion};
ghost use Rattle.rc_text.specs.Lines.{IsLineStart};
ghost use Rattle.rc_io.specs.Bytes.{Adds, AddsPrefix};
ghost use Rattle.rc_open.specs.ShapeText.{shapes_text};
ghost use Rattle.rc_reader.specs.Answers.{rest_place};
ghost use Rattle.rc_reader.specs.Grammar.{spec_reading};
ghost use Rattle.rc_rel.specs.History.{AllFit};
ghost use Rattle.rc_spec.specs.Names.{IsWellNamed};
ghost use Rattle.rc_work.specs.Fitting.{HasThreads, RoundsFit};
ghost use Rattle.rc_work.specs.Limits.{KeepsLimits};
ghost use Rattle.rc_work.specs.OpenGrammar.{open_reading};
ghost use Rattle.rc_work.specs.Shapes.{IsShapeOf, with_operations};
ghost use Rattle.rc_answer.specs.Answers.{AnswersOpen, AnswersOpenWork, IsOpenReport};
ghost use Rattle.rc_answer.specs.Ran.{HasOpenText, HasOpenWorkText, IsOfItsStore, IsRunOf, done_in, entries_in, open_text, run_text, status_in};
ghost use Rattle.rc_answer.specs.Writes.{CountsFaults, Writes};

use crate::outcome::{Outcome, Ran, with_run};
use crate::performing::{make_run, write_run};
use crate::refusing::{refuse_run, refuse_run_of};
use crate::status::{Status, Stop};
use crate::writing::write_text;
use rc_cache::compile_open;
use rc_io::Sink;
use rc_maps::Seed;
use rc_open::print_shapes;
use rc_place::accept;
use rc_reader::{Rest, read_spec};
use rc_spec::{Accepted, Ops};
use rc_store::Gate;
use rc_work::{Work, read_open};
use std::alloc::Global;
use std::sync::Wait;
use std::thread::Threads;

/// Writes the lines of the operations that weren't declared, and then the plans and the report of a run.
fn write_open_run<K: Sink>(
    alloc: Global,
    sink: &mut K,
    declared: usize,
    ran: &Ran,
    work: &Work,
) -> Result<(), Stop>
    requires behind { declared ≤ length ran.now.closed.compiled.spec.ops }
    requires kept { IsSome ran.now.closed.journal }
    requires fit { AllFit ran.now.closed.compiled.spec (entries_in ran.now.closed.journal) }
    ensures ok { OnOk result (Adds (K.held sink.old)
        (open_text declared work.now.ranks ran.now) (K.held sink.new)) }
    ensures prefix { OnErr result (AddsPrefix (K.held sink.old)
        (open_text declared work.now.ranks ran.now) (K.held sink.new)) }
    ensures faults { CountsFaults (K.faults sink.old) (K.faults sink.new) result }
{
    let compiled = ran.closed.compiled();
    let spec = compiled.accepted().spec();
    let shapes = print_shapes(alloc, spec, &spec.ops.list()[declared..])?;
    write_text(sink, &shapes)?;
    write_run(alloc, sink, ran, work)
}

/// Puts the shapes behind the operations of the specification, plans all of these, the shapes by the threads of the workload,
/// makes its turns, and writes the shapes, the plans and the report.
fn perform_open<R: Threads + Wait + Sync, K: Sink, G: Gate + Sync>(
    rt: &R,
    alloc: Global,
    hash_seed: Seed,
    sink: &mut K,
    accepted: Accepted,
    shapes: Ops,
    work: &Work,
    gate: &G,
) -> Result<Ran, Stop>
    requires shapes { AllByRecursion (IsShapeOf accepted) shapes }
    requires few { length shapes ≤ 32 }
    requires room { length accepted.ops + length shapes ≤ 64 }
    requires fit { RoundsFit (with_operations accepted shapes) work.now.rounds }
    requires threads { HasThreads work.now }
    requires limits { KeepsLimits work.now }
    ensures run { IfOk result (IsRunOf (with_operations accepted shapes) work.now) }
    ensures store { IfOk result IsOfItsStore }
    ensures text { IfOk result (λ ran. Adds (K.held sink.old)
        (shapes_text accepted shapes ++ run_text work.now.ranks ran) (K.held sink.new)) }
    ensures written { Writes (IsOpenReport accepted (record { shapes = shapes; work = work.now }))
        (K.held sink.old) (K.held sink.new) (done_in result) }
    ensures faults { CountsFaults (K.faults sink.old) (K.faults sink.new) result }
{
    let declared = accepted.spec().ops.list().len();
    let compiled = compile_open(rt, alloc, accepted, shapes, work)?;
    let _ = compiled.accepted();
    let ran = make_run(rt, alloc, hash_seed, compiled, work, gate)?;
    write_open_run(alloc, sink, declared, &ran, work).and(Ok(ran))
}

/// Answers a workload that stands from a place of a text on, behind an accepted specification.
fn run_open<R: Threads + Wait + Sync, K: Sink, G: Gate + Sync>(
    rt: &R,
    alloc: Global,
    hash_seed: Seed,
    accepted: Accepted,
    text: &[u8],
    rest: Rest,
    sink: &mut K,
    gate: &G,
) -> Result<Outcome, Stop>
    requires short { length text.now ≤ 2 ^ 24 }
    requires start { IsLineStart (rest_place text.now rest) }
    requires well_named { IsWellNamed accepted }
    requires few { length accepted.ops ≤ 32 }
    ensures written { Writes (AnswersOpenWork accepted
        (open_reading rest.version accepted (rest_place text.now rest)))
        (K.held sink.old) (K.held sink.new) (status_in result) }
    ensures has_ran { IfOk result (λ outcome. IsSome outcome.ran ↔ outcome.status ≡ Status.Done) }
    ensures ran { IfOk result (λ outcome. IfSome outcome.ran (HasOpenWorkText rest.version accepted
        (rest_place text.now rest) (K.held sink.old) (K.held sink.new))) }
    ensures faults { CountsFaults (K.faults sink.old) (K.faults sink.new) result }
{
    match read_open(alloc, text, rest, accepted.spec()) {
        Ok(read) => {
            let shapes = read.shapes;
            let ran = perform_open(
                rt, alloc, hash_seed, sink, accepted, shapes, &read.work, gate,
            );
            // Dropped by its type's own `drop`, which is proved, and not field by field.
            drop(read.work);
            with_run(ran)
        }
        Err(refusal) => {
            drop(accepted);
            refuse_run(alloc, sink, refusal)
        }
    }
}

/// Answers a specification, and a workload behind it whose calls may bring their own operation: makes its calls where all rules
/// are kept, over the specification with these operations behind its own.
pub(crate) fn answer_open<R: Threads + Wait + Sync, K: Sink, G: Gate + Sync>(
    rt: &R,
    alloc: Global,
    hash_seed: Seed,
    text: &[u8],
    sink: &mut K,
    gate: &G,
) -> Result<Outcome, Stop>
    requires { length text.now ≤ 2 ^ 24 }
    ensures written { Writes (AnswersOpen text.now (spec_reading text.now))
        (K.held sink.old) (K.held sink.new) (status_in result) }
    ensures has_ran { IfOk result (λ outcome. IsSome outcome.ran ↔ outcome.status ≡ Status.Done) }
    ensures ran { IfOk result (λ outcome.
        IfSome outcome.ran (HasOpenText text.now (K.held sink.old) (K.held sink.new))) }
    ensures faults { CountsFaults (K.faults sink.old) (K.faults sink.new) result }
{
    let (spec, rest) = match read_spec(alloc, text) {
        Ok(read) => read,
        Err(refusal) => return refuse_run(alloc, sink, refusal),
    };
    match accept(alloc, spec) {
        Ok(accepted) => run_open(rt, alloc, hash_seed, accepted, text, rest, sink, gate),
        Err(fault) => refuse_run_of(alloc, sink, fault),
    }
}
