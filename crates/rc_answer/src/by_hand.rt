//! Answers a specification, plans that are written for some of its operations, and a workload.

ghost use Rattle.std.specs.Prelude.{◌≡◌, ◌≤◌, ◌^◌, ◌↔◌, length, IfOk, IfSome, IsSome};
ghost use Rattle.rc_text.specs.Lines.{IsLineStart, content_from, past_end_of};
ghost use Rattle.rc_reader.specs.Answers.{rest_place};
ghost use Rattle.rc_reader.specs.Grammar.{spec_reading};
ghost use Rattle.rc_spec.specs.Names.{IsWellNamed};
ghost use Rattle.rc_handplan.specs.HandGrammar.{hands_reading};
ghost use Rattle.rc_handplan.specs.Hands.{AreHands};
ghost use Rattle.rc_answer.specs.Answers.{AnswersByHand, AnswersChosen, AnswersHands};
ghost use Rattle.rc_answer.specs.Ran.{HasHandText, status_in};
ghost use Rattle.rc_answer.specs.RanByHand.{HasChosenText, HasHandsText};
ghost use Rattle.rc_answer.specs.Writes.{CountsFaults, Writes};

use crate::outcome::{Outcome, with_run};
use crate::performing::perform;
use crate::refusing::{refuse_hands, refuse_plan, refuse_run, refuse_run_of};
use crate::status::{Status, Stop};
use rc_handplan::{Closing, Hand, compile_with, read_plans};
use rc_io::Sink;
use rc_maps::Seed;
use rc_place::accept;
use rc_reader::{Rest, read_spec};
use rc_spec::Accepted;
use rc_store::Gate;
use rc_work::{Also, read_work};
use std::alloc::Global;
use std::sync::Wait;
use std::thread::Threads;

/// Answers a specification, plans behind it, and a workload behind these: makes its calls where all
/// rules are kept, by the plans that are written and else by the planned ones.
pub(crate) fn answer_by_hand<R: Threads + Wait + Sync, K: Sink, G: Gate + Sync>(
    rt: &R,
    alloc: Global,
    hash_seed: Seed,
    text: &[u8],
    sink: &mut K,
    gate: &G,
) -> Result<Outcome, Stop>
    requires { length text.now ≤ 2 ^ 24 }
    ensures written { Writes (AnswersByHand text.now (spec_reading text.now))
        (K.held sink.old) (K.held sink.new) (status_in result) }
    ensures has_ran { IfOk result (λ outcome. IsSome outcome.ran ↔ outcome.status ≡ Status.Done) }
    ensures ran { IfOk result (λ outcome.
        IfSome outcome.ran (HasHandText text.now (K.held sink.old) (K.held sink.new))) }
    ensures faults { CountsFaults (K.faults sink.old) (K.faults sink.new) result }
{
    let (spec, rest) = match read_spec(alloc, text) {
        Ok(read) => read,
        Err(refusal) => return refuse_run(alloc, sink, refusal),
    };
    match accept(alloc, spec) {
        Ok(accepted) => run_by_hand(rt, alloc, hash_seed, accepted, text, rest, sink, gate),
        Err(fault) => refuse_run_of(alloc, sink, fault),
    }
}

/// Answers the plans and the workload that stand from a place of a text on, behind an accepted
/// specification.
fn run_by_hand<R: Threads + Wait + Sync, K: Sink, G: Gate + Sync>(
    rt: &R,
    alloc: Global,
    hash_seed: Seed,
    accepted: Accepted,
    text: &[u8],
    rest: Rest,
    sink: &mut K,
    gate: &G,
) -> Result<Outcome, Stop>
    requires short { length text.now ≤ 2 ^ 24 }
    requires start { IsLineStart (rest_place text.now rest) }
    requires well_named { IsWellNamed accepted }
    ensures written { Writes (AnswersHands (past_end_of text.now) accepted
        (hands_reading accepted (rest_place text.now rest)))
        (K.held sink.old) (K.held sink.new) (status_in result) }
    ensures has_ran { IfOk result (λ outcome. IsSome outcome.ran ↔ outcome.status ≡ Status.Done) }
    ensures ran { IfOk result (λ outcome. IfSome outcome.ran (HasHandsText (past_end_of text.now)
        accepted (rest_place text.now rest) (K.held sink.old) (K.held sink.new))) }
    ensures faults { CountsFaults (K.faults sink.old) (K.faults sink.new) result }
{
    match read_plans(alloc, text, rest, &accepted, Closing::Work) {
        Ok((hands, behind)) => {
            run_by_plans(
                rt, alloc, hash_seed, accepted, hands, text, behind, sink, gate,
            )
        }
        Err(refusal) => refuse_hands(alloc, sink, refusal),
    }
}

/// Answers a workload that stands from a place of a text on, behind an accepted specification and
/// plans of some of its operations.
fn run_by_plans<R: Threads + Wait + Sync, K: Sink, G: Gate + Sync>(
    rt: &R,
    alloc: Global,
    hash_seed: Seed,
    accepted: Accepted,
    hands: Vec<Hand>,
    text: &[u8],
    behind: Rest,
    sink: &mut K,
    gate: &G,
) -> Result<Outcome, Stop>
    requires short { length text.now ≤ 2 ^ 24 }
    requires start { IsLineStart (rest_place text.now behind) }
    requires well_named { IsWellNamed accepted }
    requires hands { AreHands accepted hands.items }
    ensures written { Writes (AnswersChosen (past_end_of text.now) accepted hands.items
        (content_from (rest_place text.now behind)))
        (K.held sink.old) (K.held sink.new) (status_in result) }
    ensures has_ran { IfOk result (λ outcome. IsSome outcome.ran ↔ outcome.status ≡ Status.Done) }
    ensures ran { IfOk result (λ outcome. IfSome outcome.ran (HasChosenText (past_end_of text.now)
        accepted hands.items (content_from (rest_place text.now behind))
        (K.held sink.old) (K.held sink.new))) }
    ensures faults { CountsFaults (K.faults sink.old) (K.faults sink.new) result }
{
    let compiled = match compile_with(alloc, accepted, hands) {
        Ok(compiled) => compiled,
        Err(fault) => return refuse_plan(alloc, sink, fault),
    };
    let spec = compiled.accepted().spec();
    match read_work(alloc, text, behind, spec, Also::Nothing) {
        Ok(work) => {
            let ran = perform(rt, alloc, hash_seed, sink, compiled, &work, gate);
            // Dropped by its type's own `drop`, which is proved, and not field by field.
            drop(work);
            with_run(ran)
        }
        Err(refusal) => {
            drop(compiled);
            refuse_run(alloc, sink, refusal)
        }
    }
}
