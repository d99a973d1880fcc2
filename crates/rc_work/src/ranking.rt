//! Gives each text its rank, and makes the calls.

ghost use Rattle.std.specs.Prelude.{◌≡◌, ◌++◌, map, IfOk, OnOk};
ghost use Rattle.std.specs.List.{AllByRecursion};
ghost use Rattle.rc_spec.specs.InRange.{IsInRange};
ghost use Rattle.rc_spec.specs.Names.{IsWellNamed};
ghost use Rattle.rc_work.specs.CallColumns.{HasKnownColumns};
ghost use Rattle.rc_work.specs.Drafts.{IsRawCall, IsRawTurn};
ghost use Rattle.rc_work.specs.Fitting.{AreOfWords, IsOfWords};
ghost use Rattle.rc_work.specs.Ranking.{texts_in_call, texts_in_turn, texts_in_round, texts_in, ranked_value, ranked_call, ranked_turn, ranked_round, ranked_rounds, work_of};
ghost use Rattle.rc_work.specs.Shapes.{with_operations};

use crate::calls::refill_over;
use crate::draft::Draft;
use crate::raw::{RawCall, RawRound, RawTurn, RawValue};
use crate::work::{Calls, Round, Rounds, Turn, Work};
use rc_spec::{Call, Op, Ranges, Spec};
use rc_tuple::{Memory, Tuple};
use rc_values::{Name64, Ranks};
use std::alloc::Global;

/// Appends the texts of a call's values.
fn push_call_texts(texts: &mut Vec<Name64>, call: &RawCall) -> Result<(), Memory>
    ensures { OnOk result (texts.new.items ≡ texts.old.items ++ texts_in_call call.now) }
{
    for value in call.values.list() {
        if let RawValue::Text(text) = value {
            let text = Name64::new(*texts.allocator(), text.bytes())?;
            texts.push(text)?;
        }
    }
    Ok(())
}

/// Appends the texts of a turn's values.
fn push_turn_texts(texts: &mut Vec<Name64>, turn: &RawTurn) -> Result<(), Memory>
    ensures { OnOk result (texts.new.items ≡ texts.old.items ++ texts_in_turn turn.now) }
{
    for call in turn.calls.list() {
        push_call_texts(texts, call)?;
    }
    Ok(())
}

/// Appends the texts of a round's values.
fn push_round_texts(texts: &mut Vec<Name64>, round: &[RawTurn]) -> Result<(), Memory>
    ensures { OnOk result (texts.new.items ≡ texts.old.items ++ texts_in_round round.now) }
{
    for turn in round {
        push_turn_texts(texts, turn)?;
    }
    Ok(())
}

/// The texts of all values.
fn texts_in(alloc: Global, rounds: &[RawRound]) -> Result<Vec<Name64>, Memory>
    ensures { IfOk result (λ texts. texts.items ≡ texts_in rounds.now) }
{
    let mut texts = Vec::new(alloc);
    for round in rounds {
        push_round_texts(&mut texts, round.list())?;
    }
    Ok(texts)
}

/// The number that stands for a value.
fn ranked_value(ranks: &Ranks, value: &RawValue) -> u64
    ensures { result ≡ ranked_value ranks.now value.now }
{
    match value {
        RawValue::Number(number) => *number,
        RawValue::Text(text) => ranks.rank_of(text.bytes()).unwrap_or(0),
    }
}

/// The numbers that stand for values.
fn ranked_values(alloc: Global, ranks: &Ranks, values: &[RawValue]) -> Result<Vec<u64>, Memory>
    ensures { IfOk result (λ vals. vals.items ≡ map (ranked_value ranks.now) values.now) }
{
    let mut vals = Vec::new(alloc);
    for value in values {
        vals.push(ranked_value(ranks, value))?;
    }
    Ok(vals)
}

/// The call with numbers for its texts.
fn ranked_call(
    alloc: Global,
    spec: &Spec,
    shapes: &[Op],
    ranks: &Ranks,
    call: &RawCall,
) -> Result<Call, Memory>
    requires columns { HasKnownColumns (with_operations spec.now shapes.now) }
    requires call { IsRawCall (with_operations spec.now shapes.now) call.now }
    ensures call { IfOk result (λ ranked. ranked ≡ ranked_call (with_operations spec.now shapes.now) ranks.now call.now) }
    ensures words { IfOk result IsOfWords }
{
    let vals = ranked_values(alloc, ranks, call.values.list())?;
    let mut ranked = Call {
        op: call.op,
        args: Tuple::empty(alloc),
        ranges: Ranges::new(alloc),
    };
    refill_over(&mut ranked, spec, shapes, call.op, call.cols.list(), &vals)?;
    Ok(ranked)
}

/// The calls of a turn, with memory for no more.
fn ranked_calls(
    alloc: Global,
    spec: &Spec,
    shapes: &[Op],
    ranks: &Ranks,
    calls: &[RawCall],
) -> Result<Calls, Memory>
    requires columns { HasKnownColumns (with_operations spec.now shapes.now) }
    requires calls { AllByRecursion (IsRawCall (with_operations spec.now shapes.now)) calls.now }
    ensures calls { IfOk result
        (λ ranked. ranked ≡ map (ranked_call (with_operations spec.now shapes.now) ranks.now) calls.now) }
    ensures words { IfOk result (AllByRecursion IsOfWords) }
{
    let mut ranked = Vec::with_capacity(alloc, calls.len())?;
    for call in calls {
        ranked.push(ranked_call(alloc, spec, shapes, ranks, call)?)?;
    }
    Ok(Calls::from_vec(ranked))
}

/// The turn with its calls.
fn ranked_turn(
    alloc: Global,
    spec: &Spec,
    shapes: &[Op],
    ranks: &Ranks,
    turn: &RawTurn,
) -> Result<Turn, Memory>
    requires columns { HasKnownColumns (with_operations spec.now shapes.now) }
    requires turn { IsRawTurn (with_operations spec.now shapes.now) turn.now }
    ensures turn { IfOk result (λ ranked. ranked ≡ ranked_turn (with_operations spec.now shapes.now) ranks.now turn.now) }
    ensures words { IfOk result (λ ranked. AllByRecursion IsOfWords ranked.calls) }
{
    Ok(Turn {
        thread: turn.thread,
        calls: ranked_calls(alloc, spec, shapes, ranks, turn.calls.list())?,
    })
}

/// The round with its turns.
fn ranked_round(
    alloc: Global,
    spec: &Spec,
    shapes: &[Op],
    ranks: &Ranks,
    round: &[RawTurn],
) -> Result<Round, Memory>
    requires columns { HasKnownColumns (with_operations spec.now shapes.now) }
    requires turns { AllByRecursion (IsRawTurn (with_operations spec.now shapes.now)) round.now }
    ensures turns { IfOk result (λ ranked. ranked ≡ ranked_round (with_operations spec.now shapes.now) ranks.now round.now) }
    ensures words { IfOk result (AllByRecursion (λ turn. AllByRecursion IsOfWords turn.calls)) }
{
    let mut ranked = Round::new(alloc);
    for turn in round {
        ranked.push(ranked_turn(alloc, spec, shapes, ranks, turn)?)?;
    }
    Ok(ranked)
}

/// The rounds with their turns.
fn ranked_rounds(
    alloc: Global,
    spec: &Spec,
    shapes: &[Op],
    ranks: &Ranks,
    rounds: &[RawRound],
) -> Result<Rounds, Memory>
    requires columns { HasKnownColumns (with_operations spec.now shapes.now) }
    requires turns { AllByRecursion (AllByRecursion (IsRawTurn (with_operations spec.now shapes.now))) rounds.now }
    ensures rounds { IfOk result (λ ranked. ranked ≡ ranked_rounds (with_operations spec.now shapes.now) ranks.now rounds.now) }
    ensures words { IfOk result AreOfWords }
{
    let mut ranked = Rounds::new(alloc);
    for round in rounds {
        ranked.push(ranked_round(alloc, spec, shapes, ranks, round.list())?)?;
    }
    Ok(ranked)
}

/// The workload of a draft over a specification with further operations.
pub(crate) fn work_over(
    alloc: Global,
    spec: &Spec,
    shapes: &[Op],
    draft: &Draft,
) -> Result<Work, Memory>
    requires columns { HasKnownColumns (with_operations spec.now shapes.now) }
    requires turns { AllByRecursion (AllByRecursion (IsRawTurn (with_operations spec.now shapes.now))) draft.now.rounds }
    ensures work { IfOk result (λ work. work ≡ work_of (with_operations spec.now shapes.now) draft.now) }
    ensures words { IfOk result (λ work. AreOfWords work.rounds) }
{
    let rounds = draft.rounds.list();
    let ranks = Ranks::build(texts_in(alloc, rounds)?)?;
    let rounds = ranked_rounds(alloc, spec, shapes, &ranks, rounds)?;
    Ok(Work {
        threads: draft.threads,
        rounds,
        ranks,
    })
}

/// The workload of a draft.
pub(crate) fn work_of(alloc: Global, spec: &Spec, draft: &Draft) -> Result<Work, Memory>
    requires range { IsInRange spec.now }
    requires named { IsWellNamed spec.now }
    requires turns { AllByRecursion (AllByRecursion (IsRawTurn spec.now)) draft.now.rounds }
    ensures work { IfOk result (λ work. work ≡ work_of spec.now draft.now) }
    ensures words { IfOk result (λ work. AreOfWords work.rounds) }
{
    work_over(alloc, spec, &[], draft)
}
