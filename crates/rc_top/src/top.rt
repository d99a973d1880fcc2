//! The top call.

ghost use Rattle.std.specs.Prelude.{◌≡◌, ◌≤◌, ◌^◌, ◌+◌, ◌⊎◌, ◌↔◌, ℕ, List, Some, None, IfSome, IsSome, drop, length, map, string_bytes};
ghost use Rattle.rc_io.specs.Counts.{Rose};
ghost use Rattle.rc_top.specs.Answer.{IsAnswer, IsAnswered, KeepsRules};
ghost use Rattle.rc_top.specs.Asks.{HasRead, LeavesAllBut, MakesRun, ReadsNothing, also_asked, ArePlansAsked};
ghost use Rattle.rc_top.specs.Ends.{Ends, EndsBig, EndsUsage, status_of};
ghost use Rattle.rc_answer.specs.Answers.{MakesCalls, also_of, audit_for, ArePlansFor};
ghost use Rattle.rc_answer.specs.Big.{HasSummaryText};
ghost use Rattle.rc_answer.specs.Headline.{AuditHeadline, CheckHeadline, HandHeadline, Headline, OpenHeadline};
ghost use Rattle.rc_answer.specs.Ran.{HasTextOf, IsOneHistory, ran_in, status_in};
ghost use Rattle.rc_answer.specs.Plans.{ArePlanned};
ghost use Rattle.rc_audit.specs.declared.form.Form.{Form};
ghost use Rattle.rc_command.specs.Command.{command_of};
ghost use Rattle.rc_command.specs.declared.command.Command.TheVariants.{Big, OfText};
ghost use Rattle.rc_command.specs.declared.command.TextCommand.{TextCommand};
ghost use Rattle.rc_command.specs.declared.command.TextCommand.TheVariants as commands;
ghost use Rattle.rc_work.specs.declared.also.Also.TheVariants.{Groups, Nothing};

use rc_answer::{Outcome, Status, Stop, answer, answer_big, refuse_size};
use rc_command::{Command, TextCommand, command_in};
use rc_io::{ReadFault, Sink, Source, WriteFault, read_all, write_all};
use rc_maps::Seed;
use rc_store::Gate;
use rc_text::MAX_TEXT_BYTES;
use rc_tuple::Memory;
use std::alloc::Global;
use std::sync::Wait;
use std::thread::Threads;

/// Does what the words ask. `words[0]` is the program's name. The commands `check`, `plan`, `run`, `group`, `open`, `hand`, `audit` and `dot`
/// read the source to its end, or until 2^24 + 1 bytes are taken, and never more; `big SEED N` and other words take nothing
/// from it.
///
/// Over the bytes that the source tells to be left at entry, `check` writes `accepted` where the specification keeps
/// all rules, `plan` the planned plan of each of its operations and then `end`, `dot` its drawing, `dot OP` the drawing
/// with the planned plan of the operation of this name, and `run` the same plans as `plan` and then the report of a
/// journal that is a run of the workload and of the rows of its replay. `group` is `run` on a workload in which calls may
/// stand in groups, each of which is one entry of the journal. `open` is `run` on a workload in which calls may bring their own
/// operation, for each kind of which, with its columns, a line stands before the plans. `hand` is `run` on a text in which plans of some
/// operations may stand between specification and workload, each of which keeps K1 to K7, and has
/// these in the place of the planned ones. `audit` reads a workload up to its `end`, and writes `legal N`
/// exactly where the lines behind that are what `run` may print for the text up to there, with N entries, and else
/// `bad line L` for the first line with which no such text begins; `audit group` does so with what `group` may print, and
/// `audit bare` with the journal alone. Where a rule is broken, each writes the refusal of the first, where no operation has the name `refused operation`, and of more than 2^24 bytes `refused size`. `big`
/// writes the summary of the workload that the seed generates, which is that of one thread that makes the calls in
/// order. Other words write the usage line.
///
/// The status is `Done` or `Refused` with the whole text, `Bad` where that is `bad line L`, `Usage` with the usage line, `SourceFailed` with nothing
/// written, `SinkFailed` with a prefix of such a text, and `OutOfMemory` with nothing or a prefix, where no read or write
/// was counted as failed.
///
/// `run`, `group`, `open`, `hand` and `big` make the calls of each round by threads that run beside each other, on one shared store, and `ran` has
/// what they left: whatever was read, the journal is one legal history, every state of which satisfies the dependencies,
/// and the rows are those that it leaves; it is a run of the workload that the told bytes have, or of the generated one,
/// and what was written are the plans and the report, or the summary, of these very values. The gate is told of each
/// point that a call reaches. The seed is handed on for the hash tables of the store and the judge: draw it at random, so that
/// nobody can write a list of colliding keys beforehand. No clause here names it.
pub fn relc<R: Threads + Wait + Sync, S: Source, K: Sink, G: Gate + Sync>(
    rt: &R,
    alloc: Global,
    hash_seed: Seed,
    words: &[String],
    source: &mut S,
    sink: &mut K,
    gate: &G,
) -> Outcome
    // Words that are no command, and they alone, write the usage line.
    ensures usage { command_of (map string_bytes words.now) ≡ None
        → EndsUsage (K.held sink.old) (K.held sink.new) result.status }
    ensures only_usage { result.status ≡ Status.Usage
        → command_of (map string_bytes words.now) ≡ None }
    ensures only_audit { result.status ≡ Status.Bad → (form : Form)
        × (command_of (map string_bytes words.now) ≡ Some (OfText (audit_for form))) }
    ensures untouched { ReadsNothing (command_of (map string_bytes words.now))
        → source.new ≡ source.old }

    // THE HEADLINE (rc_answer/specs/Headline.antt): the words say `run`, `group`, `open`, `hand`, `check` or `audit`, the source tells
    // its bytes, and all of them were read and answered.
    ensures headline { command_of (map string_bytes words.now) ≡ Some (OfText commands.Run)
        → (input : List ℕ) → S.left source.old ≡ Some input → length input ≤ 2 ^ 24
        → (result.status ≡ Status.Done) ⊎ (result.status ≡ Status.Refused)
        → Headline Nothing input (K.held sink.old) (K.held sink.new) result }
    ensures group_headline { command_of (map string_bytes words.now) ≡ Some (OfText commands.Group)
        → (input : List ℕ) → S.left source.old ≡ Some input → length input ≤ 2 ^ 24
        → (result.status ≡ Status.Done) ⊎ (result.status ≡ Status.Refused)
        → Headline Groups input (K.held sink.old) (K.held sink.new) result }
    ensures open_headline { command_of (map string_bytes words.now) ≡ Some (OfText commands.Open)
        → (input : List ℕ) → S.left source.old ≡ Some input → length input ≤ 2 ^ 24
        → (result.status ≡ Status.Done) ⊎ (result.status ≡ Status.Refused)
        → OpenHeadline input (K.held sink.old) (K.held sink.new) result }
    ensures hand_headline { command_of (map string_bytes words.now) ≡ Some (OfText commands.Hand)
        → (input : List ℕ) → S.left source.old ≡ Some input → length input ≤ 2 ^ 24
        → (result.status ≡ Status.Done) ⊎ (result.status ≡ Status.Refused)
        → HandHeadline input (K.held sink.old) (K.held sink.new) result }
    ensures check_headline { command_of (map string_bytes words.now) ≡ Some (OfText commands.Check)
        → (input : List ℕ) → S.left source.old ≡ Some input → length input ≤ 2 ^ 24
        → (result.status ≡ Status.Done) ⊎ (result.status ≡ Status.Refused)
        → CheckHeadline input (K.held sink.old) (K.held sink.new) result }
    ensures audit_headline { (form : Form)
        → command_of (map string_bytes words.now) ≡ Some (OfText (audit_for form))
        → (input : List ℕ) → S.left source.old ≡ Some input → length input ≤ 2 ^ 24
        → (result.status ≡ Status.Done) ⊎ ((result.status ≡ Status.Bad) ⊎ (result.status ≡ Status.Refused))
        → AuditHeadline form input (K.held sink.old) (K.held sink.new) result }

    // What is written of told bytes, how many are taken, and what is left of them.
    ensures answers { (command : TextCommand)
        → command_of (map string_bytes words.now) ≡ Some (OfText command)
        → (input : List ℕ) → S.left source.old ≡ Some input
        → Ends (IsAnswer command input) (K.held sink.old) (K.held sink.new) result.status }
    ensures taken { (input : List ℕ) → S.left source.old ≡ Some input
        → LeavesAllBut (2 ^ 24 + 1) input (S.left source.new) }
    ensures left { (command : TextCommand)
        → command_of (map string_bytes words.now) ≡ Some (OfText command)
        → (input : List ℕ) → S.left source.old ≡ Some input → HasRead result.status
        → S.left source.new ≡ Some (drop (2 ^ 24 + 1) input) }

    // What is written of a generated workload.
    ensures big { (seed calls : ℕ)
        → command_of (map string_bytes words.now) ≡ Some (Big seed calls)
        → EndsBig seed calls (K.held sink.old) (K.held sink.new) result.status }

    // What a run left, and of what its text is.
    ensures has_ran { IsSome result.ran ↔
        MakesRun (command_of (map string_bytes words.now)) × (result.status ≡ Status.Done) }
    ensures history { IfSome result.ran
        (IsOneHistory (ArePlansAsked (command_of (map string_bytes words.now)))
        (also_asked (command_of (map string_bytes words.now)))) }
    ensures report { (command : TextCommand)
        → command_of (map string_bytes words.now) ≡ Some (OfText command)
        → (input : List ℕ) → S.left source.old ≡ Some input
        → IfSome result.ran
        (HasTextOf command input (K.held sink.old) (K.held sink.new)) }
    ensures summary { (seed calls : ℕ)
        → command_of (map string_bytes words.now) ≡ Some (Big seed calls)
        → IfSome result.ran (HasSummaryText seed calls (K.held sink.old) (K.held sink.new)) }

    // Statuses have their causes.
    ensures source_failed { result.status ≡ Status.SourceFailed
        → Rose (S.faults source.old) (S.faults source.new) }
    ensures nothing_written { result.status ≡ Status.SourceFailed
        → K.held sink.new ≡ K.held sink.old }
    ensures sink_failed { result.status ≡ Status.SinkFailed
        → Rose (K.faults sink.old) (K.faults sink.new) }
    ensures memory { result.status ≡ Status.OutOfMemory
        → (S.faults source.new ≡ S.faults source.old) × (K.faults sink.new ≡ K.faults sink.old) }
    ensures source_count { S.faults source.old ≤ S.faults source.new }
    ensures sink_count { K.faults sink.old ≤ K.faults sink.new }

    // A text that keeps all rules is answered, where nothing fails and memory is there.
    ensures complete { (command : TextCommand)
        → command_of (map string_bytes words.now) ≡ Some (OfText command)
        → (input : List ℕ) → S.left source.old ≡ Some input
        → length input ≤ 2 ^ 24 → KeepsRules command input
        → (Rose (S.faults source.old) (S.faults source.new) → ⊥)
        → (Rose (K.faults sink.old) (K.faults sink.new) → ⊥)
        → IsAnswered command result.status ⊎ (result.status ≡ Status.OutOfMemory) }
{
    match command_in(alloc, words) {
        Ok(Some(Command::OfText(command))) => answer_text(
            rt, alloc, hash_seed, command, source, sink, gate,
        ),
        Ok(Some(Command::Big { seed, calls })) => big(
            rt, alloc, hash_seed, seed, calls, sink, gate,
        ),
        Ok(None) => Outcome::without_run(usage(sink)),
        Err(Memory) => Outcome::without_run(Status::OutOfMemory),
    }
}

/// Writes the usage line.
fn usage<K: Sink>(sink: &mut K) -> Status
    ensures ends { EndsUsage (K.held sink.old) (K.held sink.new) result }
    ensures failed { result ≡ Status.SinkFailed → Rose (K.faults sink.old) (K.faults sink.new) }
    ensures memory { result ≡ Status.OutOfMemory → K.faults sink.new ≡ K.faults sink.old }
    ensures count { K.faults sink.old ≤ K.faults sink.new }
{
    match write_all(
        sink,
        b"usage: relc check, plan, run, dot [OP], audit, hand, open, group or big SEED N\n",
    ) {
        Ok(()) => Status::Usage,
        Err(WriteFault::Sink) => Status::SinkFailed,
    }
}

/// The outcome of a writer's answer.
fn outcome_of(answer: Result<Outcome, Stop>) -> Outcome
    ensures status { result.status ≡ status_of (status_in answer) }
    ensures ran { result.ran ≡ ran_in answer }
{
    match answer {
        Ok(outcome) => outcome,
        Err(stop) => Outcome::without_run(stop.status()),
    }
}

/// The status of a writer's answer.
fn status_of(answer: Result<Status, Stop>) -> Status
    ensures { result ≡ status_of answer }
{
    match answer {
        Ok(status) => status,
        Err(stop) => stop.status(),
    }
}

/// Makes the calls of a generated workload, and writes their summary.
fn big<R: Threads + Wait + Sync, K: Sink, G: Gate + Sync>(
    rt: &R,
    alloc: Global,
    hash_seed: Seed,
    seed: u32,
    calls: u32,
    sink: &mut K,
    gate: &G,
) -> Outcome
    requires { calls ≤ 20000 }
    ensures big { EndsBig seed calls (K.held sink.old) (K.held sink.new) result.status }
    ensures has_ran { IsSome result.ran ↔ (result.status ≡ Status.Done) }
    ensures history { IfSome result.ran (IsOneHistory ArePlanned Nothing) }
    ensures summary { IfSome result.ran
        (HasSummaryText seed calls (K.held sink.old) (K.held sink.new)) }
    ensures sink_failed { result.status ≡ Status.SinkFailed
        → Rose (K.faults sink.old) (K.faults sink.new) }
    ensures memory { result.status ≡ Status.OutOfMemory → K.faults sink.new ≡ K.faults sink.old }
    ensures sink_count { K.faults sink.old ≤ K.faults sink.new }
{
    outcome_of(answer_big(rt, alloc, hash_seed, seed, calls, sink, gate))
}

/// Reads the source to its end, and answers its text as the command asks.
fn answer_text<R: Threads + Wait + Sync, S: Source, K: Sink, G: Gate + Sync>(
    rt: &R,
    alloc: Global,
    hash_seed: Seed,
    command: TextCommand,
    source: &mut S,
    sink: &mut K,
    gate: &G,
) -> Outcome
    ensures answers { (input : List ℕ) → S.left source.old ≡ Some input
        → Ends (IsAnswer command input) (K.held sink.old) (K.held sink.new) result.status }
    ensures taken { (input : List ℕ) → S.left source.old ≡ Some input
        → LeavesAllBut (2 ^ 24 + 1) input (S.left source.new) }
    ensures left { (input : List ℕ) → S.left source.old ≡ Some input → HasRead result.status
        → S.left source.new ≡ Some (drop (2 ^ 24 + 1) input) }
    ensures not_usage { result.status ≡ Status.Usage → ⊥ }
    ensures only_audit { result.status ≡ Status.Bad → (form : Form) × (command ≡ audit_for form) }
    ensures has_ran { IsSome result.ran ↔ MakesCalls command × (result.status ≡ Status.Done) }
    ensures history { IfSome result.ran (IsOneHistory (ArePlansFor command) (also_of command)) }
    ensures report { (input : List ℕ) → S.left source.old ≡ Some input → IfSome result.ran
        (HasTextOf command input (K.held sink.old) (K.held sink.new)) }
    ensures source_failed { result.status ≡ Status.SourceFailed
        → Rose (S.faults source.old) (S.faults source.new) }
    ensures nothing_written { result.status ≡ Status.SourceFailed → K.held sink.new ≡ K.held sink.old }
    ensures sink_failed { result.status ≡ Status.SinkFailed
        → Rose (K.faults sink.old) (K.faults sink.new) }
    ensures memory { result.status ≡ Status.OutOfMemory
        → (S.faults source.new ≡ S.faults source.old) × (K.faults sink.new ≡ K.faults sink.old) }
    ensures source_count { S.faults source.old ≤ S.faults source.new }
    ensures sink_count { K.faults sink.old ≤ K.faults sink.new }
{
    match read_all(alloc, source, MAX_TEXT_BYTES as u64) {
        Ok(text) => outcome_of(answer(rt, alloc, hash_seed, command, &text, sink, gate)),
        Err(ReadFault::TooLong) => Outcome::without_run(status_of(refuse_size(sink))),
        Err(ReadFault::Source) => Outcome::without_run(Status::SourceFailed),
        Err(ReadFault::Memory) => Outcome::without_run(Status::OutOfMemory),
    }
}
