//! The judging of a report that stands behind a workload.

ghost use Rattle.std.specs.Prelude.{◌≡◌, ◌≤◌, ◌^◌, [], length, IfOk};
ghost use Rattle.rc_text.specs.Lines.{IsLineStart, content_from, past_end_of};
ghost use Rattle.rc_reader.specs.Answers.{rest_place};
ghost use Rattle.rc_work.specs.Fitting.{HasThreads, RoundsFit};
ghost use Rattle.rc_work.specs.Limits.{KeepsLimits};
ghost use Rattle.rc_audit.specs.GoodReports.{IsVerdict};
ghost use Rattle.rc_audit.specs.Judging.{HasPassed, judged_form, judged_plans, judged_work, verdict_at};

use crate::fault::Fault;
use crate::form::Form;
use crate::judge::Judge;
use crate::verdict::Verdict;
use rc_maps::Seed;
use rc_plan::Compiled;
use rc_reader::Rest;
use rc_text::Lines;
use rc_tuple::Memory;
use rc_work::Work;
use std::alloc::Global;

/// Judges the lines behind a workload, in a text of at most 2^24 bytes:
/// whether they are what is printed of a run of the workload with these plans, or its journal alone,
/// as the form says, or which is the first with which no such text begins. Blank lines and comments
/// among them are passed over. The seed is that of the hash tables. Costs a walk over the text, and
/// what `Judge::judge_line` says of each line.
pub fn audit(
    alloc: Global,
    seed: Seed,
    form: Form,
    compiled: &Compiled,
    work: &Work,
    bytes: &[u8],
    rest: Rest,
) -> Result<Verdict, Memory>
    requires short { length bytes.now ≤ 2 ^ 24 }
    requires start { IsLineStart (rest_place bytes.now rest) }
    requires limits { KeepsLimits work.now }
    requires threads { HasThreads work.now }
    requires fit { RoundsFit compiled.now.spec work.now.rounds }
    ensures { IfOk result (IsVerdict form compiled.now work.now
        (past_end_of bytes.now) (content_from (rest_place bytes.now rest))) }
{
    let mut judge = Judge::new(alloc, seed, form, compiled, work)?;
    let mut lines = Lines::new(bytes, rest.at, rest.line);
    judge_lines(&mut judge, &mut lines)
}

/// Judges the lines that are left, where none was judged.
fn judge_lines(judge: &mut Judge<'_>, lines: &mut Lines<'_>) -> Result<Verdict, Memory>
    requires { HasPassed judge.old [] }
    ensures { IfOk result (IsVerdict (judged_form judge.old) (judged_plans judge.old)
        (judged_work judge.old) (past_end_of lines.old.text) (content_from lines.old)) }
{
    while let Some(line) = lines.next_line() {
        match judge.judge_line(line.bytes) {
            Ok(()) => {}
            Err(fault) => return said(fault, line.number),
        }
    }
    match judge.entries() {
        Some(entries) => Ok(Verdict::Legal { entries }),
        None => said(Fault::Bad, lines.past_end()),
    }
}

/// What is said of a report at a line that isn't passed.
fn said(fault: Fault, line: u32) -> Result<Verdict, Memory>
    ensures { result ≡ verdict_at fault line }
{
    match fault {
        Fault::Memory => Err(Memory),
        Fault::Bad => Ok(Verdict::Bad { line }),
    }
}
