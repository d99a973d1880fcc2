//! Reads a workload, line by line.

ghost use Rattle.std.specs.Prelude.{◌≡◌, ◌≤◌, ◌^◌, length, Ok, IfOk, IfErr};
ghost use Rattle.rc_text.specs.Lines.{IsLineStart, content_from, past_end_of};
ghost use Rattle.rc_text.specs.Numbers.{u64_of};
ghost use Rattle.rc_spec.specs.InRange.{IsInRange};
ghost use Rattle.rc_spec.specs.Names.{IsWellNamed};
ghost use Rattle.rc_reader.specs.Answers.{rest_place, ReadsAs, Refuses};
ghost use Rattle.rc_work.specs.LineForms.{word_texts};
ghost use Rattle.rc_work.specs.WorkGrammar.{after_bytes, threads_by, threads_of_words, threads_of, headed, reading_all};
ghost use Rattle.rc_work.specs.Ranking.{work_reading};
ghost use Rattle.rc_work.specs.Fitting.{HasThreads, RoundsFit};
ghost use Rattle.rc_work.specs.Limits.{HasSingleTurns, KeepsLimits, KnowsTexts};
ghost use Rattle.rc_work.specs.Answers.{Gives, TakesLine, IsWorkRefusal};
ghost use Rattle.rc_work.specs.declared.also.Also.TheVariants.{Nothing};

use crate::also::Also;
use crate::draft::Draft;
use crate::forms::form_of;
use crate::ranking::work_of;
use crate::rules::take_form;
use crate::words::line_words;
use crate::work::Work;
use rc_reader::{LineFault, LineRule, ReadRefusal, Rest};
use rc_spec::Spec;
use rc_text::{Language, Lines, NumFault, Word, read_lines, read_u64};
use std::alloc::Global;

/// The number of threads, which is 1 to 8.
fn threads_by(count: &[u8]) -> Result<u32, LineFault>
    ensures { Gives result (threads_by (u64_of count.now)) }
{
    match read_u64(count) {
        Ok(threads) if 1 <= threads && threads <= 8 => Ok(threads as u32),
        Ok(_) => Err(LineFault::Broken(LineRule::S5)),
        Err(NumFault::Range) => Err(LineFault::Broken(LineRule::S5)),
        Err(NumFault::Form) => Err(LineFault::Broken(LineRule::S1)),
    }
}

/// The number of threads that the header's words give.
fn threads_of_words(words: &[Word<'_>]) -> Result<u32, LineFault>
    ensures { Gives result (threads_of_words (word_texts words.now)) }
{
    match words {
        [Word::Plain(first), Word::Plain(count)] if *first == b"work".as_slice() => {
            threads_by(count)
        }
        _ => Err(LineFault::Broken(LineRule::S1)),
    }
}

/// The number of threads that a header gives.
#[tactic(auto, unfolding(crate::specs::WorkGrammar::threads_of))]
fn threads_of(alloc: Global, bytes: &[u8]) -> Result<u32, LineFault>
    ensures { Gives result (threads_of bytes.now) }
{
    match line_words(alloc, bytes)? {
        Some(words) => threads_of_words(&words),
        None => Err(LineFault::Broken(LineRule::S1)),
    }
}

/// Passes the header, which is the first content line, and answers the number of threads.
pub(crate) fn read_header(alloc: Global, lines: &mut Lines<'_>) -> Result<u32, ReadRefusal>
    ensures ok { IfOk result (λ threads. headed (past_end_of lines.old.text) (content_from lines.old)
        ≡ Ok (record { threads = threads; others = content_from lines.new })) }
    ensures err { IfErr result (λ refusal. Refuses refusal (headed (past_end_of lines.old.text) (content_from lines.old))) }
    ensures text { lines.new.text ≡ lines.old.text }
{
    let Some(line) = lines.next_line() else {
        return Err(ReadRefusal::Line {
            rule: LineRule::S1,
            line: lines.past_end(),
        });
    };
    match threads_of(alloc, line.bytes) {
        Ok(threads) => Ok(threads),
        Err(fault) => Err(fault.at(line.number)),
    }
}

/// Reads a line behind the header into the draft. After a refusal the draft is of no use.
#[tactic(auto, unfolding(crate::specs::WorkGrammar::after_bytes))]
fn read_line(
    alloc: Global,
    also: Also,
    spec: &Spec,
    draft: &mut Draft,
    bytes: &[u8],
) -> Result<(), LineFault>
    requires { IsInRange spec.now }
    ensures { TakesLine result draft.new (after_bytes also spec.now draft.old bytes.now) }
{
    let Some(words) = line_words(alloc, bytes)? else {
        return Err(LineFault::Broken(LineRule::S2));
    };
    let Some(form) = form_of(also, &words) else {
        return Err(LineFault::Broken(LineRule::S2));
    };
    take_form(alloc, spec, draft, form)
}

/// The lines behind the header, as a language that reads them into a draft. None ends the reading.
#[derive(Clone, Copy, Debug)]
pub(crate) struct DraftLines<'a> {
    pub(crate) alloc: Global,
    pub(crate) also: Also,
    pub(crate) spec: &'a Spec,
}

impl<'a> Language for DraftLines<'a> {
    ghost use Rattle.rc_spec.specs.InRange.{IsInRange};
    ghost use Rattle.rc_work.specs.Answers.{ReadsLine, fails_line};

    type State = Draft;

    type Fault = LineFault;

    ghost reads = { λ language draft bytes ended next.
        ReadsLine language.also language.spec.now draft bytes ended next };

    ghost fails = { λ language draft bytes fault.
        fails_line language.also language.spec.now draft bytes fault };

    ghost can = { λ language draft. IsInRange language.spec.now };

    fn read_line(&self, draft: &mut Draft, bytes: &[u8]) -> Result<bool, LineFault> {
        read_line(self.alloc, self.also, self.spec, draft, bytes)?;
        Ok(false)
    }
}

/// Reads the lines of a workload.
fn read_draft(
    alloc: Global,
    also: Also,
    spec: &Spec,
    lines: &mut Lines<'_>,
) -> Result<Draft, ReadRefusal>
    requires { IsInRange spec.now }
    ensures { ReadsAs result
        (reading_all also (past_end_of lines.old.text) spec.now (content_from lines.old)) }
{
    let threads = read_header(alloc, lines)?;
    let mut draft = Draft::new(alloc, threads);
    if let Err(unread) = read_lines(&DraftLines { alloc, also, spec }, &mut draft, lines) {
        return Err(unread.fault.at(unread.line));
    }
    if draft.ended {
        Ok(draft)
    } else {
        Err(ReadRefusal::Line {
            rule: LineRule::S8,
            line: lines.past_end(),
        })
    }
}

/// Reads the workload behind a specification, in a text of at most 2^24 bytes, from where the rest of the
/// text begins to its end. The value of a text column is the rank of its text among the texts of the whole
/// workload. A refusal is for the first broken rule and its line, one of S1, S2, S5 to S8, W1 to W3 and,
/// where groups are read, W5, or is want of memory. A line of a call takes what the call takes, and the list of
/// its turn: room for one call as it stands in the text, and for one in the workload. A group takes one such list
/// for all its calls.
pub fn read_work(
    alloc: Global,
    bytes: &[u8],
    rest: Rest,
    spec: &Spec,
    also: Also,
) -> Result<Work, ReadRefusal>
    requires short { length bytes.now ≤ 2 ^ 24 }
    requires start { IsLineStart (rest_place bytes.now rest) }
    requires in_range { IsInRange spec.now }
    requires well_named { IsWellNamed spec.now }
    ensures exact { ReadsAs result (work_reading also spec.now (rest_place bytes.now rest)) }
    ensures limits { IfOk result KeepsLimits }
    ensures threads { IfOk result HasThreads }
    ensures fit { IfOk result (λ work. RoundsFit spec.now work.rounds) }
    ensures known_texts { IfOk result (λ work. KnowsTexts spec.now work) }
    ensures single { IfOk result (λ work. also ≡ Nothing → HasSingleTurns work) }
    ensures rule { IfErr result (IsWorkRefusal also) }
{
    let mut lines = Lines::new(bytes, rest.at, rest.line);
    let draft = read_draft(alloc, also, spec, &mut lines)?;
    Ok(work_of(alloc, spec, &draft)?)
}
