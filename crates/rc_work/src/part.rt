//! Reads a workload up to its `end`, with the lines behind it left open.

ghost use Rattle.std.specs.Prelude.{◌≡◌, ◌≤◌, ◌^◌, length, IfOk, IfErr};
ghost use Rattle.rc_text.specs.Lines.{IsLineStart, content_from, past_end_of};
ghost use Rattle.rc_spec.specs.InRange.{IsInRange};
ghost use Rattle.rc_spec.specs.Names.{IsWellNamed};
ghost use Rattle.rc_reader.specs.Answers.{rest_place};
ghost use Rattle.rc_work.specs.PartGrammar.{part_all, part_reading};
ghost use Rattle.rc_work.specs.Fitting.{HasThreads, RoundsFit};
ghost use Rattle.rc_work.specs.Limits.{HasSingleTurns, KeepsLimits, KnowsTexts};
ghost use Rattle.rc_work.specs.Answers.{IsWorkRefusal, ReadsDraftPart, ReadsPart};
ghost use Rattle.rc_work.specs.declared.also.Also.TheVariants.{Nothing};

use crate::also::Also;
use crate::draft::Draft;
use crate::ranking::work_of;
use crate::reading::{DraftLines, read_header};
use crate::work::Work;
use rc_reader::{LineFault, LineRule, ReadRefusal, Rest};
use rc_spec::Spec;
use rc_text::{Language, Lines, read_lines};
use std::alloc::Global;

/// The lines behind the header, as a language that reads them into a draft. `end` is the last.
#[derive(Clone, Copy, Debug)]
struct PartLines<'a> {
    lines: DraftLines<'a>,
}

impl<'a> Language for PartLines<'a> {
    ghost use Rattle.rc_spec.specs.InRange.{IsInRange};
    ghost use Rattle.rc_work.specs.Answers.{ReadsPartLine, fails_line};

    type State = Draft;

    type Fault = LineFault;

    ghost reads = { λ language draft bytes ended next.
        ReadsPartLine language.lines.also language.lines.spec.now draft bytes ended next };

    ghost fails = { λ language draft bytes fault.
        fails_line language.lines.also language.lines.spec.now draft bytes fault };

    ghost can = { λ language draft. IsInRange language.lines.spec.now };

    fn read_line(&self, draft: &mut Draft, bytes: &[u8]) -> Result<bool, LineFault> {
        self.lines.read_line(draft, bytes)?;
        Ok(draft.ended)
    }
}

/// Reads the lines of a workload up to its `end`, in a text of the version.
fn read_part(
    alloc: Global,
    also: Also,
    spec: &Spec,
    version: u32,
    lines: &mut Lines<'_>,
) -> Result<(Draft, Rest), ReadRefusal>
    requires { IsInRange spec.now }
    ensures { ReadsDraftPart lines.old.text version result
        (part_all also (past_end_of lines.old.text) spec.now (content_from lines.old)) }
{
    let threads = read_header(alloc, lines)?;
    let mut draft = Draft::new(alloc, threads);
    let language = PartLines {
        lines: DraftLines { alloc, also, spec },
    };
    match read_lines(&language, &mut draft, lines) {
        Ok(Some(last)) => {
            let rest = Rest {
                at: last.next,
                line: last.number + 1,
                version,
            };
            Ok((draft, rest))
        }
        Ok(None) => Err(ReadRefusal::Line {
            rule: LineRule::S8,
            line: lines.past_end(),
        }),
        Err(unread) => Err(unread.fault.at(unread.line)),
    }
}

/// Reads the workload behind a specification, in a text of at most 2^24 bytes, from where the rest
/// of the text begins up to the workload's `end`, and says where the rest behind that begins. What
/// stands there isn't read, so no line of it is refused. The refusals of the lines up to there, values
/// and costs are those of `read_work`.
pub fn read_work_part(
    alloc: Global,
    bytes: &[u8],
    rest: Rest,
    spec: &Spec,
    also: Also,
) -> Result<(Work, Rest), ReadRefusal>
    requires short { length bytes.now ≤ 2 ^ 24 }
    requires start { IsLineStart (rest_place bytes.now rest) }
    requires in_range { IsInRange spec.now }
    requires well_named { IsWellNamed spec.now }
    ensures exact { ReadsPart bytes.now rest.version result
        (part_reading also spec.now (rest_place bytes.now rest)) }
    ensures limits { IfOk result (λ read. KeepsLimits read.0) }
    ensures threads { IfOk result (λ read. HasThreads read.0) }
    ensures fit { IfOk result (λ read. RoundsFit spec.now read.0.rounds) }
    ensures known_texts { IfOk result (λ read. KnowsTexts spec.now read.0) }
    ensures single { IfOk result (λ read. also ≡ Nothing → HasSingleTurns read.0) }
    ensures rule { IfErr result (IsWorkRefusal also) }
{
    let mut lines = Lines::new(bytes, rest.at, rest.line);
    let (draft, behind) = read_part(alloc, also, spec, rest.version, &mut lines)?;
    let work = work_of(alloc, spec, &draft)?;
    Ok((work, behind))
}
