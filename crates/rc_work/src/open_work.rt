//! Reads a workload whose calls may bring their own operation, line by line.

ghost use Rattle.std.specs.Prelude.{◌≡◌, ◌≤◌, ◌^◌, length, IfOk, IfErr, OnOk};
ghost use Rattle.std.specs.List.{AllByRecursion};
ghost use Rattle.rc_text.specs.Lines.{IsLineStart, content_from, past_end_of};
ghost use Rattle.rc_spec.specs.InRange.{IsInRange};
ghost use Rattle.rc_spec.specs.Names.{IsWellNamed};
ghost use Rattle.rc_reader.specs.Answers.{rest_place, ReadsAs};
ghost use Rattle.rc_work.specs.Fitting.{HasThreads, RoundsFit};
ghost use Rattle.rc_work.specs.Limits.{HasSingleTurns, KeepsLimits, KnowsTexts};
ghost use Rattle.rc_work.specs.LineForms.{word_texts};
ghost use Rattle.rc_work.specs.OpenAnswers.{CanReadOpen, TakesOpenLine};
ghost use Rattle.rc_work.specs.OpenGrammar.{after_open, after_shape_of, has_later_forms, open_all, open_reading};
ghost use Rattle.rc_work.specs.ShapeForms.{shape_form};
ghost use Rattle.rc_work.specs.Shapes.{IsShapeOf, with_operations};

use crate::also::Also;
use crate::forms::form_of;
use crate::ranking::work_over;
use crate::reading::read_header;
use crate::rules::take_form;
use crate::shape_forms::shape_form;
use crate::shapes::{OpenDraft, take_shape};
use crate::words::line_words;
use crate::work::Work;
use rc_reader::{LineFault, LineRule, ReadRefusal, Rest};
use rc_spec::{Ops, Spec};
use rc_text::{Language, Lines, Word, read_lines};
use std::alloc::Global;

/// A workload whose calls may bring their own operation.
#[derive(Debug, Drop)]
pub struct OpenWork {
    /// The operations that the calls bring, one for each kind with its lists of columns, in the order of their first lines. The
    /// first is named `?1`.
    pub shapes: Ops,
    /// The workload over the specification with these operations behind its own.
    pub work: Work,
}

/// Takes a line that has none of the forms of every workload.
fn read_shape(
    alloc: Global,
    later: bool,
    spec: &Spec,
    read: &mut OpenDraft,
    words: &[Word<'_>],
) -> Result<(), LineFault>
    requires { CanReadOpen spec.now read.old }
    ensures taken { TakesOpenLine result read.new
        (after_shape_of spec.now read.old (shape_form later (word_texts words.now))) }
    ensures can { OnOk result (CanReadOpen spec.now read.new) }
{
    match shape_form(later, words) {
        Some(form) => take_shape(alloc, spec, read, form),
        None => Err(LineFault::Broken(LineRule::S2)),
    }
}

/// Reads a line behind the header. After a refusal what was read is of no use.
#[tactic(auto, unfolding(crate::specs::OpenGrammar::after_open))]
fn read_open_line(
    alloc: Global,
    later: bool,
    spec: &Spec,
    read: &mut OpenDraft,
    bytes: &[u8],
) -> Result<(), LineFault>
    requires { CanReadOpen spec.now read.old }
    ensures taken { TakesOpenLine result read.new (after_open later spec.now read.old bytes.now) }
    ensures can { OnOk result (CanReadOpen spec.now read.new) }
{
    let Some(words) = line_words(alloc, bytes)? else {
        return Err(LineFault::Broken(LineRule::S2));
    };
    match form_of(Also::Nothing, &words) {
        Some(form) => take_form(alloc, spec, &mut read.draft, form),
        None => read_shape(alloc, later, spec, read, &words),
    }
}

/// The lines behind the header, as a language that reads them. None ends the reading.
#[derive(Clone, Copy, Debug)]
struct OpenLines<'a> {
    alloc: Global,
    /// The text has queries with ranges and updates.
    later: bool,
    spec: &'a Spec,
}

impl<'a> Language for OpenLines<'a> {
    ghost use Rattle.rc_work.specs.OpenAnswers.{CanReadOpen, ReadsOpenLine, fails_open_line};

    type State = OpenDraft;

    type Fault = LineFault;

    ghost reads = { λ language read bytes ended next.
        ReadsOpenLine language.later language.spec.now read bytes ended next };

    ghost fails = { λ language read bytes fault.
        fails_open_line language.later language.spec.now read bytes fault };

    ghost can = { λ language read. CanReadOpen language.spec.now read };

    fn read_line(&self, read: &mut OpenDraft, bytes: &[u8]) -> Result<bool, LineFault> {
        read_open_line(self.alloc, self.later, self.spec, read, bytes)?;
        Ok(false)
    }
}

/// Reads the lines of a workload.
fn read_open_draft(
    alloc: Global,
    later: bool,
    spec: &Spec,
    lines: &mut Lines<'_>,
) -> Result<OpenDraft, ReadRefusal>
    requires { IsInRange spec.now }
    ensures { ReadsAs result
        (open_all later (past_end_of lines.old.text) spec.now (content_from lines.old)) }
{
    let threads = read_header(alloc, lines)?;
    let mut read = OpenDraft::new(alloc, threads);
    if let Err(unread) = read_lines(&OpenLines { alloc, later, spec }, &mut read, lines) {
        return Err(unread.fault.at(unread.line));
    }
    if read.draft.ended {
        Ok(read)
    } else {
        Err(ReadRefusal::Line {
            rule: LineRule::S8,
            line: lines.past_end(),
        })
    }
}

/// Reads the workload behind a specification as `read_work` does, with calls that may bring their own operation: a query, an
/// insert, a remove or an update by columns that no operation of the specification names. A refusal is for the first broken rule
/// and its line, one of S1 to S8 and W1 to W4, or is want of memory. A line of such a call takes what a call takes, and a list for
/// each of its lists of columns.
pub fn read_open(
    alloc: Global,
    bytes: &[u8],
    rest: Rest,
    spec: &Spec,
) -> Result<OpenWork, ReadRefusal>
    requires short { length bytes.now ≤ 2 ^ 24 }
    requires start { IsLineStart (rest_place bytes.now rest) }
    requires in_range { IsInRange spec.now }
    requires well_named { IsWellNamed spec.now }
    ensures exact { ReadsAs result (open_reading rest.version spec.now (rest_place bytes.now rest)) }
    ensures few { IfOk result (λ read. length read.shapes ≤ 32) }
    ensures shapes { IfOk result (λ read. AllByRecursion (IsShapeOf spec.now) read.shapes) }
    ensures limits { IfOk result (λ read. KeepsLimits read.work) }
    ensures threads { IfOk result (λ read. HasThreads read.work) }
    ensures fit { IfOk result (λ read.
        RoundsFit (with_operations spec.now read.shapes) read.work.rounds) }
    ensures known_texts { IfOk result (λ read.
        KnowsTexts (with_operations spec.now read.shapes) read.work) }
    ensures single { IfOk result (λ read. HasSingleTurns read.work) }
{
    let mut lines = Lines::new(bytes, rest.at, rest.line);
    let read = read_open_draft(alloc, rest.version >= 2, spec, &mut lines)?;
    let work = work_over(alloc, spec, read.shapes.list(), &read.draft)?;
    Ok(OpenWork {
        shapes: read.shapes,
        work,
    })
}
