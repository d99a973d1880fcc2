//! Lines that bring their own operation: the rules that one may break, and what it adds where it breaks none.

ghost use Rattle.std.specs.Prelude.{◌≡◌, ◌<◌, ◌≤◌, length, IfOk, IfSome, IsNone, OnOk};
ghost use Rattle.rc_spec.specs.InRange.{IsInRange, IsOpAmong};
ghost use Rattle.rc_spec.specs.Names.{column_names};
ghost use Rattle.rc_reader.specs.Columns.{named_columns};
ghost use Rattle.rc_reader.specs.Forms.{texts};
ghost use Rattle.rc_work.specs.Determined.{keeps_rules};
ghost use Rattle.rc_work.specs.LineForms.{word_texts};
ghost use Rattle.rc_work.specs.OpenAnswers.{TakesOpenLine};
ghost use Rattle.rc_work.specs.OpenGrammar.{open_of};
ghost use Rattle.rc_work.specs.ShapeForms.{kind_text, plain_words, shape_text};
ghost use Rattle.rc_work.specs.ShapeRules.{after_op, after_shape, breaks_limit, found_shape, is_one_shape_more, is_same_kind, is_same_shape, kind_with, out_words, range_words, shape_name, shape_place, with_shape};

use crate::draft::Draft;
use crate::rules::{call_thread, read_call};
use crate::shape_forms::{Kind, ShapeForm};
use rc_place::keeps_o;
use rc_reader::{LineFault, LineRule, NamedColumns, named_columns, repeat_in_both};
use rc_spec::{Name, Op, OpKind, Ops, Spec};
use rc_text::{Word, push_u64};
use rc_tuple::{Cols, Memory};
use std::alloc::Global;

/// The most shapes of a workload, and of a text of shapes.
const MAX_SHAPES: usize = 32;

/// A workload of which some lines are read, with the shapes of the operations that they brought.
#[derive(Debug, Drop)]
pub(crate) struct OpenDraft {
    /// In the order of their first lines.
    pub(crate) shapes: Ops,
    pub(crate) draft: Draft,
}

impl OpenDraft {
    /// What a header alone leaves.
    pub(crate) fn new(alloc: Global, threads: u32) -> OpenDraft
        ensures { result ≡ open_of threads }
    {
        OpenDraft {
            shapes: Ops::new(alloc),
            draft: Draft::new(alloc, threads),
        }
    }

    /// Whether a call with this operation is one more than a workload may have, or brings one shape more.
    fn is_full(&self, op: &Op) -> bool
        ensures { result ≡ breaks_limit self.now op.now }
    {
        self.draft.is_full()
            || is_one_shape_more(self.shapes.list(), shape_place(self.shapes.list(), op))
    }
}

/// A line that brings its own operation, with its words looked up.
#[derive(Debug, Drop)]
pub(crate) struct FoundShape {
    /// The operation, without a name. A word that names no column is left out.
    pub(crate) op: Op,
    /// The pattern names a column twice, or the range columns do, or one stands in both.
    pub(crate) breaks_names: bool,
    /// A word names no column.
    pub(crate) breaks_known: bool,
}

/// The words that aren't quoted.
fn plain_words<'a>(alloc: Global, words: &'a [Word<'a>]) -> Result<Vec<&'a [u8]>, Memory>
    ensures { IfOk result (λ plain. texts plain.items ≡ plain_words (word_texts words.now)) }
{
    let mut plain = Vec::new(alloc);
    for word in words {
        if let Word::Plain(word) = word {
            plain.push(*word)?;
        }
    }
    Ok(plain)
}

/// The columns that words name.
fn named(alloc: Global, spec: &Spec, words: &[Word<'_>]) -> Result<NamedColumns, Memory>
    requires { IsInRange spec.now }
    ensures { IfOk result (λ named. named
        ≡ named_columns (column_names spec.now.columns) (plain_words (word_texts words.now))) }
{
    let words = plain_words(alloc, words)?;
    named_columns(alloc, spec.columns.list(), &words)
}

/// The words of range columns.
fn range_words<'a>(kind: Kind<'a>) -> &'a [Word<'a>]
    ensures { word_texts result.now ≡ range_words (kind_text kind.entry) }
{
    match kind {
        Kind::Query { ranges, outs: _ } => ranges,
        Kind::Insert | Kind::Remove | Kind::Update => &[],
    }
}

/// The words of outputs.
fn out_words<'a>(kind: Kind<'a>) -> &'a [Word<'a>]
    ensures { word_texts result.now ≡ out_words (kind_text kind.entry) }
{
    match kind {
        Kind::Query { ranges: _, outs } => outs,
        Kind::Insert | Kind::Remove | Kind::Update => &[],
    }
}

/// What an operation of this kind does, with these outputs and range columns.
fn kind_with(kind: Kind<'_>, outs: Cols, ranges: Cols) -> OpKind
    ensures { result ≡ kind_with (kind_text kind.entry) outs ranges }
{
    match kind {
        Kind::Query { .. } => OpKind::Query { outs, ranges },
        Kind::Insert => OpKind::Insert,
        Kind::Remove => OpKind::Remove,
        Kind::Update => OpKind::Update,
    }
}

/// Looks the words of a line up.
fn found_shape(alloc: Global, spec: &Spec, form: ShapeForm<'_>) -> Result<FoundShape, Memory>
    requires { IsInRange spec.now }
    ensures { IfOk result (λ found. found ≡ found_shape spec.now (shape_text form.entry)) }
{
    let pattern = named(alloc, spec, form.pattern)?;
    let ranges = named(alloc, spec, range_words(form.kind))?;
    let outs = named(alloc, spec, out_words(form.kind))?;
    Ok(FoundShape {
        breaks_names: repeat_in_both(&pattern, &ranges),
        breaks_known: pattern.has_unknown || ranges.has_unknown || outs.has_unknown,
        op: Op {
            name: Name::new(alloc),
            pattern: pattern.numbers,
            kind: kind_with(form.kind, outs.numbers, ranges.numbers),
        },
    })
}

/// Whether two operations do the same, with the same lists of columns.
fn is_same_kind(kind: &OpKind, other: &OpKind) -> bool
    ensures { result ≡ is_same_kind kind.now other.now }
{
    match (kind, other) {
        (
            OpKind::Query { outs, ranges },
            OpKind::Query {
                outs: others,
                ranges: more,
            },
        ) => outs.list() == others.list() && ranges.list() == more.list(),
        (OpKind::Insert, OpKind::Insert) => true,
        (OpKind::Remove, OpKind::Remove) => true,
        (OpKind::Update, OpKind::Update) => true,
        _ => false,
    }
}

/// Whether two operations have the same shape.
fn is_same_shape(op: &Op, other: &Op) -> bool
    ensures { result ≡ is_same_shape op.now other.now }
{
    op.pattern.list() == other.pattern.list() && is_same_kind(&op.kind, &other.kind)
}

/// The place of an operation's shape among those of others.
pub fn shape_place(shapes: &[Op], op: &Op) -> Option<usize>
    ensures place { result ≡ shape_place shapes.now op.now }
    ensures within { IfSome result (λ place. place < length shapes.now) }
{
    shapes.iter().position(|shape| is_same_shape(op, shape))
}

/// Whether a shape with this place among the others is one more than there may be.
pub(crate) fn is_one_shape_more(shapes: &[Op], place: Option<usize>) -> bool
    ensures { result ≡ is_one_shape_more shapes.now place }
{
    place.is_none() && shapes.len() >= MAX_SHAPES
}

/// The name of the shape at a place.
fn shape_name(alloc: Global, place: usize) -> Result<Name, Memory>
    requires { place < 32 }
    ensures { IfOk result (λ name. name ≡ shape_name place) }
{
    let mut name = Vec::new(alloc);
    name.push(b'?')?;
    push_u64(&mut name, place as u64 + 1)?;
    Ok(Name::from_vec(name))
}

/// Keeps the shape of an operation that no line before brought.
pub(crate) fn keep_shape(
    alloc: Global,
    shapes: &mut Ops,
    mut op: Op,
    place: Option<usize>,
) -> Result<(), Memory>
    requires { IsNone place → length shapes.old < 32 }
    ensures { OnOk result (shapes.new ≡ with_shape shapes.old op place) }
{
    if place.is_none() {
        op.name = shape_name(alloc, shapes.list().len())?;
        shapes.push(op)?;
    }
    Ok(())
}

/// Whether the operation keeps its rules, O1 to O3.
pub(crate) fn keeps_rules(spec: &Spec, op: &Op) -> bool
    requires range { IsInRange spec.now }
    requires known { IsOpAmong (length spec.now.columns) op.now }
    ensures { result ≡ keeps_rules spec.now op.now }
{
    keeps_o(spec, op)
}

/// Takes a call of an operation that its line brings.
fn add_op(
    alloc: Global,
    spec: &Spec,
    read: &mut OpenDraft,
    thread: &[u8],
    op: Op,
    words: &[Word<'_>],
) -> Result<(), LineFault>
    requires range { IsInRange spec.now }
    requires known { IsOpAmong (length spec.now.columns) op }
    requires few { length read.old.shapes ≤ 32 }
    ensures taken { TakesOpenLine result read.new (after_op spec.now read.old op thread.now (word_texts words.now)) }
    ensures few { OnOk result (length read.new.shapes ≤ 32) }
{
    let thread = call_thread(&read.draft, read.is_full(&op), thread, words)?;
    let place = shape_place(read.shapes.list(), &op);
    let number = spec.ops.list().len() + place.unwrap_or(read.shapes.list().len());
    let call = read_call(alloc, spec, &op, number as u8, words)?;
    if !keeps_rules(spec, &op) {
        return Err(LineFault::Broken(LineRule::W4));
    }
    keep_shape(alloc, &mut read.shapes, op, place)?;
    read.draft.push_call(alloc, thread, call)?;
    Ok(())
}

/// Takes a line that brings its own operation. After a refusal what was read is of no use.
pub(crate) fn take_shape(
    alloc: Global,
    spec: &Spec,
    read: &mut OpenDraft,
    form: ShapeForm<'_>,
) -> Result<(), LineFault>
    requires range { IsInRange spec.now }
    requires few { length read.old.shapes ≤ 32 }
    ensures taken { TakesOpenLine result read.new (after_shape spec.now read.old (shape_text form.entry)) }
    ensures few { OnOk result (length read.new.shapes ≤ 32) }
{
    let found = found_shape(alloc, spec, form)?;
    if found.breaks_names {
        return Err(LineFault::Broken(LineRule::S3));
    }
    if found.breaks_known {
        return Err(LineFault::Broken(LineRule::S4));
    }
    add_op(alloc, spec, read, form.thread, found.op, form.values)
}
