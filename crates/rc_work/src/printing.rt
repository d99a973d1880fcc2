ghost use Rattle.std.specs.Prelude.{◌≡◌, ◌++◌, [], ◌∷◌, map, decimal, OnOk, IfOk, slice_index_or};
ghost use Rattle.std.specs.List.{zip};
ghost use Rattle.rc_tuple.specs.Tuple.{value};
ghost use Rattle.rc_spec.specs.Calls.{Fits};
ghost use Rattle.rc_work.specs.Printed.{spaced, kind_at, pair_text, pair_words, row_text, bounds_given, given, outs_of, reply_words, values_and_reply, step_words};
ghost use Rattle.rc_work.specs.Report.{count_line, step_line};

use rc_rel::Step;
use rc_spec::{Call, ColKind, Op, OpKind, Range, Reply, RowList, Spec};
use rc_text::{push_bytes, push_quoted, push_u64};
use rc_tuple::{Memory, Tuple};
use rc_values::Ranks;
use std::alloc::Global;

/// Appends a space and the word.
pub(crate) fn push_spaced(out: &mut Vec<u8>, word: &[u8]) -> Result<(), Memory>
    ensures { OnOk result (out.new.items ≡ out.old.items ++ spaced (word.now ∷ [])) }
{
    out.push(b' ')?;
    push_bytes(out, word)
}

/// Appends a space and the number's digits.
pub(crate) fn push_spaced_u64(out: &mut Vec<u8>, number: u64) -> Result<(), Memory>
    ensures { OnOk result (out.new.items ≡ out.old.items ++ spaced (decimal number ∷ [])) }
{
    out.push(b' ')?;
    push_u64(out, number)
}

/// The kind of the column's values.
pub(crate) fn kind_at(spec: &Spec, col: u8) -> ColKind
    ensures { result ≡ kind_at spec.now col }
{
    match spec.columns.list().get(col as usize) {
        Some(column) => column.kind,
        None => ColKind::Num,
    }
}

/// The text with the rank, or the empty text where there is none.
fn text_at(ranks: &Ranks, rank: u64) -> &[u8]
    ensures { result.now ≡ slice_index_or ranks.now rank [] }
{
    match ranks.text_of(rank) {
        Some(text) => text,
        None => &[],
    }
}

/// Appends a value of the column.
fn push_value(
    out: &mut Vec<u8>,
    spec: &Spec,
    ranks: &Ranks,
    col: u8,
    value: u64,
) -> Result<(), Memory>
    ensures { OnOk result (out.new.items ≡ out.old.items ++ pair_text spec.now ranks.now (col, value)) }
{
    match kind_at(spec, col) {
        ColKind::Num => push_u64(out, value),
        ColKind::Text => push_quoted(out, text_at(ranks, value)),
    }
}

/// Appends the values, each after a space.
fn push_spaced_values(
    out: &mut Vec<u8>,
    spec: &Spec,
    ranks: &Ranks,
    pairs: &[(u8, u64)],
) -> Result<(), Memory>
    ensures { OnOk result (out.new.items ≡ out.old.items ++ spaced (pair_words spec.now ranks.now pairs.now)) }
{
    for pair in pairs {
        out.push(b' ')?;
        push_value(out, spec, ranks, pair.0, pair.1)?;
    }
    Ok(())
}

/// Appends the values in parentheses.
fn push_row(
    out: &mut Vec<u8>,
    spec: &Spec,
    ranks: &Ranks,
    pairs: &[(u8, u64)],
) -> Result<(), Memory>
    ensures { OnOk result (out.new.items ≡ out.old.items ++ row_text spec.now ranks.now pairs.now) }
{
    out.push(b'(')?;
    if let [first, others @ ..] = pairs {
        push_value(out, spec, ranks, first.0, first.1)?;
        push_spaced_values(out, spec, ranks, others)?;
    }
    out.push(b')')?;
    Ok(())
}

/// The text of a tuple: its values in column order, in parentheses.
pub fn print_tuple(
    alloc: Global,
    spec: &Spec,
    ranks: &Ranks,
    tuple: &Tuple,
) -> Result<Vec<u8>, Memory>
    ensures { IfOk result (λ text. text.items ≡ row_text spec.now ranks.now tuple.now) }
{
    let mut text = Vec::new(alloc);
    push_row(&mut text, spec, ranks, tuple.pairs())?;
    Ok(text)
}

/// The columns with the values beside them.
fn beside(alloc: Global, cols: &[u8], values: &[u64]) -> Result<Vec<(u8, u64)>, Memory>
    ensures { IfOk result (λ pairs. pairs.items ≡ zip cols.now values.now) }
{
    let pairs: Vec<(u8, u64)> = cols
        .iter()
        .copied()
        .zip(values.iter().copied())
        .collect(alloc)?;
    Ok(pairs)
}

/// Appends the rows of a query, each after a space.
fn push_spaced_rows(
    out: &mut Vec<u8>,
    spec: &Spec,
    ranks: &Ranks,
    outs: &[u8],
    rows: &RowList,
) -> Result<(), Memory>
    ensures { OnOk result (out.new.items ≡ out.old.items ++ spaced (map (λ row. row_text spec.now ranks.now (zip outs.now row)) rows.now)) }
{
    for at in 0..rows.len() {
        let pairs = beside(*out.allocator(), outs, rows.row(at))?;
        out.push(b' ')?;
        push_row(out, spec, ranks, &pairs)?;
    }
    Ok(())
}

/// Appends a reply, its words each after a space.
fn push_spaced_reply(
    out: &mut Vec<u8>,
    spec: &Spec,
    ranks: &Ranks,
    outs: &[u8],
    reply: &Reply,
) -> Result<(), Memory>
    ensures { OnOk result (out.new.items ≡ out.old.items ++ spaced (reply_words spec.now ranks.now outs.now reply.now)) }
{
    match reply {
        Reply::Rows(rows) => {
            push_spaced_u64(out, rows.len() as u64)?;
            push_spaced(out, b"rows")?;
            push_spaced_rows(out, spec, ranks, outs, rows)
        }
        Reply::Many(count) => {
            push_spaced(out, b"many")?;
            push_spaced_u64(out, *count)
        }
        Reply::Inserted => push_spaced(out, b"inserted"),
        Reply::Present => push_spaced(out, b"present"),
        Reply::Conflict(number) => {
            push_spaced(out, b"conflict")?;
            push_spaced_u64(out, u64::from(*number))
        }
        Reply::Removed(tuple) => {
            push_spaced(out, b"removed ")?;
            push_row(out, spec, ranks, tuple.pairs())
        }
        Reply::Updated(tuple) => {
            push_spaced(out, b"updated ")?;
            push_row(out, spec, ranks, tuple.pairs())
        }
        Reply::Absent => push_spaced(out, b"absent"),
    }
}

/// The values of a call in the order in which it gives them, the bounds of a query last.
fn given(alloc: Global, op: &Op, call: &Call) -> Result<Vec<(u8, u64)>, Memory>
    ensures { IfOk result (λ pairs. pairs.items ≡ given op.now.kind op.now.pattern call.now.args call.now.ranges) }
{
    match &op.kind {
        OpKind::Query { .. } => {
            let mut pairs = picked(alloc, op.pattern.list(), &call.args)?;
            push_bounds(&mut pairs, call.ranges.list())?;
            Ok(pairs)
        }
        OpKind::Insert | OpKind::Update => Ok(Vec::from_slice(alloc, call.args.pairs())?),
        OpKind::Remove => picked(alloc, op.pattern.list(), &call.args),
    }
}

/// Appends each range's column with its lower and then with its upper bound.
fn push_bounds(pairs: &mut Vec<(u8, u64)>, ranges: &[Range]) -> Result<(), Memory>
    ensures { OnOk result (pairs.new.items ≡ pairs.old.items ++ bounds_given ranges.now) }
{
    for range in ranges {
        pairs.push((range.col, range.lo))?;
        pairs.push((range.col, range.hi))?;
    }
    Ok(())
}

/// The columns with their values.
fn picked(alloc: Global, cols: &[u8], args: &Tuple) -> Result<Vec<(u8, u64)>, Memory>
    ensures { IfOk result (λ pairs. pairs.items ≡ map (λ c. (c, value args.now c)) cols.now) }
{
    let mut pairs = Vec::new(alloc);
    for col in cols {
        pairs.push((*col, args.get(*col).unwrap_or(0)))?;
    }
    Ok(pairs)
}

/// The output columns of a query.
fn outs_of(kind: &OpKind) -> &[u8]
    ensures { result.now ≡ outs_of kind.now }
{
    match kind {
        OpKind::Query { outs, ranges: _ } => outs.list(),
        OpKind::Insert | OpKind::Remove | OpKind::Update => &[],
    }
}

/// Appends the words of a step, each after a space.
fn push_step(out: &mut Vec<u8>, spec: &Spec, ranks: &Ranks, step: &Step) -> Result<(), Memory>
    requires { Fits spec.now step.now.call }
    ensures { OnOk result (out.new.items
        ≡ out.old.items ++ spaced (step_words spec.now ranks.now step.now)) }
{
    let op = spec.op(step.call.op);
    push_spaced(out, op.name.list())?;
    push_values_and_reply(out, spec, ranks, op, step)
}

/// Appends the line of a step, without a line feed: the place and the thread of its entry, and the
/// step.
pub fn push_step_line(
    out: &mut Vec<u8>,
    spec: &Spec,
    ranks: &Ranks,
    place: u64,
    thread: u32,
    step: &Step,
) -> Result<(), Memory>
    requires { Fits spec.now step.now.call }
    ensures { OnOk result (out.new.items
        ≡ out.old.items ++ step_line spec.now ranks.now place thread step.now) }
{
    push_u64(out, place)?;
    push_spaced_u64(out, u64::from(thread))?;
    push_step(out, spec, ranks, step)
}

/// Appends the line of a word with a count, without a line feed.
pub fn push_count_line(out: &mut Vec<u8>, word: &[u8], count: u64) -> Result<(), Memory>
    ensures { OnOk result (out.new.items ≡ out.old.items ++ count_line word.now count) }
{
    push_bytes(out, word)?;
    push_spaced_u64(out, count)
}

/// Appends the values of a step's call, `->` and the reply, each after a space.
fn push_values_and_reply(
    out: &mut Vec<u8>,
    spec: &Spec,
    ranks: &Ranks,
    op: &Op,
    step: &Step,
) -> Result<(), Memory>
    ensures { OnOk result (out.new.items ≡ out.old.items ++ spaced (values_and_reply spec.now ranks.now op.now step.now)) }
{
    let pairs = given(*out.allocator(), op, &step.call)?;
    push_spaced_values(out, spec, ranks, &pairs)?;
    push_spaced(out, b"->")?;
    push_spaced_reply(out, spec, ranks, outs_of(&op.kind), &step.reply)
}
