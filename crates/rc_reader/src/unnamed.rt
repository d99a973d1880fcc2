//! Operations that lines give without a name, each in the form of an `op` line behind its name.

ghost use Rattle.std.specs.Prelude.{◌≡◌, IfOk};
ghost use Rattle.rc_spec.specs.InRange.{IsInRange};
ghost use Rattle.rc_reader.specs.Answers.{GivesOperation};
ghost use Rattle.rc_reader.specs.Forms.{form_text, texts};
ghost use Rattle.rc_reader.specs.Unnamed.{found_change, found_operation, found_query};
ghost use Rattle.rc_reader.specs.Unnamed.{IsOverColumns, unnamed_operation};

use crate::forms::{Form, operation_behind};
use crate::names::{named_columns, repeat_in_both};
use crate::refusal::{LineFault, LineRule};
use crate::version::Version;
use crate::words::plain_words;
use rc_spec::{Name, Op, OpKind, Spec};
use rc_tuple::Memory;
use std::alloc::Global;

/// An operation without a name, with its words looked up.
#[derive(Debug, Drop)]
pub(crate) struct FoundOperation {
    /// A word that names no column is left out.
    pub(crate) op: Op,
    /// The pattern names a column twice, or the range columns do, or one stands in both.
    pub(crate) names_twice: bool,
    /// A word names no column.
    pub(crate) has_unknown: bool,
}

fn found_query(
    alloc: Global,
    spec: &Spec,
    pattern: &[&[u8]],
    ranges: &[&[u8]],
    outs: &[&[u8]],
) -> Result<FoundOperation, Memory>
    requires { IsInRange spec.now }
    ensures { IfOk result (λ found. found
        ≡ found_query spec.now (texts pattern.now) (texts ranges.now) (texts outs.now)) }
{
    let pattern = named_columns(alloc, spec.columns.list(), pattern)?;
    let ranges = named_columns(alloc, spec.columns.list(), ranges)?;
    let outs = named_columns(alloc, spec.columns.list(), outs)?;
    Ok(FoundOperation {
        names_twice: repeat_in_both(&pattern, &ranges),
        has_unknown: pattern.has_unknown || ranges.has_unknown || outs.has_unknown,
        op: Op {
            name: Name::new(alloc),
            pattern: pattern.numbers,
            kind: OpKind::Query {
                outs: outs.numbers,
                ranges: ranges.numbers,
            },
        },
    })
}

/// An insert, a remove or an update.
fn found_change(
    alloc: Global,
    spec: &Spec,
    pattern: &[&[u8]],
    kind: OpKind,
) -> Result<FoundOperation, Memory>
    requires { IsInRange spec.now }
    ensures { IfOk result (λ found. found ≡ found_change spec.now (texts pattern.now) kind) }
{
    let pattern = named_columns(alloc, spec.columns.list(), pattern)?;
    Ok(FoundOperation {
        names_twice: pattern.names_twice,
        has_unknown: pattern.has_unknown,
        op: Op {
            name: Name::new(alloc),
            pattern: pattern.numbers,
            kind,
        },
    })
}

/// The operation of a form, where it is that of an operation.
fn found_operation(
    alloc: Global,
    spec: &Spec,
    form: Form<'_>,
) -> Result<Option<FoundOperation>, Memory>
    requires { IsInRange spec.now }
    ensures { IfOk result (λ found. found ≡ found_operation spec.now (form_text form.entry)) }
{
    let found = match form {
        Form::Query {
            name: _,
            pattern,
            ranges,
            outs,
        } => found_query(alloc, spec, pattern, ranges, outs)?,
        Form::Insert(_, pattern) => found_change(alloc, spec, pattern, OpKind::Insert)?,
        Form::Remove(_, pattern) => found_change(alloc, spec, pattern, OpKind::Remove)?,
        Form::Update(_, pattern) => found_change(alloc, spec, pattern, OpKind::Update)?,
        _ => return Ok(None),
    };
    Ok(Some(found))
}

/// The operation that a line gives without a name, in a text of the version: `query COLS -> COLS`,
/// `query COLS : COLS -> COLS`, `insert COLS`, `remove COLS` or `update COLS`, as an `op` line has it
/// behind its name. The fault is the first of S2, S3 and S4 that the line breaks, or want of memory.
#[tactic(auto, unfolding(crate::specs::Unnamed::unnamed_operation))]
pub fn read_operation(
    alloc: Global,
    version: Version,
    spec: &Spec,
    bytes: &[u8],
) -> Result<Op, LineFault>
    requires { IsInRange spec.now }
    ensures exact { GivesOperation result (unnamed_operation version spec.now bytes.now) }
    ensures columns { IfOk result (IsOverColumns spec.now) }
{
    let Some(words) = plain_words(alloc, bytes)? else {
        return Err(LineFault::Broken(LineRule::S2));
    };
    let Some(form) = operation_behind(version, &[], &words) else {
        return Err(LineFault::Broken(LineRule::S2));
    };
    let Some(found) = found_operation(alloc, spec, form)? else {
        return Err(LineFault::Broken(LineRule::S2));
    };
    if found.names_twice {
        return Err(LineFault::Broken(LineRule::S3));
    }
    if found.has_unknown {
        return Err(LineFault::Broken(LineRule::S4));
    }
    Ok(found.op)
}
